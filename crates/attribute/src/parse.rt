// Values read by their specifications.
// Kept (5): `part` and `listed` stay while the place moves, so that a struct with the place would be made for each
// call and taken apart in it; so it would of what the public functions take, since 01 lends the bytes at each
// call. `start, at` are C's, in this order.

ghost use Rattle.std.specs.Prelude.{◌≡◌};
ghost use Rattle.abbrev.specs.Table.{entry_limit};
ghost use Rattle.abbrev.specs.Views.{found_of, specification_of};
ghost use Rattle.attribute.specs.Attributes.{keeps_place, read_attribute, read_attributes, stored};
ghost use Rattle.attribute.specs.Read.{attribute_at, attributes_at};
ghost use Rattle.attribute.specs.Views.{view_parsed, view_attributes};

use super::part::{Listed, Part, judged, specification};
use super::raw::{FormValue, Raw, form_at};
use super::source::Source;
use super::value::{Attribute, Value, value_of};
use abbrev::lookup::{Abbreviation, AttributeSpecification};
use reader::answer::Read;
use reader::error::Error;

// Where the values end, and the attributes; places without one hold one fixed attribute, all of them
// after a refusal.
// Kept (1, 6): as `Read<[Attribute; 64]>`, tried, the array is copied once more, and the raw reader takes 272 ns
// an entry for 241. With no heap there is no list in its place.
#[derive(Clone, Copy, Debug, PartialEq, Eq)]
pub struct Attributes {
    pub end: Result<usize, Error>,
    pub attrs: [Attribute; 64],
}

// One less than 2^63.
pub const MOST: usize = 0x7fff_ffff_ffff_ffff;

// Whether a position and an offset keep document 01's sizes.
pub fn keeps_place(count: usize, start: usize, at: usize) -> bool
    ensures { result ≡ keeps_place count start at }
{
    at <= count && count <= MOST && start <= MOST - count
}

// In line: handed back through memory, an attribute would wait for its stores in `read_listed`.
#[tactic(auto, using(crate::proofs::PaddedLaws::form_got, crate::proofs::PaddedLaws::form_plainly, crate::proofs::ReadLaws::form_fits), unfolding(crate::specs::Read::attribute_at))]
#[inline(always)]
fn parse_at(part: &Part<'_>, at: usize, spec: AttributeSpecification) -> Read<Attribute>
    ensures { view_parsed result ≡ attribute_at part.now.bytes part.now.start part.now.encoding part.now.endian (specification_of spec) at }
{
    let (FormValue { kind, raw }, next) = form_at(part, at, spec)?;
    let AttributeSpecification { name, form, .. } = spec;
    let Raw { low, padded, high } = raw;
    let value = Value { kind, low, high };
    let attribute = Attribute {
        name,
        form,
        padded,
        value: value_of(part.source.encoding, name, value),
    };
    Ok((attribute, next))
}

// gimli's `parse_attribute`: one value at `at`, by its specification.
#[tactic(auto, unfolding(crate::specs::Attributes::read_attribute))]
pub fn parse_attribute(
    bytes: &[u8],
    at: usize,
    source: Source,
    spec: AttributeSpecification,
) -> Read<Attribute>
    ensures { view_parsed result ≡ read_attribute bytes.now source.start source.encoding source.endian (specification_of spec) at }
{
    let part = Part::new(bytes, at, source)?;
    parse_at(&part, at, spec)
}

// All values, one after another. What stands after a refusal is written out here and in
// `read_attributes`: handed back by a function, it costs a copy of the array more.
// Kept (6): the array is the answer's; there is no heap.
#[tactic(auto, using(crate::proofs::ListLaws::kept_more, crate::proofs::ListLaws::fair_row))]
fn read_listed(part: &Part<'_>, at: usize, listed: &Listed<'_>) -> Attributes
    ensures { view_attributes result ≡ stored entry_limit.most (attributes_at part.now.bytes part.now.start part.now.encoding part.now.endian listed.now at) }
{
    let mut attrs = [Attribute::none(); 64];
    let mut next = at;
    for (i, row) in listed.rows.iter().enumerate() {
        match parse_at(part, next, specification(row)) {
            Ok((attribute, after)) => {
                attrs[i] = attribute;
                next = after;
            }
            Err(e) => {
                return Attributes {
                    end: Err(e),
                    attrs: [Attribute::none(); 64],
                }
            }
        }
    }
    Attributes {
        end: Ok(next),
        attrs,
    }
}

// All values of an abbreviation's specifications.
#[tactic(auto, unfolding(crate::specs::Attributes::read_attributes))]
pub fn read_attributes(
    bytes: &[u8],
    at: usize,
    source: Source,
    abbreviation: Abbreviation,
    specs: &[u64],
) -> Attributes
    ensures { view_attributes result ≡ stored entry_limit.most (read_attributes entry_limit.most bytes.now source.start source.encoding source.endian specs.now (found_of abbreviation) at) }
{
    match judged(bytes, at, source, abbreviation, specs) {
        Ok((part, listed)) => read_listed(&part, at, &listed),
        Err(e) => Attributes {
            end: Err(e),
            attrs: [Attribute::none(); 64],
        },
    }
}
