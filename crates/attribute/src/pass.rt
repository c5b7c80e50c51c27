// Values passed: read and judged as reading does, with nothing stored.
// Kept (5): of `part, at, layout` the last two are others for each value, as in `parse`.

ghost use Rattle.std.specs.Prelude.{◌≡◌};
ghost use Rattle.reader.specs.Answer.{end_of};
ghost use Rattle.reader.specs.Views.{view, view_read};
ghost use Rattle.abbrev.specs.Table.{entry_limit};
ghost use Rattle.abbrev.specs.Views.{found_of, specification_of};
ghost use Rattle.attribute.specs.Attributes.{read_attributes};
ghost use Rattle.attribute.specs.Read.{raw_at, form_at, attributes_at};
ghost use Rattle.attribute.specs.Skip.{past_block};
ghost use Rattle.attribute.specs.Steps.{passed_address, passed_constant};

use super::form::{Layout, row_of};
use super::part::{Listed, Part, judged, specification};
use super::raw::final_form;
use super::source::Source;
use abbrev::lookup::{Abbreviation, AttributeSpecification};
use abbrev::table::IMPLICIT_CONST;
use reader::answer::Read;
use reader::error::Error;
use reader::fields::{is_address_size, read_null_terminated_slice, skip};
use reader::leb128::{sleb128, uleb128};
use reader::words::{read_u8, read_u16, read_u32};

// Where what was read ends.
fn end<T: Copy>(read: Read<T>) -> Result<usize, Error>
    ensures { view result ≡ end_of (view_read read) }
{
    let (_, next) = read?;
    Ok(next)
}

fn pass_address(bytes: &[u8], at: usize, address_size: u8) -> Result<usize, Error>
    ensures { view result ≡ passed_address bytes.now at address_size }
{
    let size = u64::from(address_size);
    if is_address_size(size) {
        return skip(bytes, at, size);
    }
    Err(Error::UnsupportedAddressSize)
}

// Past the bytes that follow their count.
#[tactic(auto, unfolding(crate::specs::Skip::past_block))]
fn pass_block(bytes: &[u8], count: Read<u64>) -> Result<usize, Error>
    ensures { view result ≡ past_block bytes.now (view_read count) }
{
    let (len, at) = count?;
    skip(bytes, at, len)
}

fn pass_constant(spec: AttributeSpecification, at: usize) -> Result<usize, Error>
    ensures { view result ≡ passed_constant spec.form at }
{
    if u64::from(spec.form) == IMPLICIT_CONST {
        return Ok(at);
    }
    Err(Error::InvalidImplicitConst)
}

#[tactic(auto, using(crate::proofs::ReadLaws::ends), unfolding(crate::specs::Read::raw_at))]
fn pass_raw(
    part: &Part<'_>,
    at: usize,
    spec: AttributeSpecification,
    layout: Layout,
) -> Result<usize, Error>
    ensures { view result ≡ end_of (raw_at part.now.bytes part.now.start part.now.encoding part.now.endian (specification_of spec) layout at) }
{
    let bytes = part.bytes;
    let Source {
        encoding,
        endian,
        ..
    } = part.source;
    match layout {
        Layout::U8 => skip(bytes, at, 1),
        Layout::U16 => skip(bytes, at, 2),
        Layout::U24 => skip(bytes, at, 3),
        Layout::U32 => skip(bytes, at, 4),
        Layout::U64 => skip(bytes, at, 8),
        Layout::U128 => skip(bytes, at, 16),
        Layout::Offset => skip(bytes, at, u64::from(encoding.format.word_size())),
        Layout::Address => pass_address(bytes, at, encoding.address_size),
        Layout::RefAddr => if encoding.version == 2 {
            pass_address(bytes, at, encoding.address_size)
        } else {
            skip(bytes, at, u64::from(encoding.format.word_size()))
        },
        Layout::Uleb128 => end(uleb128(bytes, at)),
        Layout::Sleb128 => end(sleb128(bytes, at)),
        Layout::Block1 => pass_block(bytes, read_u8(bytes, at)),
        Layout::Block2 => pass_block(bytes, read_u16(bytes, at, endian)),
        Layout::Block4 => pass_block(bytes, read_u32(bytes, at, endian)),
        Layout::Block => pass_block(bytes, uleb128(bytes, at)),
        Layout::NullTerminated => end(read_null_terminated_slice(bytes, at)),
        Layout::Present => Ok(at),
        Layout::ImplicitConst => pass_constant(spec, at),
        Layout::Unknown => Err(Error::UnknownForm),
    }
}

#[tactic(auto, using(crate::proofs::ReadLaws::form_end, crate::proofs::PaddedLaws::final_plainly))]
fn pass_form(part: &Part<'_>, at: usize, spec: AttributeSpecification) -> Result<usize, Error>
    ensures { view result ≡ end_of (form_at part.now.bytes part.now.start part.now.encoding part.now.endian (specification_of spec) at) }
{
    let (last, next) = final_form(part.bytes, u64::from(spec.form), at)?;
    pass_raw(part, next, spec, row_of(last.form).layout)
}

#[tactic(auto, using(crate::proofs::ListLaws::passed_laws, crate::proofs::ListLaws::fair_row))]
fn pass_listed(part: &Part<'_>, at: usize, listed: &Listed<'_>) -> Result<usize, Error>
    ensures { view result ≡ end_of (attributes_at part.now.bytes part.now.start part.now.encoding part.now.endian listed.now at) }
{
    let mut next = at;
    for row in listed.rows {
        next = pass_form(part, next, specification(row))?;
    }
    Ok(next)
}

// Where reading the same would end, or its refusal.
// Kept (7): with the loop as `impl Fn`, this and `skip_attributes` would still be a call each of a third function,
// which requires what the loop promises, and `skip_listed` has a requires of its own.
#[tactic(auto, unfolding(crate::specs::Attributes::read_attributes))]
pub fn pass_attributes(
    bytes: &[u8],
    at: usize,
    source: Source,
    abbreviation: Abbreviation,
    specs: &[u64],
) -> Result<usize, Error>
    ensures { view result ≡ end_of (read_attributes entry_limit.most bytes.now source.start source.encoding source.endian specs.now (found_of abbreviation) at) }
{
    let (part, listed) = judged(bytes, at, source, abbreviation, specs)?;
    pass_listed(&part, at, &listed)
}
