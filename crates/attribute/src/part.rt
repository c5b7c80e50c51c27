// What values are read from, and by which specifications: both held to document 01's sizes.

ghost use Rattle.std.specs.Prelude.{◌≡◌, true, cond, ◌&&◌, length};
ghost use Rattle.reader.specs.Answer.{got, refused};
ghost use Rattle.reader.specs.Views.{view};
ghost use Rattle.abbrev.specs.Lookup.{fair, keeps_sizes, declaration_of};
ghost use Rattle.abbrev.specs.Table.{entry_limit};
ghost use Rattle.abbrev.specs.Views.{found_of, specification_of};
ghost use Rattle.attribute.specs.Attributes.{keeps_place};
ghost use Rattle.attribute.specs.Parts.{row_spec};

use super::parse::keeps_place;
use super::source::Source;
use abbrev::lookup::{Abbreviation, AttributeSpecification};
use reader::error::Error;
use std::marker::Model;

// Bytes of a unit that keep document 01's sizes.
#[derive(Drop)]
pub(crate) struct Part<'a> {
    pub(crate) bytes: &'a [u8],
    pub(crate) source: Source,
}

impl<'a> Model for Part<'a> {
    ghost use Rattle.attribute.specs.Parts.{Sourced};

    ghost Value = { Sourced };

    ghost use Rattle.std.specs.Prelude.{◌+◌, ◌^◌, ◌<◌, length};

    ghost view = { λ p. record { bytes = p.bytes.now; start = p.source.start; encoding = p.source.encoding; endian = p.source.endian } };

    ghost invariant = { λ p. p.source.start + length p.bytes.now < 2 ^ 63 };
}

// The specifications of an abbreviation: at most 64, names and forms of 16 bits.
#[derive(Drop)]
pub(crate) struct Listed<'a> {
    pub(crate) rows: &'a [[u64; 3]],
}

impl<'a> Model for Listed<'a> {
    ghost use Rattle.std.specs.Prelude.{List};
    ghost use Rattle.abbrev.specs.Table.{Specification};

    ghost Value = { List Specification };

    ghost use Rattle.std.specs.Prelude.{true, ◌≡◌, ◌≤◌, length, map};
    ghost use Rattle.abbrev.specs.Lookup.{all_fair};
    ghost use Rattle.abbrev.specs.Table.{entry_limit};
    ghost use Rattle.attribute.specs.Parts.{row_spec};

    ghost view = { λ l. map row_spec l.rows.now };

    ghost invariant = { λ l. (length l.rows.now ≤ entry_limit.most) × (all_fair (map row_spec l.rows.now) ≡ true) };
}

impl<'a> Part<'a> {
    // With a position in it.
    pub(crate) fn new(bytes: &'a [u8], at: usize, source: Source) -> Result<Part<'a>, Error>
        ensures { view result ≡ cond (keeps_place (length bytes.now) source.start at) (got (record { bytes = bytes.now; start = source.start; encoding = source.encoding; endian = source.endian })) (refused 1) }
    {
        if keeps_place(bytes.len(), source.start, at) {
            return Ok(Part { bytes, source });
        }
        Err(Error::SizeLimit)
    }
}

impl<'a> Listed<'a> {
    pub(crate) fn new(abbreviation: Abbreviation, specs: &'a [u64]) -> Result<Listed<'a>, Error>
        ensures { view result ≡ cond (keeps_sizes entry_limit.most specs.now (found_of abbreviation)) (got (declaration_of specs.now (found_of abbreviation)).specifications) (refused 1) }
    {
        if !abbreviation.keeps_sizes(specs) {
            return Err(Error::SizeLimit);
        }
        let (rows, _) = specs.as_chunks();
        Ok(Listed {
            rows: &rows[abbreviation.first..abbreviation.first + abbreviation.count],
        })
    }
}

// Both, or their refusal.
pub(crate) fn judged<'a>(
    bytes: &'a [u8],
    at: usize,
    source: Source,
    abbreviation: Abbreviation,
    specs: &'a [u64],
) -> Result<(Part<'a>, Listed<'a>), Error>
    ensures { view result ≡ cond (keeps_place (length bytes.now) source.start at && keeps_sizes entry_limit.most specs.now (found_of abbreviation)) (got (record { bytes = bytes.now; start = source.start; encoding = source.encoding; endian = source.endian }, (declaration_of specs.now (found_of abbreviation)).specifications)) (refused 1) }
{
    let part = Part::new(bytes, at, source)?;
    let listed = Listed::new(abbreviation, specs)?;
    Ok((part, listed))
}

// A specification by its row.
pub(crate) fn specification(row: &[u64; 3]) -> AttributeSpecification
    requires { fair (row_spec row.now) ≡ true }
    ensures { specification_of result ≡ row_spec row.now }
{
    let [name, form, constant] = *row;
    AttributeSpecification {
        name: name as u16,
        form: form as u16,
        constant,
    }
}
