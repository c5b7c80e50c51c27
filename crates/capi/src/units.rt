// Unit headers, the lists of units, an entry by its offset, and a type by its signature.

ghost use Rattle.reader.specs.Views.{view};
ghost use Rattle.abbrev.specs.Table.{entry_limit};
ghost use Rattle.unit.specs.Header.{type_number};
ghost use Rattle.unit.specs.Parse.{debug_info, debug_types, section_of, header_at};
ghost use Rattle.unit.specs.Units.{next_unit};
ghost use Rattle.capi.specs.Words.{Says, Gives, status_of, endian_of, type_words, header_words, entry_words, advanced_words, read_header_words};
ghost use Rattle.capi.specs.Stored.{Stored};
ghost use Rattle.capi.specs.Units.{unit_in, HandedUnit, entry_in, type_unit_words, TypeReadAs};
ghost use Rattle.std.specs.Prelude.{◌≡◌, ◌∷◌};

use super::out::{Words, endian_of, give, refuse};
use abbrev::abbreviations::Abbreviations;
use abbrev::lent::LentRows;
use entries::open::entry;
use reader::endianity::RunTimeEndian;
use reader::error::Error;
use typeunit::types::type_entry;
use unit::header::{UnitHeader, UnitType};
use unit::parse::SectionId;
use unit::units::UnitHeadersIter;

// The number of a unit's type and what only that type has.
fn put_type(words: &mut Words<'_>, unit_type: UnitType)
    ensures { Stored words.old words.new (type_number unit_type ∷ type_words unit_type) }
{
    match unit_type {
        UnitType::Compilation => words.put(&[1]),
        UnitType::Type(signature, offset) => words.put(&[2, signature, offset]),
        UnitType::Partial => words.put(&[3]),
        UnitType::Skeleton(id) => words.put(&[4, id]),
        UnitType::SplitCompilation(id) => words.put(&[5, id]),
        UnitType::SplitType(signature, offset) => words.put(&[6, signature, offset]),
    }
}

fn put_header(words: &mut Words<'_>, header: UnitHeader)
    ensures { Stored words.old words.new (header_words header) }
{
    words.put(&[
        header.offset as u64,
        header.unit_length,
        u64::from(header.encoding.version),
        u64::from(header.encoding.format.word_size()),
        u64::from(header.encoding.address_size),
        header.debug_abbrev_offset,
        header.size_of_header() as u64,
    ]);
    put_type(words, header.unit_type);
}

// The header at an offset of .debug_info. Words: its fields, as `header_words` lists them.
pub fn tehkumir_unit_header(section: &[u8], offset: u64, is_big: bool, out: &mut [u64]) -> u64
    ensures { Gives read_header_words (header_at debug_info section.now offset (endian_of is_big)) out.old out.new result }
{
    match SectionId::DebugInfo.header_from_offset(section, offset, endian_of(is_big)) {
        Ok((header, _)) => {
            let mut words = Words::new(out);
            put_header(&mut words, header);
            words.finish()
        }
        Err(e) => refuse(out, e),
    }
}

// The list of units of a section. Words: where it goes on, then 1 and the header, or 0 after the last.
fn next_unit(
    id: SectionId,
    section: &[u8],
    at: usize,
    endian: RunTimeEndian,
    out: &mut [u64],
) -> u64
    ensures { Says (status_of (next_unit (section_of id) section.now at endian).answer) (advanced_words (next_unit (section_of id) section.now at endian)) out.old out.new result }
{
    let next = UnitHeadersIter { id, offset: at }.next(section, endian);
    let offset = next.units.offset as u64;
    match next.unit {
        Ok(Some(header)) => {
            let mut words = Words::new(out);
            words.put(&[offset, 1]);
            put_header(&mut words, header);
            words.finish()
        }
        Ok(None) => give(out, &[offset, 0]),
        Err(e) => {
            give(out, &[offset]);
            e.number()
        }
    }
}

// The list of units of .debug_info at one of its offsets, 0 at first. Words: where it goes on, then 1
// and the header, or 0 after the last.
// Kept (2): the C interface has a function for each section.
pub fn tehkumir_next_unit(section: &[u8], at: usize, is_big: bool, out: &mut [u64]) -> u64
    ensures { Says (status_of (next_unit debug_info section.now at (endian_of is_big)).answer) (advanced_words (next_unit debug_info section.now at (endian_of is_big))) out.old out.new result }
{
    next_unit(SectionId::DebugInfo, section, at, endian_of(is_big), out)
}

// The same list of .debug_types.
// Kept (2): as `tehkumir_next_unit`.
pub fn tehkumir_types_next_unit(section: &[u8], at: usize, is_big: bool, out: &mut [u64]) -> u64
    ensures { Says (status_of (next_unit debug_types section.now at (endian_of is_big)).answer) (advanced_words (next_unit debug_types section.now at (endian_of is_big))) out.old out.new result }
{
    next_unit(SectionId::DebugTypes, section, at, endian_of(is_big), out)
}

// The header of the unit at `unit` of .debug_info, and the unit's bytes.
#[tactic(auto, unfolding(crate::specs::Units::unit_in))]
pub(crate) fn unit_in(
    section: &[u8],
    unit: u64,
    endian: RunTimeEndian,
) -> Result<(UnitHeader, &[u8]), Error>
    ensures { HandedUnit (unit_in section.now unit endian) result }
{
    let (header, _) = SectionId::DebugInfo.header_from_offset(section, unit, endian)?;
    let bytes = header.bytes(section)?;
    Ok((header, bytes))
}

// The entry at an offset of the unit at `unit` of .debug_info, with the unit's table in the rows.
// Words: the entry.
#[tactic(auto, unfolding(crate::specs::Units::entry_in, crate::specs::Units::unit_in))]
pub fn tehkumir_entry(
    section: &[u8],
    unit: u64,
    offset: usize,
    is_big: bool,
    rows: &[u64],
    specs: &[u64],
    out: &mut [u64],
) -> u64
    ensures { Gives entry_words (entry_in entry_limit.most section.now unit offset (endian_of is_big) rows.now specs.now) out.old out.new result }
{
    let endian = endian_of(is_big);
    let read = unit_in(section, unit, endian).and_then(|(header, bytes)| {
        let abbreviations = Abbreviations::new(rows, specs);
        entry(header, bytes, &abbreviations, offset, endian)
    });
    match read {
        Ok(entry) => {
            let mut words = Words::new(out);
            words.put_entry(entry);
            words.finish()
        }
        Err(e) => refuse(out, e),
    }
}

// The first unit of .debug_types that carries the signature, and its type entry. The unit's table is
// left in the rows, which are zero where none was read. Words: the header, which has 10, and the entry.
pub fn tehkumir_type_entry(
    types: &[u8],
    abbrevs: &[u8],
    signature: u64,
    is_big: bool,
    rows: &mut [u64],
    specs: &mut [u64],
    out: &mut [u64],
) -> u64
    ensures { TypeReadAs abbrevs.now types.now signature (endian_of is_big) rows.old specs.old rows.new specs.new out.old out.new result }
{
    let mut lent = LentRows { rows, specs };
    match type_entry(types, signature, abbrevs, endian_of(is_big), &mut lent) {
        Ok((header, entry)) => {
            let mut words = Words::new(out);
            put_header(&mut words, header);
            words.put_entry(entry);
            words.finish()
        }
        Err(e) => refuse(out, e),
    }
}
