// The unit of .debug_types that carries a signature, and its type entry.
// Kept (5): these are what C hands to the one call that it has. `Sought { types, signature, endian }.unit()` for
// `type_unit(types, signature, endian)` would be made for that call and taken apart in it.

ghost use Rattle.std.specs.Prelude.{◌≡◌};
ghost use Rattle.abbrev.specs.Table.{entry_limit};
ghost use Rattle.reader.specs.Views.{view, view_by};
ghost use Rattle.typeunit.specs.Search.{signature_of, carries, type_offset, unit_with, type_unit};
ghost use Rattle.typeunit.specs.Types.{with_entry};
ghost use Rattle.typeunit.specs.TypeRead.{TypeReadIn};
ghost use Rattle.typeunit.specs.Views.{view_signature, view_type};
ghost use Rattle.unit.specs.Parse.{debug_types};

use abbrev::abbreviations::Abbreviations;
use abbrev::lent::LentRows;
use entries::entry::Entry;
use entries::open::entry;
use reader::common::MAX_SECTION;
use reader::endianity::RunTimeEndian;
use reader::error::Error;
use unit::header::{UnitHeader, UnitType};
use unit::parse::{SectionId, Signature};

// Types 2 and 6 have a signature, and the offset of the type in the unit; a dwo_id is none.
// Kept (4): both types are of `unit`, so that `From` could only stand there, and None is an answer: it would read
// `Option::<Signature>::from(header.unit_type)`, to be asked by this crate alone.
fn signature_of(unit_type: UnitType) -> Option<Signature>
    ensures { view_signature result ≡ signature_of unit_type }
{
    match unit_type {
        UnitType::Type(signature, offset) | UnitType::SplitType(signature, offset) => {
            Some(Signature { signature, offset })
        }
        _ => None,
    }
}

#[tactic(auto, unfolding(crate::specs::Search::carries))]
fn carries(header: UnitHeader, signature: u64) -> bool
    ensures { result ≡ carries signature header }
{
    signature_of(header.unit_type).is_some_and(|own| own.signature == signature)
}

// 0 for a unit without a type.
#[tactic(auto, unfolding(crate::specs::Search::type_offset))]
fn type_offset(header: UnitHeader) -> usize
    ensures { result ≡ type_offset header }
{
    signature_of(header.unit_type).map_or(0, |own| own.offset as usize)
}

// The first unit of .debug_types that carries the signature. A header refused before it is the answer.
#[tactic(auto, using(crate::proofs::SearchLaws::search_steps), unfolding(crate::specs::Search::unit_with))]
pub fn type_unit(types: &[u8], signature: u64, endian: RunTimeEndian) -> Result<UnitHeader, Error>
    ensures { view result ≡ unit_with debug_types types.now signature endian }
{
    let mut list = SectionId::DebugTypes.units();
    loop {
        let next = list.next(types, endian);
        let header = next.unit?.ok_or(Error::MissingTypeUnit)?;
        if carries(header, signature) {
            return Ok(header);
        }
        list = next.units;
    }
}

// The unit whose type entry is read: the type's offset lies among its entries.
#[tactic(auto, unfolding(crate::specs::Search::type_unit, crate::specs::Search::bounded))]
fn bounded_unit(
    types: &[u8],
    signature: u64,
    abbrevs: &[u8],
    endian: RunTimeEndian,
) -> Result<UnitHeader, Error>
    ensures { view result ≡ type_unit debug_types abbrevs.now types.now signature endian }
{
    if MAX_SECTION < abbrevs.len() || MAX_SECTION < types.len() {
        return Err(Error::SizeLimit);
    }
    let header = type_unit(types, signature, endian)?;
    if !header.is_in_bounds(type_offset(header)) {
        return Err(Error::OffsetOutOfBounds);
    }
    Ok(header)
}

// The type entry of a unit, with the unit's table in the rows.
#[tactic(auto, unfolding(crate::specs::Types::with_entry))]
fn entry_of(
    header: UnitHeader,
    types: &[u8],
    abbreviations: &Abbreviations<'_>,
    endian: RunTimeEndian,
) -> Result<(UnitHeader, Entry), Error>
    ensures { view_by view_type result ≡ with_entry entry_limit.most types.now abbreviations.now.rows abbreviations.now.specs endian header }
{
    let unit = header.bytes(types)?;
    let read = entry(header, unit, abbreviations, type_offset(header), endian)?;
    Ok((header, read))
}

// The first unit of .debug_types that carries the signature, and its type entry, read raw at depth 0
// with the table that its own header points to. The rows are zero where no table was read, so that no
// unit is read with another one's table.
pub fn type_entry(
    types: &[u8],
    signature: u64,
    abbrevs: &[u8],
    endian: RunTimeEndian,
    lent: &mut LentRows<'_>,
) -> Result<(UnitHeader, Entry), Error>
    ensures { TypeReadIn abbrevs.now types.now endian (type_unit debug_types abbrevs.now types.now signature endian) lent.old lent.new result }
{
    match bounded_unit(types, signature, abbrevs, endian) {
        Ok(header) => {
            header.abbreviations(abbrevs, lent)?;
            entry_of(header, types, &lent.table(), endian)
        }
        Err(e) => {
            lent.wipe();
            Err(e)
        }
    }
}
