// Readers opened by a unit's header. `unit` has the unit's own bytes; calls on a reader take the part
// that `range_from` hands on for the same offset, or `entries_buf` for the whole unit.
// Kept (5): sections, order and rows are lent at each call, and a header is a value without them (gimli's holds bytes and
// order): a struct of header, bytes and order, or of two sections and rows, would be made for one call and taken apart in it.

ghost use Rattle.std.specs.Prelude.{◌≡◌};
ghost use Rattle.abbrev.specs.Table.{entry_limit};
ghost use Rattle.entries.specs.Open.{raw_from, cursor_over, cursor_from, entry_from};
ghost use Rattle.reader.specs.Views.{view, view_by};
ghost use Rattle.entries.specs.Opened.{OpenedIn};
ghost use Rattle.entries.specs.Views.{view_cursor, view_entry};
ghost use Rattle.unit.specs.Header.{size_of_header};
ghost use Rattle.unit.specs.Parse.{debug_info, section_of};

use super::cursor::{EntriesCursor, before_first};
use super::entry::Entry;
use super::raw::{EntriesRaw, source_at};
use abbrev::abbreviations::Abbreviations;
use abbrev::lent::LentRows;
use reader::common::MAX_SECTION;
use reader::endianity::RunTimeEndian;
use reader::error::Error;
use unit::header::UnitHeader;
use unit::parse::{SectionId, parse_header};

// gimli's `entries_raw` from an offset on.
#[tactic(auto, unfolding(crate::specs::Open::raw_from))]
pub fn entries_raw(
    header: UnitHeader,
    unit: &[u8],
    offset: usize,
    endian: RunTimeEndian,
) -> Result<EntriesRaw, Error>
    ensures { view result ≡ raw_from header unit.now offset endian }
{
    let part = header.range_from(unit, offset)?;
    EntriesRaw::new(part, source_at(header, offset, endian))
}

// gimli's `entries_raw` from the root on.
pub fn root_entries_raw(
    header: UnitHeader,
    unit: &[u8],
    endian: RunTimeEndian,
) -> Result<EntriesRaw, Error>
    ensures { view result ≡ raw_from header unit.now (size_of_header header) endian }
{
    entries_raw(header, unit, header.root_offset(), endian)
}

// gimli's `entries`: a cursor over all entries.
#[tactic(auto, unfolding(crate::specs::Open::cursor_over))]
pub fn entries(
    header: UnitHeader,
    unit: &[u8],
    endian: RunTimeEndian,
) -> Result<EntriesCursor, Error>
    ensures { view_by view_cursor result ≡ cursor_over header unit.now entry_limit.most endian }
{
    let part = header.entries_buf(unit)?;
    EntriesCursor::new(part, source_at(header, header.root_offset(), endian))
}

// gimli's `entries_at_offset`.
#[tactic(auto, unfolding(crate::specs::Open::cursor_from, crate::specs::Open::raw_from, crate::specs::Cursor::opened_cursor))]
pub fn entries_at_offset(
    header: UnitHeader,
    unit: &[u8],
    offset: usize,
    endian: RunTimeEndian,
) -> Result<EntriesCursor, Error>
    ensures { view_by view_cursor result ≡ cursor_from header unit.now entry_limit.most offset endian }
{
    let input = entries_raw(header, unit, offset, endian)?;
    Ok(before_first(input))
}

// gimli's `entry`: the one that stands at an offset.
#[tactic(auto, unfolding(crate::specs::Open::entry_from, crate::specs::Open::first_entry))]
pub fn entry(
    header: UnitHeader,
    unit: &[u8],
    abbreviations: &Abbreviations<'_>,
    offset: usize,
    endian: RunTimeEndian,
) -> Result<Entry, Error>
    ensures { view_by view_entry result ≡ entry_from header unit.now entry_limit.most abbreviations.now.rows abbreviations.now.specs offset endian }
{
    let part = header.range_from(unit, offset)?;
    let raw = EntriesRaw::new(part, source_at(header, offset, endian))?;
    let read = raw.read_entry(part, abbreviations);
    if read.answer? {
        Ok(read.entry)
    } else {
        Err(Error::NoEntryAtGivenOffset)
    }
}

// The unit at an offset of a section, its header and a cursor before its first entry, with the table that
// its own header points to in the lent rows: they are zero after a refusal, so that no unit is read with
// another one's table. The header is read once both sections are known to be short enough; of its own
// section it asks that itself.
pub fn open_unit_in(
    id: SectionId,
    units: &[u8],
    offset: u64,
    abbrevs: &[u8],
    endian: RunTimeEndian,
    lent: &mut LentRows<'_>,
) -> Result<(UnitHeader, EntriesCursor), Error>
    ensures { OpenedIn (section_of id) abbrevs.now units.now offset endian lent.old lent.new result }
{
    if MAX_SECTION < abbrevs.len() {
        lent.wipe();
        return Err(Error::SizeLimit);
    }
    match parse_header(id, units, offset as usize, endian) {
        Ok((header, _)) => {
            header.abbreviations(abbrevs, lent)?;
            Ok((header, before_first(EntriesRaw::at_start(header, endian))))
        }
        Err(e) => {
            lent.wipe();
            Err(e)
        }
    }
}

// The unit at an offset of .debug_info.
pub fn open_unit(
    info: &[u8],
    offset: u64,
    abbrevs: &[u8],
    endian: RunTimeEndian,
    lent: &mut LentRows<'_>,
) -> Result<(UnitHeader, EntriesCursor), Error>
    ensures { OpenedIn debug_info abbrevs.now info.now offset endian lent.old lent.new result }
{
    open_unit_in(SectionId::DebugInfo, info, offset, abbrevs, endian, lent)
}
