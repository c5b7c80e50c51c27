// A page of the shelf sheet.

ghost use Rattle.abbrev.specs.Table.{entry_limit};
ghost use Rattle.sheet.specs.Sheet.{shown};
ghost use Rattle.capi.specs.Pages.{sheet_in, Shows};
ghost use Rattle.capi.specs.Words.{endian_of};

use super::out::{endian_of, status_of};
use super::units::unit_in;
use abbrev::abbreviations::Abbreviations;
use sheet::page::{refuse_page, sheet};

// Page `n` of the unit at `unit` of .debug_info, with the unit's table in the rows: 60 lines of 33 bytes,
// items 60 n to 60 n + 59 of the unit, counted from 0. A refusal anywhere in the unit leaves a blank page; 23
// comes first, for fewer than 1,980 bytes, and stores nothing. Bytes past the page stay.
#[tactic(auto, unfolding(crate::specs::Pages::sheet_in, crate::specs::Units::unit_in))]
pub fn tehkumir_sheet(
    section: &[u8],
    unit: u64,
    is_big: bool,
    rows: &[u64],
    specs: &[u64],
    n: u64,
    page: &mut [u8],
) -> u64
    ensures { Shows (shown n (sheet_in entry_limit.most section.now unit (endian_of is_big) rows.now specs.now) page.old) page.new result }
{
    let endian = endian_of(is_big);
    let abbreviations = Abbreviations::new(rows, specs);
    match unit_in(section, unit, endian) {
        Ok((header, bytes)) => status_of(sheet(header, bytes, &abbreviations, endian, n, page)),
        Err(e) => status_of(refuse_page(page, e)),
    }
}
