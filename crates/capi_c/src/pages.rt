// A page of the shelf sheet.

ghost use Rattle.abbrev.specs.Table.{entry_limit};
ghost use Rattle.sheet.specs.Sheet.{shown};
ghost use Rattle.capi.specs.Pages.{sheet_in, Shows};
ghost use Rattle.capi.specs.Words.{endian_of};

// Page `n` of the unit at `unit` of .debug_info, with the unit's table in the rows: 60 lines of 33 bytes,
// items 60 n to 60 n + 59 of the unit, counted from 0. A refusal anywhere in the unit leaves a blank page; 23
// comes first, for fewer than 1,980 bytes, and stores nothing. Bytes past the page stay.
#[unsafe(no_mangle)]
pub extern "C" fn tehkumir_sheet(
    section: &[u8],
    unit: u64,
    is_big: bool,
    rows: &[u64],
    specs: &[u64],
    n: u64,
    page: &mut [u8],
) -> u64
    ensures { Shows (shown n (sheet_in entry_limit.most section.now unit (endian_of is_big) rows.now specs.now) page.old) page.new result }
{
    capi::pages::tehkumir_sheet(section, unit, is_big, rows, specs, n, page)
}
