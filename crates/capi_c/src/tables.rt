// Abbreviation tables in lent rows.

ghost use Rattle.abbrev.specs.Lookup.{lookup};
ghost use Rattle.abbrev.specs.Table.{entry_limit};
ghost use Rattle.capi.specs.Tables.{TabledAs};
ghost use Rattle.capi.specs.Words.{Gives, if_there, found_words};

// The table at an offset of .debug_abbrev into the rows, which are zero after a refusal. Words: how
// many abbreviations it has.
#[unsafe(no_mangle)]
pub extern "C" fn tehkumir_abbreviations(
    section: &[u8],
    offset: u64,
    rows: &mut [u64],
    specs: &mut [u64],
    out: &mut [u64],
) -> u64
    ensures { TabledAs section.now offset rows.old specs.old rows.new specs.new out.old out.new result }
{
    capi::tables::tehkumir_abbreviations(section, offset, rows, specs, out)
}

// A code in the rows. Words: 1 and code, tag, children, first specification row and count; or 0.
#[unsafe(no_mangle)]
pub extern "C" fn tehkumir_get(rows: &[u64], specs: &[u64], code: u64, out: &mut [u64]) -> u64
    ensures { Gives (if_there found_words) (lookup entry_limit.most rows.now specs.now code) out.old out.new result }
{
    capi::tables::tehkumir_get(rows, specs, code, out)
}
