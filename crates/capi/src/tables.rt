// Abbreviation tables in lent rows.

ghost use Rattle.abbrev.specs.Lookup.{lookup};
ghost use Rattle.abbrev.specs.Table.{entry_limit};
ghost use Rattle.capi.specs.Tables.{TabledAs};
ghost use Rattle.capi.specs.Words.{Gives, if_there, found_words};

use super::out::{give, refuse};
use abbrev::abbreviations::Abbreviations;
use abbrev::lent::LentRows;

// The table at an offset of .debug_abbrev into the rows, which are zero after a refusal. Words: how
// many abbreviations it has.
pub fn tehkumir_abbreviations(
    section: &[u8],
    offset: u64,
    rows: &mut [u64],
    specs: &mut [u64],
    out: &mut [u64],
) -> u64
    ensures { TabledAs section.now offset rows.old specs.old rows.new specs.new out.old out.new result }
{
    let mut lent = LentRows { rows, specs };
    match lent.read_table(section, offset) {
        Ok(count) => give(out, &[count as u64]),
        Err(e) => refuse(out, e),
    }
}

// A code in the rows. Words: 1 and code, tag, children, first specification row and count; or 0.
pub fn tehkumir_get(rows: &[u64], specs: &[u64], code: u64, out: &mut [u64]) -> u64
    ensures { Gives (if_there found_words) (lookup entry_limit.most rows.now specs.now code) out.old out.new result }
{
    match Abbreviations::new(rows, specs).get(code) {
        Ok(Some(found)) => give(
            out,
            &[
                1,
                found.code,
                u64::from(found.tag),
                u64::from(found.has_children),
                found.first as u64,
                found.count as u64,
            ],
        ),
        Ok(None) => give(out, &[0]),
        Err(e) => refuse(out, e),
    }
}
