// A state held by value and lent for one call. The contracts are those of the by-value calls, so a
// caller needs no proof about a borrow.

ghost use Rattle.std.specs.Prelude.{◌≡◌};
ghost use Rattle.abbrev.specs.Table.{entry_limit};
ghost use Rattle.abbrev.specs.Views.{found_of};
ghost use Rattle.entries.specs.Raw.{raw_abbreviation, raw_entry, raw_attributes, raw_skip};
ghost use Rattle.entries.specs.Views.{view_raw_abbreviation, view_raw_attributes, view_raw_entry, view_raw_skipped};

use abbrev::abbreviations::Abbreviations;
use abbrev::lookup::Abbreviation;
use entries::entry::{Entry, null_at};
use entries::raw::{EntriesRaw, RawAbbreviation, RawAttributes, RawEntry, RawSkipped};

// `read_entry` on a held state.
pub fn read_entry(raw: EntriesRaw, bytes: &[u8], abbreviations: &Abbreviations<'_>) -> RawEntry
    ensures { view_raw_entry result ≡ raw_entry entry_limit.most raw bytes.now abbreviations.now.rows abbreviations.now.specs }
{
    let mut held = raw;
    match super::raw::read_entry(&mut held, bytes, abbreviations) {
        Ok(entry) => RawEntry {
            answer: Ok(!entry.is_null()),
            entry,
            raw: held,
        },
        Err(e) => RawEntry {
            answer: Err(e),
            entry: null_at(0, 0),
            raw: held,
        },
    }
}

// `read_abbreviation` on a held state.
pub fn read_abbreviation(
    raw: EntriesRaw,
    bytes: &[u8],
    abbreviations: &Abbreviations<'_>,
) -> RawAbbreviation
    ensures { view_raw_abbreviation result ≡ raw_abbreviation entry_limit.most raw bytes.now abbreviations.now.rows abbreviations.now.specs }
{
    let mut held = raw;
    let answer = super::raw::read_abbreviation(&mut held, bytes, abbreviations);
    RawAbbreviation { answer, raw: held }
}

// `read_attributes` on a held state.
pub fn read_attributes(
    raw: EntriesRaw,
    bytes: &[u8],
    abbreviation: Abbreviation,
    specs: &[u64],
) -> RawAttributes
    ensures { view_raw_attributes result ≡ raw_attributes entry_limit.most raw bytes.now specs.now (found_of abbreviation) }
{
    let mut held = raw;
    match super::raw::read_attributes(&mut held, bytes, abbreviation, specs) {
        Ok(attrs) => RawAttributes {
            answer: Ok(()),
            attrs,
            raw: held,
        },
        Err(e) => {
            let Entry { attrs, .. } = null_at(0, 0);
            RawAttributes {
                answer: Err(e),
                attrs,
                raw: held,
            }
        }
    }
}

// `skip_attributes` on a held state. In line: a call costs a tenth of a skipped entry.
#[inline(always)]
pub fn skip_attributes(
    raw: EntriesRaw,
    bytes: &[u8],
    abbreviation: Abbreviation,
    specs: &[u64],
) -> RawSkipped
    ensures { view_raw_skipped result ≡ raw_skip entry_limit.most raw bytes.now specs.now (found_of abbreviation) }
{
    let mut held = raw;
    let answer = super::raw::skip_attributes(&mut held, bytes, abbreviation, specs);
    RawSkipped { answer, raw: held }
}
