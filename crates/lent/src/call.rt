// One call by its number, on a held state that is lent for each. The entries of all numbers agree but in
// their values, which 1 does not store.

ghost use Rattle.std.specs.Prelude.{map, ◌≡◌, ◌+◌, ◌^◌, ◌<◌};
ghost use Rattle.reader.specs.Errors.{number_of};
ghost use Rattle.abbrev.specs.Table.{entry_limit};
ghost use Rattle.abbrev.specs.Views.{found_of};
ghost use Rattle.attribute.specs.Views.{view_attribute};
ghost use Rattle.entries.specs.Raw.{entry_here, refused_entry, raw_attributes, raw_skip};
ghost use Rattle.entries.specs.Views.{view_entry, view_raw_attributes, view_raw_entry};
ghost use Rattle.lent.specs.Calls.{lent_call};
ghost use Rattle.lent.specs.Steps.{ended, unstored, ByCode};

use super::held::{read_abbreviation, read_attributes, read_entry, skip_attributes};
use abbrev::abbreviations::Abbreviations;
use abbrev::lookup::Abbreviation;
use attribute::value::Attribute;
use entries::entry::{Entry, null_at};
use entries::raw::{EntriesRaw, Moved, RawAttributes, RawEntry};
use reader::error::Error;

// The calls, of which a caller names one by a byte.
#[derive(Clone, Copy, Debug, PartialEq, Eq)]
enum CallKind {
    // read_entry
    Entry,
    // read_abbreviation and skip_attributes
    Skipped,
    // read_abbreviation and read_attributes, which say the same as read_entry
    Listed,
}

// Kept (1, 2): the number is the caller's, of any value, and becomes the enum here; `TryFrom` would refuse what `call` answers.
// `CursorCall` of capi has other calls: one enum for both would have to name them First, Second and Other.
impl From<u8> for CallKind {
    ghost use Rattle.lent.specs.Kinds.{kind_of};

    ghost from_gives = { λ op kind. kind ≡ kind_of op };

    fn from(op: u8) -> CallKind {
        match op {
            0 => CallKind::Entry,
            1 => CallKind::Skipped,
            _ => CallKind::Listed,
        }
    }
}

// The entry of a found row, where the state given stands.
fn entry_of(given: EntriesRaw, found: Abbreviation, attrs: [Attribute; 64]) -> Entry
    requires { given.start + given.position < 2 ^ 63 }
    ensures { view_entry result ≡ entry_here given (found_of found) (map view_attribute attrs) }
{
    let Abbreviation {
        tag,
        has_children,
        count,
        ..
    } = found;
    Entry {
        tag,
        has_children,
        offset: given.start + given.position,
        depth: given.depth,
        count,
        attrs,
    }
}

fn refuse(given: EntriesRaw, error: Error) -> RawEntry
    ensures { view_raw_entry result ≡ refused_entry entry_limit.most given (number_of error) }
{
    RawEntry {
        answer: Err(error),
        entry: null_at(0, 0),
        raw: given,
    }
}

// What is said after the values of a found row.
fn end(given: EntriesRaw, found: Abbreviation, values: RawAttributes) -> RawEntry
    requires { given.start + given.position < 2 ^ 63 }
    ensures { view_raw_entry result ≡ ended entry_limit.most given (found_of found) (view_raw_attributes values) }
{
    match values.answer {
        Ok(()) => RawEntry {
            answer: Ok(true),
            entry: entry_of(given, found, values.attrs),
            raw: values.raw,
        },
        Err(e) => refuse(given, e),
    }
}

// read_abbreviation, and behind a found row's code the values as `values` takes them. A refusal of either
// keeps the state given.
// Kept (5): Rattle wants `IsAlwaysCallable` of each function that calls a parameter; no bound and no type says it.
#[tactic(auto, using(crate::proofs::SkipLaws::turn_place))]
fn by_code<F: FnOnce(EntriesRaw, Abbreviation) -> RawAttributes>(
    raw: EntriesRaw,
    bytes: &[u8],
    abbreviations: &Abbreviations<'_>,
    values: F,
) -> RawEntry
    requires { F.IsAlwaysCallable values }
    ensures { ByCode entry_limit.most bytes.now abbreviations.now.rows abbreviations.now.specs raw (λ v d r. F.post values v d r) (view_raw_entry result) }
{
    let coded = read_abbreviation(raw, bytes, abbreviations);
    match coded.answer {
        Ok(Some(found)) => end(raw, found, values(coded.raw, found)),
        Ok(None) => RawEntry {
            answer: Ok(false),
            entry: null_at(raw.start + raw.position, raw.depth),
            raw: coded.raw,
        },
        Err(e) => refuse(raw, e),
    }
}

// 0 is read_entry, 1 read_abbreviation and skip_attributes, any other number read_abbreviation and
// read_attributes. An entry or null stands at its offset and depth. A refusal, of the values too, keeps
// the state given.
// Kept (5): 01 hands a state in and back by value, with the same bytes and table at each call. `Call { raw, op, bytes }.make(..)`
// for `call(raw, op, bytes, ..)` would be made anew for each call, since the state is another one.
pub fn call(raw: EntriesRaw, op: u8, bytes: &[u8], abbreviations: &Abbreviations<'_>) -> RawEntry
    ensures { view_raw_entry result ≡ lent_call entry_limit.most bytes.now abbreviations.now.rows abbreviations.now.specs op raw }
{
    let specs = abbreviations.specs();
    match CallKind::from(op) {
        CallKind::Entry => read_entry(raw, bytes, abbreviations),
        CallKind::Skipped => by_code(
            raw,
            bytes,
            abbreviations,
            |coded: EntriesRaw, found: Abbreviation| -> RawAttributes
                ensures { view_raw_attributes result ≡ unstored entry_limit.most (raw_skip entry_limit.most coded bytes.entry.now specs.entry.now (found_of found)) }
            {
                let Moved { answer, raw } = skip_attributes(coded, bytes, found, specs);
                let Entry { attrs, .. } = null_at(0, 0);
                RawAttributes { answer, attrs, raw }
            },
        ),
        CallKind::Listed => by_code(
            raw,
            bytes,
            abbreviations,
            |coded: EntriesRaw, found: Abbreviation| -> RawAttributes
                ensures { view_raw_attributes result ≡ raw_attributes entry_limit.most coded bytes.entry.now specs.entry.now (found_of found) }
            { read_attributes(coded, bytes, found, specs) },
        ),
    }
}
