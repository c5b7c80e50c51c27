// The raw reader's calls, one after another.

ghost use Rattle.std.specs.Prelude.{◌≡◌, ◌≤◌, length};
ghost use Rattle.reader.specs.Views.{view};
ghost use Rattle.abbrev.specs.Table.{entry_limit};
ghost use Rattle.entries.specs.Raw.{opened, raw_entry};
ghost use Rattle.entries.specs.Views.{view_raw_entry};
ghost use Rattle.capi.specs.Calls.{read_step, stepped_words, skip_step, raw_call, raw_calls};
ghost use Rattle.capi.specs.Views.{view_passed};
ghost use Rattle.capi.specs.Stored.{Stored, StepAs};
ghost use Rattle.capi.specs.Words.{Gives, encoding_of, endian_of};

use super::cursor::put_state;
use super::out::{Words, refuse, source_of};
use abbrev::abbreviations::Abbreviations;
use abbrev::lookup::Abbreviation;
use attribute::source::Source;
use entries::raw::{EntriesRaw, RawEntry};
use lent::held::{read_abbreviation, read_entry, skip_attributes};
use reader::error::Error;

// read_abbreviation and skip_attributes, on a lent state: the abbreviation, none for a null, and the state behind
// the values. There is no second way that makes them by value. In line, as `pass` is: called for both ways of an entry,
// it would have the state in memory.
#[tactic(auto, unfolding(lent::specs::Calls::skipped_call))]
#[inline(always)]
fn skip(
    raw: EntriesRaw,
    bytes: &[u8],
    abbreviations: &Abbreviations<'_>,
) -> Result<(Option<Abbreviation>, EntriesRaw), Error>
    ensures { view_passed raw result ≡ skip_step entry_limit.most bytes.now abbreviations.now.rows abbreviations.now.specs raw }
{
    let read = read_abbreviation(raw, bytes, abbreviations);
    let Some(found) = read.answer? else {
        return Ok((None, read.raw));
    };
    let skipped = skip_attributes(read.raw, bytes, found, abbreviations.specs());
    skipped.answer?;
    Ok((Some(found), skipped.raw))
}

// In line, since a call copies the entry.
#[inline(always)]
fn put_read(words: &mut Words<'_>, read: RawEntry)
    ensures { Stored words.old words.new (stepped_words (read_step (view_raw_entry read))) }
{
    put_state(words, read.answer, read.raw);
    if !words.is_full() {
        words.put_entry(read.entry);
    }
}

// read_entry, by value or on a lent state: the state after it. What an entry needs is not set up where values are
// skipped. With a trait for both ways the entry is copied once more.
// Kept (5): the state of a call, what it reads and where its words go. A struct of the four would be taken apart again in
// each of the functions that take them.
fn read<const LENT: bool>(
    raw: EntriesRaw,
    bytes: &[u8],
    abbreviations: &Abbreviations<'_>,
    words: &mut Words<'_>,
) -> EntriesRaw
    ensures { StepAs (read_step (raw_entry entry_limit.most raw bytes.now abbreviations.now.rows abbreviations.now.specs)) words.old words.new result }
{
    let read = if LENT {
        read_entry(raw, bytes, abbreviations)
    } else {
        raw.read_entry(bytes, abbreviations)
    };
    put_read(words, read);
    read.raw
}

// What a call passed: tag, children and count of an entry, zeros where there was none.
fn put_passed(
    words: &mut Words<'_>,
    answer: Result<bool, Error>,
    raw: EntriesRaw,
    passed: &[u64],
) -> EntriesRaw
    ensures { StepAs (record { answer = view answer; raw = raw; words = passed.now }) words.old words.new result }
{
    put_state(words, answer, raw);
    words.put(passed);
    raw
}

// `skip`: the state after it.
#[inline(always)]
fn pass(
    raw: EntriesRaw,
    bytes: &[u8],
    abbreviations: &Abbreviations<'_>,
    words: &mut Words<'_>,
) -> EntriesRaw
    ensures { StepAs (skip_step entry_limit.most bytes.now abbreviations.now.rows abbreviations.now.specs raw) words.old words.new result }
{
    match skip(raw, bytes, abbreviations) {
        Ok((Some(found), after)) => put_passed(
            words,
            Ok(true),
            after,
            &[
                u64::from(found.tag),
                u64::from(found.has_children),
                found.count as u64,
            ],
        ),
        Ok((None, after)) => put_passed(words, Ok(false), after, &[0, 0, 0]),
        Err(e) => put_passed(words, Err(e), raw, &[0, 0, 0]),
    }
}

// The calls, of which a caller names one by a byte.
#[derive(Clone, Copy, Debug, PartialEq, Eq)]
enum RawCall {
    // read_entry
    Entry,
    // read_abbreviation and skip_attributes
    Passed,
}

impl From<u8> for RawCall {
    ghost use Rattle.capi.specs.Kinds.{raw_call_of};

    ghost from_gives = { λ op call. call ≡ raw_call_of op };

    fn from(op: u8) -> RawCall {
        match op {
            0 => RawCall::Entry,
            _ => RawCall::Passed,
        }
    }
}

fn call<const LENT: bool>(
    raw: EntriesRaw,
    op: u8,
    bytes: &[u8],
    abbreviations: &Abbreviations<'_>,
    words: &mut Words<'_>,
) -> EntriesRaw
    ensures { StepAs (raw_call entry_limit.most bytes.now abbreviations.now.rows abbreviations.now.specs op raw) words.old words.new result }
{
    match RawCall::from(op) {
        RawCall::Entry => read::<LENT>(raw, bytes, abbreviations, words),
        RawCall::Passed => pass(raw, bytes, abbreviations, words),
    }
}

#[tactic(auto, unfolding(crate::specs::Calls::raw_calls))]
fn run<const LENT: bool>(
    raw: EntriesRaw,
    bytes: &[u8],
    abbreviations: &Abbreviations<'_>,
    calls: &[u8],
    words: &mut Words<'_>,
)
    ensures { Stored words.old words.new (raw_calls entry_limit.most bytes.now abbreviations.now.rows abbreviations.now.specs calls.now raw) }
{
    let mut held = raw;
    for op in calls {
        held = call::<LENT>(held, *op, bytes, abbreviations, words);
    }
}

// Opens a reader and makes the calls.
fn open_and_run<const LENT: bool>(
    bytes: &[u8],
    source: Source,
    abbreviations: &Abbreviations<'_>,
    calls: &[u8],
    out: &mut [u64],
) -> u64
    ensures { Gives (raw_calls entry_limit.most bytes.now abbreviations.now.rows abbreviations.now.specs calls.now) (opened (length bytes.now) source.start source.encoding source.endian) out.old out.new result }
{
    match EntriesRaw::new(bytes, source) {
        Ok(raw) => {
            let mut words = Words::new(out);
            run::<LENT>(raw, bytes, abbreviations, calls, &mut words);
            words.finish()
        }
        Err(e) => refuse(out, e),
    }
}

// A raw reader over a part of a unit that starts at the offset `start`, and calls on it: 0 is read_entry,
// any other number read_abbreviation and skip_attributes. Words for each call: status, 1 for an entry,
// position and depth of the next item; then the entry or null that was read, or tag, children and
// count of the entry that was passed. A refusal keeps the state that the call was given.
// Kept (2): the C interface has a function for each way to read an entry.
pub fn tehkumir_raw(
    bytes: &[u8],
    start: usize,
    version: u16,
    is_64: bool,
    width: u8,
    is_big: bool,
    rows: &[u64],
    specs: &[u64],
    calls: &[u8],
    out: &mut [u64],
) -> u64
    ensures { Gives (raw_calls entry_limit.most bytes.now rows.now specs.now calls.now) (opened (length bytes.now) start (encoding_of version is_64 width) (endian_of is_big)) out.old out.new result }
{
    let source = source_of(start, version, is_64, width, is_big);
    open_and_run::<false>(bytes, source, &Abbreviations::new(rows, specs), calls, out)
}

// The same with every call on a state that is lent and moved in place: the same words.
// Kept (2): as `tehkumir_raw`.
pub fn tehkumir_raw_lent(
    bytes: &[u8],
    start: usize,
    version: u16,
    is_64: bool,
    width: u8,
    is_big: bool,
    rows: &[u64],
    specs: &[u64],
    calls: &[u8],
    out: &mut [u64],
) -> u64
    ensures { Gives (raw_calls entry_limit.most bytes.now rows.now specs.now calls.now) (opened (length bytes.now) start (encoding_of version is_64 width) (endian_of is_big)) out.old out.new result }
{
    let source = source_of(start, version, is_64, width, is_big);
    open_and_run::<true>(bytes, source, &Abbreviations::new(rows, specs), calls, out)
}
