// The cursor's calls, one after another.

ghost use Rattle.std.specs.Prelude.{[], ◌∷◌, ◌++◌, ◌≡◌, ◌≤◌, length};
ghost use Rattle.abbrev.specs.Table.{entry_limit};
ghost use Rattle.entries.specs.Cursor.{opened_cursor};
ghost use Rattle.reader.specs.Views.{view};
ghost use Rattle.entries.specs.Views.{view_cursor, view_cursor_next};
ghost use Rattle.capi.specs.Calls.{answer_words, raw_words, called_words, cursor_call, cursor_calls};
ghost use Rattle.capi.specs.Stored.{Stored};
ghost use Rattle.capi.specs.Words.{Gives, encoding_of, endian_of};

use super::out::{Words, refuse, source_of, status_of};
use abbrev::abbreviations::Abbreviations;
use entries::cursor::{CursorNext, EntriesCursor};
use entries::raw::EntriesRaw;
use reader::error::Error;
use reader::twos::to_word;

// C gets what a call says as two words: the status, and 1 where something was reached.
pub(crate) fn answer_words(answer: Result<bool, Error>) -> (u64, u64)
    ensures { answer_words (view answer) ≡ result.0 ∷ result.1 ∷ [] }
{
    (status_of(answer), u64::from(answer.unwrap_or(false)))
}

// What a call says, and position and depth of the next item.
pub(crate) fn put_state(words: &mut Words<'_>, answer: Result<bool, Error>, raw: EntriesRaw)
    ensures { Stored words.old words.new (answer_words (view answer) ++ raw_words raw) }
{
    let (status, reached) = answer_words(answer);
    words.put(&[status, reached, raw.position as u64, to_word(raw.depth)]);
}

// The calls, of which a caller names one by a byte.
#[derive(Clone, Copy, Debug, PartialEq, Eq)]
enum CursorCall {
    // next_entry
    Entry,
    // next_dfs
    Dfs,
    // next_sibling
    Sibling,
}

// Kept (1, 2): the numbers are C's, and here they become an enum; `lent` has one of other calls.
impl From<u8> for CursorCall {
    ghost use Rattle.capi.specs.Kinds.{cursor_call_of};

    ghost from_gives = { λ op call. call ≡ cursor_call_of op };

    fn from(op: u8) -> CursorCall {
        match op {
            0 => CursorCall::Entry,
            1 => CursorCall::Dfs,
            _ => CursorCall::Sibling,
        }
    }
}

fn call(
    cursor: EntriesCursor,
    op: u8,
    bytes: &[u8],
    abbreviations: &Abbreviations<'_>,
) -> CursorNext
    ensures { view_cursor_next result ≡ cursor_call entry_limit.most bytes.now abbreviations.now.rows abbreviations.now.specs op (view_cursor cursor) }
{
    match CursorCall::from(op) {
        CursorCall::Entry => cursor.next_entry(bytes, abbreviations),
        CursorCall::Dfs => cursor.next_dfs(bytes, abbreviations),
        CursorCall::Sibling => cursor.next_sibling(bytes, abbreviations),
    }
}

fn put_called(words: &mut Words<'_>, called: CursorNext)
    ensures { Stored words.old words.new (called_words (view_cursor_next called)) }
{
    put_state(words, called.answer, called.cursor.input);
    if !words.is_full() {
        words.put_entry(called.cursor.entry);
    }
}

// Kept (5): bytes and table stay while the calls are made; a struct of them and the calls would be made once for
// each exported function and taken apart here.
#[tactic(auto, unfolding(crate::specs::Calls::cursor_calls))]
fn run(
    cursor: EntriesCursor,
    bytes: &[u8],
    abbreviations: &Abbreviations<'_>,
    calls: &[u8],
    words: &mut Words<'_>,
)
    ensures { Stored words.old words.new (cursor_calls entry_limit.most bytes.now abbreviations.now.rows abbreviations.now.specs calls.now (view_cursor cursor)) }
{
    let mut held = cursor;
    for op in calls {
        let called = call(held, *op, bytes, abbreviations);
        put_called(words, called);
        held = called.cursor;
    }
}

// A cursor over a part of a unit that starts at the offset `start`, and calls on it: 0 is next_entry,
// 1 next_dfs, any other number next_sibling. Words for each call: status, 1 where something was reached,
// position and depth of the next item, then the entry or null that is held.
pub fn tehkumir_cursor(
    bytes: &[u8],
    start: usize,
    version: u16,
    is_64: bool,
    width: u8,
    is_big: bool,
    rows: &[u64],
    specs: &[u64],
    calls: &[u8],
    out: &mut [u64],
) -> u64
    ensures { Gives (cursor_calls entry_limit.most bytes.now rows.now specs.now calls.now) (opened_cursor entry_limit.most (length bytes.now) start (encoding_of version is_64 width) (endian_of is_big)) out.old out.new result }
{
    let source = source_of(start, version, is_64, width, is_big);
    match EntriesCursor::new(bytes, source) {
        Ok(cursor) => {
            let abbreviations = Abbreviations::new(rows, specs);
            let mut words = Words::new(out);
            run(cursor, bytes, &abbreviations, calls, &mut words);
            words.finish()
        }
        Err(e) => refuse(out, e),
    }
}
