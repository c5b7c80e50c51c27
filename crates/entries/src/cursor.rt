// The cursor: a raw reader and the entry or null that it holds. The state goes in by value and comes
// back beside the answer.

ghost use Rattle.std.specs.Prelude.{true, false, ◌≡◌, length};
ghost use Rattle.reader.specs.Answer.{got, refused};
ghost use Rattle.reader.specs.Errors.{number_of};
ghost use Rattle.reader.specs.Views.{view, view_by};
ghost use Rattle.abbrev.specs.Table.{entry_limit};
ghost use Rattle.entries.specs.Cursor.{new_cursor, opened_cursor, no_cursor, keeps_cursor, current_of, judged_call, held, advanced, next_entry, next_child, next_dfs, next_at_depth, next_sibling};
ghost use Rattle.entries.specs.Entry.{null_entry};
ghost use Rattle.entries.specs.Raw.{offset_of};
ghost use Rattle.entries.specs.Steps.{KeptRaw, asked_as};
ghost use Rattle.entries.specs.Views.{view_cursor, view_current, view_cursor_next, view_entry};

use super::entry::{Entry, null_at};
use super::kept::Kept;
use super::pass::{Last, Passing};
use super::raw::{EntriesRaw, keeps_depth, start_of};
use abbrev::abbreviations::Abbreviations;
use abbrev::table::MAX_ATTRIBUTES;
use attribute::source::Source;
use reader::common::{Encoding, Format};
use reader::endianity::RunTimeEndian;
use reader::error::Error;

#[derive(Clone, Copy)]
pub struct EntriesCursor {
    pub input: EntriesRaw,
    pub entry: Entry,
}

// What is held: of a null too the offset and the depth are told.
#[derive(Clone, Copy)]
pub enum Current {
    Entry(Entry),
    Null(Entry),
}

// Whether something was reached, which the state beside it holds.
// Kept (1): 01 has a call hand its state back beside the answer, in a struct, and fixes it after a refusal too.
#[derive(Clone, Copy)]
pub struct CursorNext {
    pub answer: Result<bool, Error>,
    pub cursor: EntriesCursor,
}

// Refused before all reading: the state is kept.
fn refuse(cursor: EntriesCursor) -> CursorNext
    ensures { view_cursor_next result ≡ record { answer = refused 1; cursor = view_cursor cursor } }
{
    CursorNext {
        answer: Err(Error::SizeLimit),
        cursor,
    }
}

// No item is left: a null of the offset and depth last read is held.
fn at_end(raw: EntriesRaw, last: Last) -> CursorNext
    ensures { view_cursor_next result ≡ record { answer = got false; cursor = record { input = raw; entry = null_entry entry_limit.most last.offset last.depth } } }
{
    CursorNext {
        answer: Ok(false),
        cursor: EntriesCursor {
            input: raw,
            entry: null_at(last.offset, last.depth),
        },
    }
}

impl Kept<'_> {
    // After a refusal: at the end, with a null where the entry was refused.
    #[tactic(auto, unfolding(crate::specs::Cursor::held))]
    fn halt(self, abbreviations: &Abbreviations<'_>, error: Error) -> CursorNext
        ensures { view_cursor_next result ≡ held entry_limit.most self.entry.bytes.now abbreviations.now.rows abbreviations.now.specs self.entry.raw (refused (number_of error)) }
    {
        let Kept { bytes, raw } = self;
        CursorNext {
            answer: Err(error),
            cursor: EntriesCursor {
                input: EntriesRaw {
                    position: bytes.len(),
                    depth: self.depth_past(abbreviations),
                    ..raw
                },
                entry: null_at(raw.start + raw.position, raw.depth),
            },
        }
    }

    // The next item is held. A null that is read is the answer, or "no more". A refusal returns at once: where
    // arms meet, the entry is copied once more.
    #[tactic(auto, using(crate::proofs::CursorLaws::asked_none, crate::proofs::CursorLaws::held_asked, crate::proofs::CursorLaws::refused_asked), unfolding(crate::specs::Cursor::advanced))]
    fn advance(self, last: Last, nulls: bool, abbreviations: &Abbreviations<'_>) -> CursorNext
        ensures { view_cursor_next result ≡ asked_as «nulls» (advanced entry_limit.most self.entry.bytes.now abbreviations.now.rows abbreviations.now.specs self.entry.raw last.offset last.depth) }
    {
        let Kept { bytes, raw } = self;
        if raw.is_empty(bytes) {
            return at_end(raw, last);
        }
        let read = raw.read_entry(bytes, abbreviations);
        let is_entry = match read.answer {
            Ok(is_entry) => is_entry,
            Err(e) => return self.halt(abbreviations, e),
        };
        CursorNext {
            answer: Ok(is_entry || nulls),
            cursor: EntriesCursor {
                input: read.raw,
                entry: read.entry,
            },
        }
    }
}

// A cursor before its first entry.
pub(crate) fn before_first(input: EntriesRaw) -> EntriesCursor
    ensures { view_cursor result ≡ new_cursor entry_limit.most input }
{
    EntriesCursor {
        input,
        entry: null_at(0, 0),
    }
}

// A cursor that every call that reads refuses, whatever the bytes.
pub fn no_cursor(endian: RunTimeEndian) -> EntriesCursor
    ensures { view_cursor result ≡ no_cursor entry_limit.most endian }
{
    let encoding = Encoding {
        address_size: 0,
        format: Format::Dwarf32,
        version: 0,
    };
    let source = Source {
        start: 0x8000_0000_0000_0000,
        encoding,
        endian,
    };
    before_first(start_of(source))
}

impl EntriesCursor {
    // Over the bytes of a part, before its first entry.
    #[tactic(auto, unfolding(crate::specs::Cursor::opened_cursor))]
    pub fn new(bytes: &[u8], source: Source) -> Result<EntriesCursor, Error>
        ensures { view_by view_cursor result ≡ opened_cursor entry_limit.most (length bytes.now) source.start source.encoding source.endian }
    {
        let input = EntriesRaw::new(bytes, source)?;
        Ok(before_first(input))
    }

    // Whether a state that anybody may have made keeps document 01's sizes over so many bytes.
    pub fn keeps_sizes(self, count: usize) -> bool
        ensures { result ≡ keeps_cursor entry_limit.most count (view_cursor self) }
    {
        self.input.keeps_sizes(count)
            && keeps_depth(self.entry.depth, self.input.position)
            && self.entry.count <= MAX_ATTRIBUTES
    }

    fn last(&self) -> Last
        ensures { result ≡ record { offset = self.now.entry.offset; depth = self.now.entry.depth } }
    {
        Last {
            offset: self.entry.offset,
            depth: self.entry.depth,
        }
    }

    // gimli's `current`.
    // Kept (4): `Current::from(cursor)` would say no more, and gimli has it as a method of this name.
    #[tactic(auto, unfolding(crate::specs::Cursor::current_of))]
    pub fn current(self) -> Current
        ensures { view_current result ≡ current_of (view_cursor self) }
    {
        if self.entry.is_null() {
            return Current::Null(self.entry);
        }
        Current::Entry(self.entry)
    }

    // The offset of what is held.
    pub fn offset(self) -> usize
        ensures { result ≡ (view_cursor self).entry.offset }
    {
        self.entry.offset
    }

    pub fn depth(self) -> i64
        ensures { result ≡ (view_cursor self).entry.depth }
    {
        self.entry.depth
    }

    // Refused with 1 for a made-up state.
    pub fn next_offset(self) -> Result<usize, Error>
        ensures { view result ≡ offset_of self.input }
    {
        self.input.next_offset()
    }

    pub fn next_depth(self) -> i64
        ensures { result ≡ self.input.depth }
    {
        self.input.depth
    }

    // The next item; a null is an answer, or "no more".
    fn next_item(self, bytes: &[u8], abbreviations: &Abbreviations<'_>, nulls: bool) -> CursorNext
        ensures { view_cursor_next result ≡ judged_call (keeps_cursor entry_limit.most (length bytes.now) (view_cursor self)) (view_cursor self) (asked_as «nulls» (advanced entry_limit.most bytes.now abbreviations.now.rows abbreviations.now.specs self.input self.entry.offset self.entry.depth)) }
    {
        if !self.keeps_sizes(bytes.len()) {
            return refuse(self);
        }
        let kept = Kept {
            bytes,
            raw: self.input,
        };
        kept.advance(self.last(), nulls, abbreviations)
    }

    // gimli's `next_entry`: the next entry or null.
    // Kept (2): this and `next_child` are one call of `next_item` each; a flag of the caller would be no plainer than two names.
    #[tactic(auto, unfolding(crate::specs::Cursor::next_entry))]
    pub fn next_entry(self, bytes: &[u8], abbreviations: &Abbreviations<'_>) -> CursorNext
        ensures { view_cursor_next result ≡ next_entry entry_limit.most bytes.now abbreviations.now.rows abbreviations.now.specs (view_cursor self) }
    {
        self.next_item(bytes, abbreviations, true)
    }

    // The next entry; a null is "no more".
    // Kept (2): as `next_entry`.
    #[tactic(auto, unfolding(crate::specs::Cursor::next_child))]
    pub fn next_child(self, bytes: &[u8], abbreviations: &Abbreviations<'_>) -> CursorNext
        ensures { view_cursor_next result ≡ next_child entry_limit.most bytes.now abbreviations.now.rows abbreviations.now.specs (view_cursor self) }
    {
        self.next_item(bytes, abbreviations, false)
    }

    // gimli's `next_dfs`: the next entry that is no null.
    #[tactic(auto, unfolding(crate::specs::Cursor::next_dfs))]
    pub fn next_dfs(self, bytes: &[u8], abbreviations: &Abbreviations<'_>) -> CursorNext
        ensures { view_cursor_next result ≡ next_dfs entry_limit.most bytes.now abbreviations.now.rows abbreviations.now.specs (view_cursor self) }
    {
        if !self.keeps_sizes(bytes.len()) {
            return refuse(self);
        }
        let kept = Kept {
            bytes,
            raw: self.input,
        };
        let Passing { raw, last } = kept.pass_nulls(self.last());
        Kept { bytes, raw }.advance(last, false, abbreviations)
    }

    // On to the next entry or null at a depth, by the jumps of the entry held and of those passed.
    // Kept (5): the table to read by, and the depth that is asked for; a struct of both would be made for each call.
    #[tactic(auto, unfolding(crate::specs::Cursor::next_at_depth))]
    pub fn next_at_depth(
        self,
        bytes: &[u8],
        abbreviations: &Abbreviations<'_>,
        depth: i64,
    ) -> CursorNext
        ensures { view_cursor_next result ≡ next_at_depth entry_limit.most bytes.now abbreviations.now.rows abbreviations.now.specs depth (view_cursor self) }
    {
        if !self.keeps_sizes(bytes.len()) {
            return refuse(self);
        }
        let held = Kept {
            bytes,
            raw: self.input,
        };
        let from = Kept {
            bytes,
            raw: held.jump_from(self.entry),
        };
        let Passing { raw, last } = from.pass_to(self.last(), abbreviations, depth);
        Kept { bytes, raw }.advance(last, false, abbreviations)
    }

    // gimli's `next_sibling`.
    #[tactic(auto, unfolding(crate::specs::Cursor::next_sibling, crate::specs::Cursor::next_at_depth))]
    pub fn next_sibling(self, bytes: &[u8], abbreviations: &Abbreviations<'_>) -> CursorNext
        ensures { view_cursor_next result ≡ next_sibling entry_limit.most bytes.now abbreviations.now.rows abbreviations.now.specs (view_cursor self) }
    {
        if self.entry.is_null() && self.keeps_sizes(bytes.len()) {
            return CursorNext {
                answer: Ok(false),
                cursor: self,
            };
        }
        self.next_at_depth(bytes, abbreviations, self.entry.depth)
    }
}
