// The tree: a cursor, and whether a root was read. The state goes in by value and comes back beside
// the answer; it holds the entry that was reached.

ghost use Rattle.std.specs.Prelude.{true, ◌&&◌, ◌≡◌, length};
ghost use Rattle.reader.specs.Answer.{got};
ghost use Rattle.reader.specs.Errors.{number_of};
ghost use Rattle.reader.specs.Views.{view, view_by};
ghost use Rattle.abbrev.specs.Table.{entry_limit};
ghost use Rattle.unit.specs.Header.{size_of_header};
ghost use Rattle.entries.specs.Cursor.{keeps_cursor, new_cursor};
ghost use Rattle.entries.specs.Open.{cursor_from};
ghost use Rattle.entries.specs.Read.{same_depth};
ghost use Rattle.entries.specs.Entry.{is_null};
ghost use Rattle.entries.specs.Views.{view_entry, view_cursor};
ghost use Rattle.tree.specs.Tree.{unrooted, new_tree, no_more, refuses, restarted, in_tree, child_of, level_of, root_of, next_of};
ghost use Rattle.tree.specs.Views.{view_tree, view_tree_next, view_level, level_for};

use abbrev::abbreviations::Abbreviations;
use entries::cursor::{CursorNext, EntriesCursor};
use entries::entry::{Entry, null_at};
use entries::open::entries_at_offset;
use entries::raw::EntriesRaw;
use reader::endianity::RunTimeEndian;
use reader::error::Error;
use unit::header::UnitHeader;

// Kept (1): a tree without a root has a cursor too, which 01 says ("a null with offset and depth 0"), and a caller may make any
// state. In `enum EntriesTree { New(EntriesCursor), Rooted(EntriesCursor) }` each read of the cursor would be two like arms.
#[derive(Clone, Copy)]
pub struct EntriesTree {
    pub rooted: bool,
    pub cursor: EntriesCursor,
}

// Whether an entry was reached, which the tree beside it holds.
// Kept (1): 01 wants answer and state side by side, and says what the state is after a refusal.
#[derive(Clone, Copy)]
pub struct TreeNext {
    pub answer: Result<bool, Error>,
    pub tree: EntriesTree,
}

// Where a level lies from what is held.
#[derive(Clone, Copy, Debug, PartialEq, Eq)]
pub enum Level {
    Deeper,
    AtOrAbove,
}

// gimli's `entries_tree` from an offset on. `unit` has the unit's own bytes.
pub fn entries_tree(
    header: UnitHeader,
    unit: &[u8],
    offset: usize,
    endian: RunTimeEndian,
) -> Result<EntriesTree, Error>
    ensures { view_by view_tree result ≡ new_tree (cursor_from header unit.now entry_limit.most offset endian) }
{
    let cursor = entries_at_offset(header, unit, offset, endian)?;
    Ok(EntriesTree {
        rooted: false,
        cursor,
    })
}

// gimli's `entries_tree` from the root on.
pub fn root_entries_tree(
    header: UnitHeader,
    unit: &[u8],
    endian: RunTimeEndian,
) -> Result<EntriesTree, Error>
    ensures { view_by view_tree result ≡ new_tree (cursor_from header unit.now entry_limit.most (size_of_header header) endian) }
{
    entries_tree(header, unit, header.root_offset(), endian)
}

// The state before the first entry.
fn restart(raw: EntriesRaw) -> EntriesRaw
    ensures { result ≡ restarted raw }
{
    EntriesRaw {
        position: 0,
        depth: 0,
        ..raw
    }
}

// A root is held.
fn found_root(raw: EntriesRaw, entry: Entry) -> TreeNext
    ensures { view_tree_next result ≡ record { answer = got true; tree = record { rooted = true; cursor = record { input = raw; entry = view_entry entry } } } }
{
    TreeNext {
        answer: Ok(true),
        tree: EntriesTree {
            rooted: true,
            cursor: EntriesCursor { input: raw, entry },
        },
    }
}

// A failed root leaves the tree as new.
fn fail_root(raw: EntriesRaw, error: Error) -> TreeNext
    ensures { view_tree_next result ≡ refuses (number_of error) (unrooted (new_cursor entry_limit.most raw)) }
{
    let tree = EntriesTree {
        rooted: false,
        cursor: EntriesCursor {
            input: raw,
            entry: null_at(0, 0),
        },
    };
    tree.refuse(error)
}

// The tree after a call on its cursor.
fn within(next: CursorNext) -> TreeNext
    ensures { view_tree_next result ≡ in_tree (record { answer = view next.answer; cursor = view_cursor next.cursor }) }
{
    TreeNext {
        answer: next.answer,
        tree: EntriesTree {
            rooted: true,
            cursor: next.cursor,
        },
    }
}

// Where a level lies from a depth.
fn place(level: i64, depth: i64) -> Option<Level>
    ensures { view_level result ≡ level_for level depth }
{
    if level < 1 {
        return None;
    }
    if level <= depth {
        return Some(Level::AtOrAbove);
    }
    if level - 1 <= depth {
        return Some(Level::Deeper);
    }
    None
}

impl EntriesTree {
    // Refused: the tree as it is given.
    fn refuse(self, error: Error) -> TreeNext
        ensures { view_tree_next result ≡ refuses (number_of error) (view_tree self) }
    {
        TreeNext {
            answer: Err(error),
            tree: self,
        }
    }

    // No entry is reached: the tree as it is given.
    fn stay(self) -> TreeNext
        ensures { view_tree_next result ≡ no_more (view_tree self) }
    {
        TreeNext {
            answer: Ok(false),
            tree: self,
        }
    }

    // One level deeper than what is held.
    #[tactic(auto, using(crate::proofs::LevelLaws::child_kept), unfolding(crate::specs::Tree::child_of))]
    fn child(self, bytes: &[u8], abbreviations: &Abbreviations<'_>) -> TreeNext
        requires { keeps_cursor entry_limit.most (length bytes.now) (view_tree self).cursor ≡ true }
        ensures { view_tree_next result ≡ child_of entry_limit.most bytes.now abbreviations.now.rows abbreviations.now.specs (view_tree self) }
    {
        if self.cursor.entry.has_children {
            return within(self.cursor.next_child(bytes, abbreviations));
        }
        self.stay()
    }

    // Whether what is held is the null that closed a level.
    fn closes(&self, depth: i64) -> bool
        ensures { result ≡ is_null (view_tree self.now).cursor.entry && same_depth (view_tree self.now).cursor.entry.depth depth }
    {
        self.cursor.entry.is_null() && self.cursor.entry.depth == depth
    }

    // A level at or above what is held.
    #[tactic(auto, unfolding(crate::specs::Tree::level_of))]
    fn next_at(self, bytes: &[u8], abbreviations: &Abbreviations<'_>, depth: i64) -> TreeNext
        requires { keeps_cursor entry_limit.most (length bytes.now) (view_tree self).cursor ≡ true }
        ensures { view_tree_next result ≡ level_of entry_limit.most bytes.now abbreviations.now.rows abbreviations.now.specs depth (view_tree self) }
    {
        if self.closes(depth) {
            return self.stay();
        }
        within(self.cursor.next_at_depth(bytes, abbreviations, depth))
    }

    // gimli's `root`.
    #[tactic(auto, unfolding(crate::specs::Tree::root_of))]
    pub fn root(self, bytes: &[u8], abbreviations: &Abbreviations<'_>) -> TreeNext
        ensures { view_tree_next result ≡ root_of entry_limit.most bytes.now abbreviations.now.rows abbreviations.now.specs (view_tree self) }
    {
        if !self.cursor.keeps_sizes(bytes.len()) {
            return self.refuse(Error::SizeLimit);
        }
        let start = restart(self.cursor.input);
        let read = start.read_entry(bytes, abbreviations);
        match read.answer {
            Ok(true) => found_root(read.raw, read.entry),
            Ok(false) => fail_root(start, Error::NoEntryAtGivenOffset),
            Err(e) => fail_root(start, e),
        }
    }

    // gimli's `next` by the number of a level: an entry, "no more", or a refusal.
    #[tactic(auto, unfolding(crate::specs::Tree::next_of))]
    pub fn next(self, bytes: &[u8], abbreviations: &Abbreviations<'_>, level: i64) -> TreeNext
        ensures { view_tree_next result ≡ next_of entry_limit.most bytes.now abbreviations.now.rows abbreviations.now.specs level (view_tree self) }
    {
        if !self.cursor.keeps_sizes(bytes.len()) {
            return self.refuse(Error::SizeLimit);
        }
        if !self.rooted {
            return self.refuse(Error::InvalidTreeLevel);
        }
        match place(level, self.cursor.entry.depth) {
            Some(Level::Deeper) => self.child(bytes, abbreviations),
            Some(Level::AtOrAbove) => self.next_at(bytes, abbreviations, level),
            None => self.refuse(Error::InvalidTreeLevel),
        }
    }
}
