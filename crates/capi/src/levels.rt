// The tree's calls, one after another.

ghost use Rattle.std.specs.Prelude.{◌≡◌, ◌≤◌, length};
ghost use Rattle.abbrev.specs.Table.{entry_limit};
ghost use Rattle.tree.specs.Views.{view_tree, view_tree_next};
ghost use Rattle.capi.specs.Calls.{answered_words, tree_call, tree_calls, opened_tree};
ghost use Rattle.capi.specs.Stored.{Stored};
ghost use Rattle.capi.specs.Words.{Gives, encoding_of, endian_of};

use super::cursor::answer_words;
use super::out::{Words, refuse, source_of};
use abbrev::abbreviations::Abbreviations;
use entries::cursor::EntriesCursor;
use reader::twos::{from_word, to_word};
use tree::tree::{EntriesTree, TreeNext};

// One call: 0 is the root, any other number the level, in two's complement.
// Kept (1, 7): the numbers are C's. As an enum, Root and Next(level), it would be an Option that is made and taken apart
// in this one function.
fn call(tree: EntriesTree, level: u64, bytes: &[u8], abbreviations: &Abbreviations<'_>) -> TreeNext
    ensures { view_tree_next result ≡ tree_call entry_limit.most bytes.now abbreviations.now.rows abbreviations.now.specs level (view_tree tree) }
{
    if level == 0 {
        return tree.root(bytes, abbreviations);
    }
    tree.next(bytes, abbreviations, from_word(level))
}

fn put_answered(words: &mut Words<'_>, answered: TreeNext)
    ensures { Stored words.old words.new (answered_words (view_tree_next answered)) }
{
    let (status, reached) = answer_words(answered.answer);
    let tree = answered.tree;
    let raw = tree.cursor.input;
    words.put(&[
        status,
        reached,
        u64::from(tree.rooted),
        raw.position as u64,
        to_word(raw.depth),
    ]);
    if !words.is_full() {
        words.put_entry(tree.cursor.entry);
    }
}

// Kept (5): as `run` in cursor.rt.
#[tactic(auto, unfolding(crate::specs::Calls::tree_calls))]
fn run(
    tree: EntriesTree,
    bytes: &[u8],
    abbreviations: &Abbreviations<'_>,
    levels: &[u64],
    words: &mut Words<'_>,
)
    ensures { Stored words.old words.new (tree_calls entry_limit.most bytes.now abbreviations.now.rows abbreviations.now.specs levels.now (view_tree tree)) }
{
    let mut held = tree;
    for level in levels {
        let answered = call(held, *level, bytes, abbreviations);
        put_answered(words, answered);
        held = answered.tree;
    }
}

// A tree over a part of a unit that starts at the offset `start`, and calls on it: 0 is the root, any
// other number a level, in two's complement. Words for each call: status, 1 where an entry was reached,
// 1 where the tree has a root, position and depth of the next item, then the entry or null that is held.
pub fn tehkumir_tree(
    bytes: &[u8],
    start: usize,
    version: u16,
    is_64: bool,
    width: u8,
    is_big: bool,
    rows: &[u64],
    specs: &[u64],
    levels: &[u64],
    out: &mut [u64],
) -> u64
    ensures { Gives (tree_calls entry_limit.most bytes.now rows.now specs.now levels.now) (opened_tree entry_limit.most (length bytes.now) start (encoding_of version is_64 width) (endian_of is_big)) out.old out.new result }
{
    let source = source_of(start, version, is_64, width, is_big);
    match EntriesCursor::new(bytes, source) {
        Ok(cursor) => {
            let tree = EntriesTree {
                rooted: false,
                cursor,
            };
            let abbreviations = Abbreviations::new(rows, specs);
            let mut words = Words::new(out);
            run(tree, bytes, &abbreviations, levels, &mut words);
            words.finish()
        }
        Err(e) => refuse(out, e),
    }
}
