// The tree's calls, one after another.

ghost use Rattle.std.specs.Prelude.{length};
ghost use Rattle.abbrev.specs.Table.{entry_limit};
ghost use Rattle.capi.specs.Calls.{tree_calls, opened_tree};
ghost use Rattle.capi.specs.Words.{Gives, encoding_of, endian_of};

// A tree over a part of a unit that starts at the offset `start`, and calls on it: 0 is the root, any
// other number a level, in two's complement. Words for each call: status, 1 where an entry was reached,
// 1 where the tree has a root, position and depth of the next item, then the entry or null that is held.
#[unsafe(no_mangle)]
pub extern "C" fn tehkumir_tree(
    bytes: &[u8],
    start: usize,
    version: u16,
    is_64: bool,
    width: u8,
    is_big: bool,
    rows: &[u64],
    specs: &[u64],
    levels: &[u64],
    out: &mut [u64],
) -> u64
    ensures { Gives (tree_calls entry_limit.most bytes.now rows.now specs.now levels.now) (opened_tree entry_limit.most (length bytes.now) start (encoding_of version is_64 width) (endian_of is_big)) out.old out.new result }
{
    capi::levels::tehkumir_tree(
        bytes, start, version, is_64, width, is_big, rows, specs, levels, out,
    )
}
