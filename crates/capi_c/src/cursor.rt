// The cursor's calls, one after another.

ghost use Rattle.std.specs.Prelude.{length};
ghost use Rattle.abbrev.specs.Table.{entry_limit};
ghost use Rattle.entries.specs.Cursor.{opened_cursor};
ghost use Rattle.capi.specs.Calls.{cursor_calls};
ghost use Rattle.capi.specs.Words.{Gives, encoding_of, endian_of};

// A cursor over a part of a unit that starts at the offset `start`, and calls on it: 0 is next_entry,
// 1 next_dfs, any other number next_sibling. Words for each call: status, 1 where something was reached,
// position and depth of the next item, then the entry or null that is held.
#[unsafe(no_mangle)]
pub extern "C" fn tehkumir_cursor(
    bytes: &[u8],
    start: usize,
    version: u16,
    is_64: bool,
    width: u8,
    is_big: bool,
    rows: &[u64],
    specs: &[u64],
    calls: &[u8],
    out: &mut [u64],
) -> u64
    ensures { Gives (cursor_calls entry_limit.most bytes.now rows.now specs.now calls.now) (opened_cursor entry_limit.most (length bytes.now) start (encoding_of version is_64 width) (endian_of is_big)) out.old out.new result }
{
    capi::cursor::tehkumir_cursor(
        bytes, start, version, is_64, width, is_big, rows, specs, calls, out,
    )
}
