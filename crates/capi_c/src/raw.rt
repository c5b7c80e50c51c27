// The raw reader's calls, one after another.

ghost use Rattle.std.specs.Prelude.{length};
ghost use Rattle.abbrev.specs.Table.{entry_limit};
ghost use Rattle.entries.specs.Raw.{opened};
ghost use Rattle.capi.specs.Calls.{raw_calls};
ghost use Rattle.capi.specs.Words.{Gives, encoding_of, endian_of};

// A raw reader over a part of a unit that starts at the offset `start`, and calls on it: 0 is read_entry,
// any other number read_abbreviation and skip_attributes. Words for each call: status, 1 for an entry,
// position and depth of the next item; then the entry or null that was read, or tag, children and
// count of the entry that was passed. A refusal keeps the state that the call was given.
#[unsafe(no_mangle)]
pub extern "C" fn tehkumir_raw(
    bytes: &[u8],
    start: usize,
    version: u16,
    is_64: bool,
    width: u8,
    is_big: bool,
    rows: &[u64],
    specs: &[u64],
    calls: &[u8],
    out: &mut [u64],
) -> u64
    ensures { Gives (raw_calls entry_limit.most bytes.now rows.now specs.now calls.now) (opened (length bytes.now) start (encoding_of version is_64 width) (endian_of is_big)) out.old out.new result }
{
    capi::raw::tehkumir_raw(
        bytes, start, version, is_64, width, is_big, rows, specs, calls, out,
    )
}

// The same with every call on a state that is lent and moved in place: the same words.
#[unsafe(no_mangle)]
pub extern "C" fn tehkumir_raw_lent(
    bytes: &[u8],
    start: usize,
    version: u16,
    is_64: bool,
    width: u8,
    is_big: bool,
    rows: &[u64],
    specs: &[u64],
    calls: &[u8],
    out: &mut [u64],
) -> u64
    ensures { Gives (raw_calls entry_limit.most bytes.now rows.now specs.now calls.now) (opened (length bytes.now) start (encoding_of version is_64 width) (endian_of is_big)) out.old out.new result }
{
    capi::raw::tehkumir_raw_lent(
        bytes, start, version, is_64, width, is_big, rows, specs, calls, out,
    )
}
