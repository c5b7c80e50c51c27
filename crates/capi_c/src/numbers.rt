// LEB128 numbers, words and initial lengths.

ghost use Rattle.reader.specs.Fields.{initial_length_at};
ghost use Rattle.reader.specs.Leb128.{past_at};
ghost use Rattle.reader.specs.Padded.{uleb_counted_at, sleb_counted_at};
ghost use Rattle.capi.specs.Words.{Gives, endian_of, sized_word_at, read_words, counted_words, signed_words, place_words, initial_words};

// Words: the number, the next place, how many bytes it has, 1 where fewer would do.
#[unsafe(no_mangle)]
pub extern "C" fn tehkumir_read_uleb128(bytes: &[u8], at: usize, out: &mut [u64]) -> u64
    ensures { Gives counted_words (uleb_counted_at bytes.now at 64) out.old out.new result }
{
    capi::numbers::tehkumir_read_uleb128(bytes, at, out)
}

// Words: the number, the next place, how many bytes it has, 1 where fewer would do.
#[unsafe(no_mangle)]
pub extern "C" fn tehkumir_read_uleb128_u16(bytes: &[u8], at: usize, out: &mut [u64]) -> u64
    ensures { Gives counted_words (uleb_counted_at bytes.now at 16) out.old out.new result }
{
    capi::numbers::tehkumir_read_uleb128_u16(bytes, at, out)
}

// Words: the number in two's complement, the next place, how many bytes it has, 1 where fewer would do.
#[unsafe(no_mangle)]
pub extern "C" fn tehkumir_read_sleb128(bytes: &[u8], at: usize, out: &mut [u64]) -> u64
    ensures { Gives signed_words (sleb_counted_at bytes.now at 64) out.old out.new result }
{
    capi::numbers::tehkumir_read_sleb128(bytes, at, out)
}

// Words: the next place.
#[unsafe(no_mangle)]
pub extern "C" fn tehkumir_skip_leb128(bytes: &[u8], at: usize, out: &mut [u64]) -> u64
    ensures { Gives place_words (past_at bytes.now at 128) out.old out.new result }
{
    capi::numbers::tehkumir_skip_leb128(bytes, at, out)
}

// A word of 1, 2, 3, 4 or 8 bytes; 7 for another width. Words: the number, the next place.
#[unsafe(no_mangle)]
pub extern "C" fn tehkumir_read_word(
    bytes: &[u8],
    at: usize,
    width: u8,
    is_big: bool,
    out: &mut [u64],
) -> u64
    ensures { Gives read_words (sized_word_at bytes.now at width (endian_of is_big)) out.old out.new result }
{
    capi::numbers::tehkumir_read_word(bytes, at, width, is_big, out)
}

// Words: the length, the bytes of the format's words (4 or 8), the next place.
#[unsafe(no_mangle)]
pub extern "C" fn tehkumir_read_initial_length(
    bytes: &[u8],
    at: usize,
    is_big: bool,
    out: &mut [u64],
) -> u64
    ensures { Gives initial_words (initial_length_at bytes.now at (endian_of is_big)) out.old out.new result }
{
    capi::numbers::tehkumir_read_initial_length(bytes, at, is_big, out)
}
