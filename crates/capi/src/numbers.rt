// LEB128 numbers, words and initial lengths.

ghost use Rattle.reader.specs.Fields.{initial_length_at};
ghost use Rattle.reader.specs.Leb128.{past_at};
ghost use Rattle.reader.specs.Padded.{uleb_counted_at, sleb_counted_at};
ghost use Rattle.reader.specs.Views.{view_read};
ghost use Rattle.capi.specs.Words.{Gives, endian_of, sized_word_at, read_words, counted_words, signed_words, place_words, initial_words};

use super::out::{endian_of, give, refuse};
use reader::answer::{Counted, Read};
use reader::fields::{read_address, read_initial_length};
use reader::leb128::{read_sleb128, read_uleb128, read_uleb128_u16, skip_leb128};
use reader::twos::to_word;
use reader::words::read_u24;

// A number and the next place.
fn give_word(out: &mut [u64], answer: Read<u64>) -> u64
    ensures { Gives read_words (view_read answer) out.old out.new result }
{
    match answer {
        Ok((value, next)) => give(out, &[value, next as u64]),
        Err(e) => refuse(out, e),
    }
}

// A number, the next place, how many bytes it has, and 1 where fewer would do.
fn give_unsigned(out: &mut [u64], answer: Read<Counted<u64>>) -> u64
    ensures { Gives counted_words (view_read answer) out.old out.new result }
{
    match answer {
        Ok((counted, next)) => give(
            out,
            &[
                counted.number,
                next as u64,
                counted.count as u64,
                u64::from(counted.padded),
            ],
        ),
        Err(e) => refuse(out, e),
    }
}

// Words: the number, the next place, how many bytes it has, 1 where fewer would do.
// Kept (2): the C interface has a function for each size.
pub fn tehkumir_read_uleb128(bytes: &[u8], at: usize, out: &mut [u64]) -> u64
    ensures { Gives counted_words (uleb_counted_at bytes.now at 64) out.old out.new result }
{
    give_unsigned(out, read_uleb128(bytes, at))
}

// Words: the number, the next place, how many bytes it has, 1 where fewer would do.
// Kept (2): as `tehkumir_read_uleb128`.
pub fn tehkumir_read_uleb128_u16(bytes: &[u8], at: usize, out: &mut [u64]) -> u64
    ensures { Gives counted_words (uleb_counted_at bytes.now at 16) out.old out.new result }
{
    give_unsigned(out, read_uleb128_u16(bytes, at))
}

// Words: the number in two's complement, the next place, how many bytes it has, 1 where fewer would do.
pub fn tehkumir_read_sleb128(bytes: &[u8], at: usize, out: &mut [u64]) -> u64
    ensures { Gives signed_words (sleb_counted_at bytes.now at 64) out.old out.new result }
{
    match read_sleb128(bytes, at) {
        Ok((counted, next)) => give(
            out,
            &[
                to_word(counted.number),
                next as u64,
                counted.count as u64,
                u64::from(counted.padded),
            ],
        ),
        Err(e) => refuse(out, e),
    }
}

// Words: the next place.
pub fn tehkumir_skip_leb128(bytes: &[u8], at: usize, out: &mut [u64]) -> u64
    ensures { Gives place_words (past_at bytes.now at 128) out.old out.new result }
{
    match skip_leb128(bytes, at) {
        Ok(next) => give(out, &[next as u64]),
        Err(e) => refuse(out, e),
    }
}

// A word of 1, 2, 3, 4 or 8 bytes; 7 for another width. Words: the number, the next place.
pub fn tehkumir_read_word(bytes: &[u8], at: usize, width: u8, is_big: bool, out: &mut [u64]) -> u64
    ensures { Gives read_words (sized_word_at bytes.now at width (endian_of is_big)) out.old out.new result }
{
    let endian = endian_of(is_big);
    let answer = if width == 3 {
        read_u24(bytes, at, endian)
    } else {
        read_address(bytes, at, width, endian)
    };
    give_word(out, answer)
}

// Words: the length, the bytes of the format's words (4 or 8), the next place.
pub fn tehkumir_read_initial_length(bytes: &[u8], at: usize, is_big: bool, out: &mut [u64]) -> u64
    ensures { Gives initial_words (initial_length_at bytes.now at (endian_of is_big)) out.old out.new result }
{
    match read_initial_length(bytes, at, endian_of(is_big)) {
        Ok((initial, next)) => give(
            out,
            &[
                initial.unit_length,
                u64::from(initial.format.word_size()),
                next as u64,
            ],
        ),
        Err(e) => refuse(out, e),
    }
}
