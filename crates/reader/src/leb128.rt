// LEB128 numbers.
// Kept (2): `read_uleb128` and `read_uleb128_u16` are gimli's names; `uleb128` and `uleb128_u16` are the same without count and
// mark. Each is a line over a private function with the width as a const parameter, which requires a width of 7 to 64; no public
// function of a library requires anything.
// Kept (5): what is asked of a width stands at each function that has it as a parameter: a const parameter has no invariant, so
// that the new form can't be written.

ghost use Rattle.std.specs.Prelude.{◌≡◌, ◌≤◌, length};
ghost use Rattle.reader.specs.Answer.{Holds};
ghost use Rattle.reader.specs.Leb128.{fits_unsigned, uleb_at, sleb_at, past_at};
ghost use Rattle.reader.specs.Padded.{counted, uleb_counted_at, sleb_counted_at, zero_last, sign_last};
ghost use Rattle.reader.specs.Parts.{Parted, RuledUnsigned};
ghost use Rattle.reader.specs.Views.{view, view_read};

use super::answer::{Counted, Read};
use super::error::Error;
use super::parts::{Parts, above};

// The parts of a number of at most `BITS` bits; `too_long` where it has more bytes than those.
fn divide<const BITS: u64>(bytes: &[u8], at: usize, too_long: Error) -> Read<Parts<BITS>>
    requires { (1 ≤ BITS) × (BITS ≤ 64) }
    ensures { Parted bytes.now at BITS too_long result }
{
    let mut below: u64 = 0;
    let mut shift: u64 = 0;
    for p in at..bytes.len() {
        let last = u64::from(bytes[p]);
        if last < 128 {
            return Ok((Parts { below, shift, last }, p + 1));
        }
        if BITS - shift <= 7 {
            return Err(too_long);
        }
        below = above(below, last - 128, shift);
        shift += 7;
    }
    Err(Error::UnexpectedEof)
}

// The readers of numbers alone, for those who need no more.

// An unsigned number of at most `BITS` bits. Nearly all have one byte.
#[tactic(auto, using(crate::proofs::LebLaws::uleb_short, crate::proofs::LebLaws::unsigned_parts, crate::proofs::LebLaws::unsigned_open))]
fn uleb128_of<const BITS: u64>(bytes: &[u8], at: usize) -> Read<u64>
    requires { (7 ≤ BITS) × (BITS ≤ 64) }
    ensures { view_read result ≡ uleb_at bytes.now at BITS }
{
    if at < bytes.len() {
        let b = u64::from(bytes[at]);
        if b < 128 {
            return Ok((b, at + 1));
        }
    }
    let (parts, next) = divide::<BITS>(bytes, at, Error::BadUnsignedLeb128)?;
    parts.unsigned(next)
}

pub fn uleb128(bytes: &[u8], at: usize) -> Read<u64>
    ensures { view_read result ≡ uleb_at bytes.now at 64 }
{
    uleb128_of::<64>(bytes, at)
}

pub fn uleb128_u16(bytes: &[u8], at: usize) -> Read<u64>
    ensures { view_read result ≡ uleb_at bytes.now at 16 }
{
    uleb128_of::<16>(bytes, at)
}

#[tactic(auto, using(crate::proofs::LebLaws::signed_parts))]
pub fn sleb128(bytes: &[u8], at: usize) -> Read<i64>
    ensures { view_read result ≡ sleb_at bytes.now at 64 }
{
    let (parts, next) = divide::<64>(bytes, at, Error::BadSignedLeb128)?;
    parts.signed(next)
}

// Whether the last byte of an unsigned number is 0 and not its only one.
fn zero_last(number: &[u8]) -> bool
    ensures { result ≡ zero_last number.now 0 (length number.now) }
{
    matches!(number, [_, .., 0])
}

// Whether the last byte of a signed one repeats the sign, bit 6 of the byte before it.
#[tactic(auto, using(crate::proofs::PaddedLaws::sign_bit))]
fn sign_last(number: &[u8]) -> bool
    ensures { result ≡ sign_last number.now 0 (length number.now) }
{
    match number {
        [.., before, last] => *last == if *before & 0x40 == 0 { 0 } else { 0x7f },
        _ => false,
    }
}

#[tactic(auto, using(crate::proofs::PaddedLaws::unsigned_rule, crate::proofs::PaddedLaws::zero_last_own), unfolding(crate::specs::Padded::uleb_counted_at))]
fn read_uleb128_of<const BITS: u64>(bytes: &[u8], at: usize) -> Read<Counted<u64>>
    requires { (7 ≤ BITS) × (BITS ≤ 64) }
    ensures { view_read result ≡ uleb_counted_at bytes.now at BITS }
{
    let (number, next) = uleb128_of::<BITS>(bytes, at)?;
    let padded = zero_last(&bytes[at..next]);
    let count = next - at;
    let counted = Counted {
        number,
        count,
        padded,
    };
    Ok((counted, next))
}

pub fn read_uleb128(bytes: &[u8], at: usize) -> Read<Counted<u64>>
    ensures { view_read result ≡ uleb_counted_at bytes.now at 64 }
{
    read_uleb128_of::<64>(bytes, at)
}

pub fn read_uleb128_u16(bytes: &[u8], at: usize) -> Read<Counted<u64>>
    ensures { view_read result ≡ uleb_counted_at bytes.now at 16 }
{
    read_uleb128_of::<16>(bytes, at)
}

#[tactic(auto, using(crate::proofs::PaddedLaws::signed_rule, crate::proofs::PaddedLaws::sign_last_own), unfolding(crate::specs::Padded::sleb_counted_at))]
pub fn read_sleb128(bytes: &[u8], at: usize) -> Read<Counted<i64>>
    ensures { view_read result ≡ sleb_counted_at bytes.now at 64 }
{
    let (number, next) = sleb128(bytes, at)?;
    let padded = sign_last(&bytes[at..next]);
    let count = next - at;
    let counted = Counted {
        number,
        count,
        padded,
    };
    Ok((counted, next))
}

// Past the first byte below `bound`.
#[tactic(auto, using(crate::proofs::LebLaws::skip_final, crate::proofs::LebLaws::skip_further))]
pub(crate) fn past(bytes: &[u8], at: usize, bound: u8) -> Result<usize, Error>
    ensures { view result ≡ past_at bytes.now at bound }
{
    for p in at..bytes.len() {
        if bytes[p] < bound {
            return Ok(p + 1);
        }
    }
    Err(Error::UnexpectedEof)
}

pub fn skip_leb128(bytes: &[u8], at: usize) -> Result<usize, Error>
    ensures { view result ≡ past_at bytes.now at 128 }
{
    past(bytes, at, 128)
}
