// Words of 1, 2, 3, 4, 8 and 16 bytes.
// The order is matched once, outside of what puts a word together, so that each order compiles to
// loads and shifts without a branch.
// Kept (2): each is a line over the private `read_word::<N>`, which requires 1 to 8 bytes; no public function of a library
// requires anything. All but `read_u24` (gimli's `read_uint(3)`) have gimli's names; `read_u8` takes no order, `read_u128` gives halves.

ghost use Rattle.std.specs.Prelude.{◌≡◌, ◌+◌, ◌*◌, ◌^◌, ◌≤◌, ◌<◌, length};
ghost use Rattle.reader.specs.Parts.{Joins, joined};
ghost use Rattle.reader.specs.Views.{view_read};
ghost use Rattle.reader.specs.Words.{spelled, word_at, halves_at};
ghost use Rattle.reader.specs.declared.endianity.RunTimeEndian.TheVariants.{Little};

use super::answer::{Halves, Read};
use super::endianity::RunTimeEndian;
use super::error::Error;

// The word of two parts, of `a` and `b` bytes, that follow each other.
#[tactic(auto, using(crate::proofs::WordLaws::shifted, crate::proofs::WordLaws::shifted_fits))]
fn join(first: u64, second: u64, a: usize, b: usize, endian: RunTimeEndian) -> u64
    requires { Joins a b first second }
    ensures { result ≡ joined endian a b first second }
{
    match endian {
        RunTimeEndian::Little => first + (second << (8 * a)),
        RunTimeEndian::Big => (first << (8 * b)) + second,
    }
}

// The word of `N` bytes that are there.
#[tactic(auto, using(crate::proofs::WordLaws::byte_spelled, crate::proofs::WordLaws::word_joins, crate::proofs::WordLaws::word_joined))]
fn spelled<const N: usize>(bytes: &[u8], at: usize, endian: RunTimeEndian) -> u64
    requires width { (1 ≤ N) × (N ≤ 8) }
    requires there { at + N ≤ length bytes.now }
    ensures { result ≡ spelled bytes.now at N endian }
{
    let mut word = u64::from(bytes[at]);
    for i in 1..N {
        word = join(word, u64::from(bytes[at + i]), i, 1, endian);
    }
    word
}

#[tactic(auto, using(crate::proofs::WordLaws::word_got, crate::proofs::WordLaws::word_short))]
fn read_word<const N: usize>(bytes: &[u8], at: usize, endian: RunTimeEndian) -> Read<u64>
    requires { (1 ≤ N) × (N ≤ 8) }
    ensures { view_read result ≡ word_at bytes.now at N endian }
{
    if bytes.len().saturating_sub(at) < N {
        return Err(Error::UnexpectedEof);
    }
    let word = match endian {
        RunTimeEndian::Little => spelled::<N>(bytes, at, RunTimeEndian::Little),
        RunTimeEndian::Big => spelled::<N>(bytes, at, RunTimeEndian::Big),
    };
    Ok((word, at + N))
}

pub fn read_u8(bytes: &[u8], at: usize) -> Read<u64>
    ensures { view_read result ≡ word_at bytes.now at 1 Little }
{
    read_word::<1>(bytes, at, RunTimeEndian::Little)
}

pub fn read_u16(bytes: &[u8], at: usize, endian: RunTimeEndian) -> Read<u64>
    ensures { view_read result ≡ word_at bytes.now at 2 endian }
{
    read_word::<2>(bytes, at, endian)
}

pub fn read_u24(bytes: &[u8], at: usize, endian: RunTimeEndian) -> Read<u64>
    ensures { view_read result ≡ word_at bytes.now at 3 endian }
{
    read_word::<3>(bytes, at, endian)
}

pub fn read_u32(bytes: &[u8], at: usize, endian: RunTimeEndian) -> Read<u64>
    ensures { view_read result ≡ word_at bytes.now at 4 endian }
{
    read_word::<4>(bytes, at, endian)
}

pub fn read_u64(bytes: &[u8], at: usize, endian: RunTimeEndian) -> Read<u64>
    ensures { view_read result ≡ word_at bytes.now at 8 endian }
{
    read_word::<8>(bytes, at, endian)
}

#[tactic(auto, using(crate::proofs::WordLaws::halves_read))]
pub fn read_u128(bytes: &[u8], at: usize, endian: RunTimeEndian) -> Read<Halves>
    ensures { view_read result ≡ halves_at bytes.now at endian }
{
    let (first, middle) = read_u64(bytes, at, endian)?;
    let (second, next) = read_u64(bytes, middle, endian)?;
    let (low, high) = match endian {
        RunTimeEndian::Little => (first, second),
        RunTimeEndian::Big => (second, first),
    };
    Ok((Halves { low, high }, next))
}
