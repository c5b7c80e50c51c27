// A LEB128 number of at most `BITS` bits in parts.

ghost use Rattle.std.specs.Prelude.{◌≡◌, ◌+◌, ◌-◌, ◌*◌, ◌^◌, ◌≤◌, ◌<◌, ltb, pos, negsuc};
ghost use Rattle.reader.specs.Answer.{gives};
ghost use Rattle.reader.specs.Sound.{Sound, whole_of, integer_of};
ghost use Rattle.reader.specs.Views.{view_read};

use super::answer::Read;
use super::error::Error;

// What is below its last byte, how many bits that has, and the last byte.
#[derive(Clone, Copy, Debug, PartialEq, Eq)]
pub(crate) struct Parts<const BITS: u64> {
    pub(crate) below: u64,
    pub(crate) shift: u64,
    pub(crate) last: u64,
    ghost narrow: { BITS ≤ 64 },
    ghost sound: { Sound BITS below shift last },
}

// `b` from the bit `shift` on, above `v`.
pub(crate) fn above(v: u64, b: u64, shift: u64) -> u64
    requires { (shift < 64) × (v + b * 2 ^ shift < 2 ^ 64) }
    ensures { result ≡ v + b * 2 ^ shift }
{
    v + (b << shift)
}

// Whether seven bits fit in `left`.
fn room(b: u64, left: u64) -> bool
    requires { b < 128 }
    ensures { result ≡ ltb b (2 ^ left) }
{
    left >= 7 || b < (1 << left)
}

fn positive(x: u64, next: usize) -> Read<i64>
    requires { x < 2 ^ 63 }
    ensures { view_read result ≡ gives (pos x) next }
{
    Ok((x.cast_signed(), next))
}

// -1 - x
fn negative(x: u64, next: usize) -> Read<i64>
    requires { x < 2 ^ 63 }
    ensures { view_read result ≡ gives (negsuc x) next }
{
    Ok((-1 - x.cast_signed(), next))
}

// The complement of `v` in `shift` bits.
fn complement(v: u64, shift: u64) -> u64
    requires { (shift < 64) × (v < 2 ^ shift) }
    ensures { result ≡ 2 ^ shift - 1 - v }
{
    (1 << shift) - 1 - v
}

impl<const BITS: u64> Parts<BITS> {
    #[tactic(auto, unfolding(crate::specs::Sound::whole_of))]
    pub(crate) fn unsigned(self, next: usize) -> Read<u64>
        ensures { view_read result ≡ whole_of BITS self.entry.below self.entry.shift self.entry.last next }
    {
        let Parts { below, shift, last } = self;
        if room(last, BITS - shift) {
            Ok((above(below, last, shift), next))
        } else {
            Err(Error::BadUnsignedLeb128)
        }
    }

    #[tactic(auto, using(crate::proofs::LebLaws::integer_low, crate::proofs::LebLaws::integer_high))]
    pub(crate) fn signed(self, next: usize) -> Read<i64>
        ensures { view_read result ≡ integer_of BITS self.entry.below self.entry.shift self.entry.last next }
    {
        let Parts { below, shift, last } = self;
        let left = BITS - shift - 1;
        if last < 64 {
            if room(last, left) {
                return positive(above(below, last, shift), next);
            }
            return Err(Error::BadSignedLeb128);
        }
        let x = 127 - last;
        if room(x, left) {
            return negative(above(complement(below, shift), x, shift), next);
        }
        Err(Error::BadSignedLeb128)
    }
}
