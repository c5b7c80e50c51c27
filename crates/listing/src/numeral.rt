// The digits of a number, as a text.

ghost use Rattle.std.specs.Prelude.{◌≡◌, ◌≤◌};
ghost use Rattle.listing.specs.Text.{numeral, signed_numeral};

use std::marker::Model;

const DIGITS: [u8; 16] = *b"0123456789abcdef";

// A number's text, at the end of its bytes: none of 64 bits has more in a base of 10 or above.
#[derive(Drop)]
pub struct Numeral {
    bytes: [u8; 20],
    start: usize,
}

impl Model for Numeral {
    ghost use Rattle.std.specs.Prelude.{ℕ, ◌≡◌, ◌≤◌, List, length, drop};

    ghost Value = { List ℕ };

    ghost view = { λ n. drop n.start n.bytes };

    ghost invariant = { λ n. (length n.bytes ≡ 20) × (n.start ≤ 20) };
}

impl Numeral {
    // In a base.
    // Kept (6): no heap; 20 bytes hold any number.
    fn new<const BASE: u64>(n: u64) -> Numeral
        requires { (10 ≤ BASE) × (BASE ≤ 16) }
        ensures { result ≡ numeral BASE n }
    {
        let mut bytes = [0; 20];
        let mut start = 19;
        let mut left = n;
        while BASE <= left {
            bytes[start] = DIGITS[(left % BASE) as usize];
            left /= BASE;
            start -= 1;
        }
        bytes[start] = DIGITS[left as usize];
        Numeral { bytes, start }
    }

    // Kept (2): `new` requires a base of 10 to 16, and no public function of a library requires anything; with the base as a
    // value a line takes 54 ns for 46 (tried, rustc 1.95).
    pub fn decimal(n: u64) -> Numeral
        ensures { result ≡ numeral 10 n }
    {
        Numeral::new::<10>(n)
    }

    // Small letters.
    // Kept (2): as `decimal`.
    pub fn hexadecimal(n: u64) -> Numeral
        ensures { result ≡ numeral 16 n }
    {
        Numeral::new::<16>(n)
    }

    // Decimal, with a minus sign if negative.
    // Kept (4): by `write!` into the lent buffer a line takes 94 ns, by these digits 46 (tried, rustc 1.95); and its contract
    // doesn't say when it is Ok, so that the line isn't proved. The kit's `itoa` has no hexadecimal.
    pub fn signed(z: i64) -> Numeral
        ensures { result ≡ signed_numeral z }
    {
        let mut numeral = Numeral::decimal(z.unsigned_abs());
        if z < 0 {
            numeral.start -= 1;
            numeral.bytes[numeral.start] = b'-';
        }
        numeral
    }

    pub fn text(&self) -> &[u8]
        ensures { result.now ≡ self.now }
    {
        &self.bytes[self.start..]
    }
}
