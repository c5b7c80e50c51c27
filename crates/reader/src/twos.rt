// Two's complement of 64 bits.

ghost use Rattle.std.specs.Prelude.{◌≡◌};
ghost use Rattle.reader.specs.Twos.{twos, word};

#[tactic(auto, using(crate::proofs::Signs::word_cast))]
pub fn to_word(z: i64) -> u64
    ensures { result ≡ word 64 z }
{
    z.cast_unsigned()
}

#[tactic(auto, using(crate::proofs::Signs::twos_cast))]
pub fn from_word(w: u64) -> i64
    ensures { result ≡ twos 64 w }
{
    w.cast_signed()
}
