// gimli's questions to a value.
// Kept (2, 4): each has gimli's name and its own sorts of values, and most values have no answer, so that they
// are no conversions. A function for u8 and u16 would stand beside these two lines, with a bound and laws.

ghost use Rattle.std.specs.Prelude.{◌≡◌};
ghost use Rattle.abbrev.specs.Views.{view_constant};
ghost use Rattle.unit.specs.Range.{Handed};
ghost use Rattle.attribute.specs.Ask.{udata_of, small_of, sdata_of, offset_of, exprloc_of, bytes_of};
ghost use Rattle.attribute.specs.Forms.{case_of};
ghost use Rattle.attribute.specs.Views.{view_value, view_number, view_part};

use super::value::{AttributeValue, Value};
use reader::error::Error;
use unit::range::part;

impl AttributeValue {
    #[tactic(auto, using(std::proofs::lemmas::Int::ints), unfolding(crate::specs::Ask::udata_of, reader::specs::Twos::word))]
    pub fn udata_value(self) -> Option<u64>
        ensures { view_number result ≡ udata_of (view_value self) }
    {
        match self {
            AttributeValue::Data1(n) => Some(u64::from(n)),
            AttributeValue::Data2(n) => Some(u64::from(n)),
            AttributeValue::Data4(n) => Some(u64::from(n)),
            AttributeValue::Data8(n) | AttributeValue::Udata(n) => Some(n),
            AttributeValue::Sdata(z) => u64::try_from(z).ok(),
            _ => None,
        }
    }

    #[tactic(auto, unfolding(crate::specs::Ask::small_of))]
    pub fn u8_value(self) -> Option<u8>
        ensures { view_number result ≡ small_of 8 (view_value self) }
    {
        self.udata_value().and_then(|n| u8::try_from(n).ok())
    }

    #[tactic(auto, unfolding(crate::specs::Ask::small_of))]
    pub fn u16_value(self) -> Option<u16>
        ensures { view_number result ≡ small_of 16 (view_value self) }
    {
        self.udata_value().and_then(|n| u16::try_from(n).ok())
    }

    #[tactic(auto, using(std::proofs::lemmas::Int::ints), unfolding(crate::specs::Ask::sdata_of, reader::specs::Twos::twos, reader::specs::Twos::word))]
    pub fn sdata_value(self) -> Option<i64>
        ensures { view_constant result ≡ sdata_of (view_value self) }
    {
        match self {
            AttributeValue::Data1(n) => Some(i64::from(n.cast_signed())),
            AttributeValue::Data2(n) => Some(i64::from(n.cast_signed())),
            AttributeValue::Data4(n) => Some(i64::from(n.cast_signed())),
            AttributeValue::Data8(n) => Some(n.cast_signed()),
            AttributeValue::Sdata(z) => Some(z),
            AttributeValue::Udata(n) => i64::try_from(n).ok(),
            _ => None,
        }
    }

    #[tactic(auto, unfolding(crate::specs::Ask::offset_of))]
    pub fn offset_value(self) -> Option<u64>
        ensures { view_number result ≡ offset_of (view_value self) }
    {
        match self {
            AttributeValue::SecOffset(n) => Some(n),
            _ => None,
        }
    }

    #[tactic(auto, unfolding(crate::specs::Ask::exprloc_of))]
    pub fn exprloc_value(self) -> Option<(u64, u64)>
        ensures { view_part result ≡ exprloc_of (view_value self) }
    {
        match self {
            AttributeValue::Block(start, len) | AttributeValue::Exprloc(start, len) => {
                Some((start, len))
            }
            _ => None,
        }
    }

    // Whether it points out of its unit.
    pub fn is_outward(self) -> bool
        ensures { result ≡ (case_of (view_value self).kind).outward }
    {
        Value::from(self).kind.case().outward
    }

    // The bytes of a block, an expression or a string out of the unit's own.
    #[tactic(auto, unfolding(crate::specs::Ask::bytes_of, unit::specs::Range::part))]
    pub fn bytes(self, unit: &[u8]) -> Result<&[u8], Error>
        ensures { Handed (bytes_of unit.now (view_value self)) result }
    {
        match self {
            AttributeValue::Block(start, len)
            | AttributeValue::Exprloc(start, len)
            | AttributeValue::String(start, len) => {
                let end = start.checked_add(len).ok_or(Error::OffsetOutOfBounds)?;
                part(unit, start as usize, end as usize)
            }
            _ => Err(Error::OffsetOutOfBounds),
        }
    }
}
