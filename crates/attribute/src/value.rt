// Attributes and their values.

ghost use Rattle.std.specs.Prelude.{◌≡◌};
ghost use Rattle.attribute.specs.Attributes.{filler};
ghost use Rattle.attribute.specs.Steps.{Fits};
ghost use Rattle.attribute.specs.Value.{allow_section_offset, is_section_offset, value_under};
ghost use Rattle.attribute.specs.Views.{view_value, view_attribute};

use super::form::Kind;
use reader::common::Encoding;
use reader::twos::{from_word, to_word};

// gimli's `AttributeValue`, the cases that reading gives. A block, expression or string is its place,
// counted like an entry's offset, and its length; a `Data16` its low and its high 64 bits.
#[derive(Clone, Copy, Debug, PartialEq, Eq)]
pub enum AttributeValue {
    Addr(u64),
    Block(u64, u64),
    Data1(u8),
    Data2(u16),
    Data4(u32),
    Data8(u64),
    Data16(u64, u64),
    Sdata(i64),
    Udata(u64),
    Exprloc(u64, u64),
    Flag(bool),
    SecOffset(u64),
    DebugAddrIndex(u64),
    UnitRef(u64),
    DebugInfoRef(u64),
    DebugInfoRefSup(u64),
    DebugLocListsIndex(u64),
    DebugRngListsIndex(u64),
    DebugTypesRef(u64),
    DebugStrRef(u64),
    DebugStrRefSup(u64),
    DebugStrOffsetsIndex(u64),
    DebugLineStrRef(u64),
    String(u64, u64),
}

#[derive(Clone, Copy, Debug, PartialEq, Eq)]
pub struct Attribute {
    pub name: u16,
    pub form: u16,
    // whether one of the LEB128 numbers read for it is padded
    pub padded: bool,
    pub value: AttributeValue,
}

impl Attribute {
    // What stands in a place that holds no attribute.
    pub fn none() -> Attribute
        ensures { view_attribute result ≡ filler }
    {
        Attribute {
            name: 0,
            form: 0,
            padded: false,
            value: AttributeValue::Flag(false),
        }
    }
}

// A value's case and its numbers; a second number that it does not have is 0.
#[derive(Clone, Copy, Debug, PartialEq, Eq)]
pub struct Value {
    pub kind: Kind,
    pub low: u64,
    pub high: u64,
}

// gimli's `allow_section_offset`.
// Kept (1, 5): a name is DWARF's own number, and the bytes can hold any: an enum of names would be a list of
// all of them for these 14. In C's function they are two of
// eleven parameters, and no pair.
#[tactic(auto, unfolding(crate::specs::Value::allow_section_offset))]
fn allow_section_offset(name: u16, version: u16) -> bool
    ensures { result ≡ allow_section_offset name version }
{
    match name {
        0x02 | 0x10 | 0x19 | 0x2a | 0x2c | 0x40 | 0x43 | 0x46 | 0x48 | 0x4a | 0x4d | 0x55 | 0x79 =>
            true,
        0x38 => matches!(version, 2 | 3),
        _ => false,
    }
}

// Whether forms 06 and 07, of `size` bytes, are an offset into a section.
#[tactic(auto, unfolding(crate::specs::Value::is_section_offset))]
fn is_section_offset(encoding: Encoding, name: u16, size: u8) -> bool
    ensures { result ≡ is_section_offset encoding name size }
{
    size == encoding.format.word_size() && allow_section_offset(name, encoding.version)
}

// The value of a form's case under a name.
#[tactic(auto, using(crate::proofs::FormLaws::no_offset, crate::proofs::FormLaws::flag_of, crate::proofs::ValueLaws::word_kept), unfolding(crate::specs::Value::value_under))]
pub(crate) fn value_of(encoding: Encoding, name: u16, value: Value) -> AttributeValue
    requires { Fits value.kind value.low value.high }
    ensures { view_value result ≡ value_under encoding name value }
{
    let Value { kind, low, high } = value;
    match kind {
        Kind::Addr => AttributeValue::Addr(low),
        Kind::Block => AttributeValue::Block(low, high),
        Kind::Data1 => AttributeValue::Data1(low as u8),
        Kind::Data2 => AttributeValue::Data2(low as u16),
        Kind::Data4 => if is_section_offset(encoding, name, 4) {
            AttributeValue::SecOffset(low)
        } else {
            AttributeValue::Data4(low as u32)
        },
        Kind::Data8 => if is_section_offset(encoding, name, 8) {
            AttributeValue::SecOffset(low)
        } else {
            AttributeValue::Data8(low)
        },
        Kind::Data16 => AttributeValue::Data16(low, high),
        Kind::Sdata => AttributeValue::Sdata(from_word(low)),
        Kind::Udata => AttributeValue::Udata(low),
        Kind::Exprloc => AttributeValue::Exprloc(low, high),
        Kind::Flag => AttributeValue::Flag(low != 0),
        Kind::SecOffset => AttributeValue::SecOffset(low),
        Kind::DebugAddrIndex => AttributeValue::DebugAddrIndex(low),
        Kind::UnitRef => AttributeValue::UnitRef(low),
        Kind::DebugInfoRef => AttributeValue::DebugInfoRef(low),
        Kind::DebugInfoRefSup => AttributeValue::DebugInfoRefSup(low),
        Kind::DebugLocListsIndex => AttributeValue::DebugLocListsIndex(low),
        Kind::DebugRngListsIndex => AttributeValue::DebugRngListsIndex(low),
        Kind::DebugTypesRef => AttributeValue::DebugTypesRef(low),
        Kind::DebugStrRef => AttributeValue::DebugStrRef(low),
        Kind::DebugStrRefSup => AttributeValue::DebugStrRefSup(low),
        Kind::DebugStrOffsetsIndex => AttributeValue::DebugStrOffsetsIndex(low),
        Kind::DebugLineStrRef => AttributeValue::DebugLineStrRef(low),
        Kind::String => AttributeValue::String(low, high),
    }
}

impl From<AttributeValue> for Value {
    fn from(value: AttributeValue) -> Value
        ensures is { result ≡ view_value value }
        ensures fits { Fits result.kind result.low result.high }
    {
        let (kind, low, high) = match value {
            AttributeValue::Addr(n) => (Kind::Addr, n, 0),
            AttributeValue::Block(start, len) => (Kind::Block, start, len),
            AttributeValue::Data1(n) => (Kind::Data1, u64::from(n), 0),
            AttributeValue::Data2(n) => (Kind::Data2, u64::from(n), 0),
            AttributeValue::Data4(n) => (Kind::Data4, u64::from(n), 0),
            AttributeValue::Data8(n) => (Kind::Data8, n, 0),
            AttributeValue::Data16(low, high) => (Kind::Data16, low, high),
            AttributeValue::Sdata(z) => (Kind::Sdata, to_word(z), 0),
            AttributeValue::Udata(n) => (Kind::Udata, n, 0),
            AttributeValue::Exprloc(start, len) => (Kind::Exprloc, start, len),
            AttributeValue::Flag(b) => (Kind::Flag, u64::from(b), 0),
            AttributeValue::SecOffset(n) => (Kind::SecOffset, n, 0),
            AttributeValue::DebugAddrIndex(n) => (Kind::DebugAddrIndex, n, 0),
            AttributeValue::UnitRef(n) => (Kind::UnitRef, n, 0),
            AttributeValue::DebugInfoRef(n) => (Kind::DebugInfoRef, n, 0),
            AttributeValue::DebugInfoRefSup(n) => (Kind::DebugInfoRefSup, n, 0),
            AttributeValue::DebugLocListsIndex(n) => (Kind::DebugLocListsIndex, n, 0),
            AttributeValue::DebugRngListsIndex(n) => (Kind::DebugRngListsIndex, n, 0),
            AttributeValue::DebugTypesRef(n) => (Kind::DebugTypesRef, n, 0),
            AttributeValue::DebugStrRef(n) => (Kind::DebugStrRef, n, 0),
            AttributeValue::DebugStrRefSup(n) => (Kind::DebugStrRefSup, n, 0),
            AttributeValue::DebugStrOffsetsIndex(n) => (Kind::DebugStrOffsetsIndex, n, 0),
            AttributeValue::DebugLineStrRef(n) => (Kind::DebugLineStrRef, n, 0),
            AttributeValue::String(start, len) => (Kind::String, start, len),
        };
        Value { kind, low, high }
    }
}
