// The functions that cases call, in the order of their numbers.

use std::fmt;

#[derive(Clone, Copy, Debug, PartialEq, Eq)]
pub enum Kind {
    ReadUleb128,
    ReadUleb128U16,
    ReadSleb128,
    SkipLeb128,
    ReadWord,
    ReadInitialLength,
    UnitHeader,
    NextUnit,
    Entry,
    Abbreviations,
    Get,
    ReadAttribute,
    Raw,
    Cursor,
    Tree,
    RawLent,
    TypesNextUnit,
    TypeEntry,
}

// How many there are.
pub const KINDS: usize = 18;

// No function has the number.
#[derive(Clone, Copy, Debug, PartialEq, Eq)]
pub struct UnknownKind;

impl Kind {
    pub const ALL: [Kind; KINDS] = [
        Kind::ReadUleb128,
        Kind::ReadUleb128U16,
        Kind::ReadSleb128,
        Kind::SkipLeb128,
        Kind::ReadWord,
        Kind::ReadInitialLength,
        Kind::UnitHeader,
        Kind::NextUnit,
        Kind::Entry,
        Kind::Abbreviations,
        Kind::Get,
        Kind::ReadAttribute,
        Kind::Raw,
        Kind::Cursor,
        Kind::Tree,
        Kind::RawLent,
        Kind::TypesNextUnit,
        Kind::TypeEntry,
    ];
}

impl TryFrom<u8> for Kind {
    type Error = UnknownKind;

    fn try_from(number: u8) -> Result<Kind, UnknownKind> {
        Kind::ALL
            .get(usize::from(number))
            .copied()
            .ok_or(UnknownKind)
    }
}

impl fmt::Display for Kind {
    fn fmt<W: fmt::Write>(&self, f: &mut fmt::Formatter<W>) -> fmt::Result {
        f.write_str(match self {
            Kind::ReadUleb128 => "read_uleb128",
            Kind::ReadUleb128U16 => "read_uleb128_u16",
            Kind::ReadSleb128 => "read_sleb128",
            Kind::SkipLeb128 => "skip_leb128",
            Kind::ReadWord => "read_word",
            Kind::ReadInitialLength => "read_initial_length",
            Kind::UnitHeader => "unit_header",
            Kind::NextUnit => "next_unit",
            Kind::Entry => "entry",
            Kind::Abbreviations => "abbreviations",
            Kind::Get => "get",
            Kind::ReadAttribute => "read_attribute",
            Kind::Raw => "raw",
            Kind::Cursor => "cursor",
            Kind::Tree => "tree",
            Kind::RawLent => "raw_lent",
            Kind::TypesNextUnit => "types_next_unit",
            Kind::TypeEntry => "type_entry",
        })
    }
}
