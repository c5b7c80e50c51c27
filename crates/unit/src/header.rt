// A unit's header and its questions. Anybody can make one, so every question takes any header.
// Kept (4): `as` between `usize` and `u64`, both of 64 bits here, between which Rust has no `From`.

ghost use Rattle.std.specs.Prelude.{◌≡◌, ◌-◌, ◌^◌, ◌≤◌, min};
ghost use Rattle.reader.specs.Views.{view};
ghost use Rattle.unit.specs.Header.{type_size, unit_end, size_of_header, length_including_self, in_bounds, tombstone};

use reader::common::{Encoding, Format, MAX_SECTION};
use reader::error::Error;

#[derive(Clone, Copy, Debug, PartialEq, Eq)]
pub enum UnitType {
    Compilation,
    // signature, and offset of the type in the unit
    Type(u64, u64),
    Partial,
    // dwo_id
    Skeleton(u64),
    SplitCompilation(u64),
    SplitType(u64, u64),
}

#[derive(Clone, Copy, Debug, PartialEq, Eq)]
pub struct UnitHeader {
    pub offset: usize,
    pub unit_length: u64,
    pub encoding: Encoding,
    pub debug_abbrev_offset: u64,
    pub unit_type: UnitType,
}

// The bytes of what only this type of unit has.
fn type_size(unit_type: UnitType, word_size: usize) -> usize
    requires { word_size ≤ 8 }
    ensures { result ≡ type_size unit_type word_size }
{
    match unit_type {
        UnitType::Compilation | UnitType::Partial => 0,
        UnitType::Skeleton(_) | UnitType::SplitCompilation(_) => 8,
        UnitType::Type(_, _) | UnitType::SplitType(_, _) => 8 + word_size,
    }
}

impl UnitHeader {
    // The unit's place in its section.
    pub fn offset(self) -> usize
        ensures { result ≡ self.offset }
    {
        self.offset
    }

    pub fn unit_length(self) -> u64
        ensures { result ≡ self.unit_length }
    {
        self.unit_length
    }

    // Where the unit ends, from its first byte; the largest number where that is past it.
    pub fn end(self) -> usize
        ensures { result ≡ min (unit_end self) (2 ^ 64 - 1) }
    {
        let size = u64::from(self.encoding.format.initial_length_size());
        size.saturating_add(self.unit_length) as usize
    }

    // The bytes of the unit, its length word among them.
    #[tactic(auto, unfolding(crate::specs::Header::length_including_self))]
    pub fn length_including_self(self) -> Result<u64, Error>
        ensures { view result ≡ length_including_self self }
    {
        let end = self.end();
        if MAX_SECTION < end {
            return Err(Error::SizeLimit);
        }
        Ok(end as u64)
    }

    // Kept (5): the same number by three of gimli's names.
    #[tactic(auto, unfolding(crate::specs::Header::size_of_header))]
    pub fn size_of_header(self) -> usize
        ensures { result ≡ size_of_header self }
    {
        let Encoding {
            format,
            version,
            ..
        } = self.encoding;
        let word_size = usize::from(format.word_size());
        let own = type_size(self.unit_type, word_size);
        let type_byte = usize::from(version == 5);
        usize::from(format.initial_length_size()) + 3 + word_size + own + type_byte
    }

    // Kept (2): gimli has both names.
    pub fn header_size(self) -> usize
        ensures { result ≡ size_of_header self }
    {
        self.root_offset()
    }

    // Where the entries start.
    // Kept (2): as `header_size`.
    pub fn root_offset(self) -> usize
        ensures { result ≡ size_of_header self }
    {
        self.size_of_header()
    }

    pub fn encoding(self) -> Encoding
        ensures { result ≡ self.encoding }
    {
        self.encoding
    }

    pub fn version(self) -> u16
        ensures { result ≡ self.encoding.version }
    {
        self.encoding.version
    }

    pub fn format(self) -> Format
        ensures { result ≡ self.encoding.format }
    {
        self.encoding.format
    }

    pub fn address_size(self) -> u8
        ensures { result ≡ self.encoding.address_size }
    {
        self.encoding.address_size
    }

    pub fn type_(self) -> UnitType
        ensures { result ≡ self.unit_type }
    {
        self.unit_type
    }

    pub fn debug_abbrev_offset(self) -> u64
        ensures { result ≡ self.debug_abbrev_offset }
    {
        self.debug_abbrev_offset
    }

    // Whether an entry's offset lies among the entries.
    #[tactic(auto, unfolding(crate::specs::Header::in_bounds, crate::specs::Header::size_of_header))]
    pub fn is_in_bounds(self, offset: usize) -> bool
        ensures { result ≡ in_bounds self offset }
    {
        let initial = usize::from(self.encoding.format.initial_length_size());
        self.size_of_header() <= offset && ((offset - initial) as u64) < self.unit_length
    }

    // Whether an address is -2 of the unit's width or above it.
    #[tactic(auto, unfolding(crate::specs::Header::tombstone, reader::specs::Fields::is_address_size))]
    pub fn is_tombstone_address(self, address: u64) -> Result<bool, Error>
        ensures { view result ≡ tombstone self address }
    {
        match self.encoding.address_size {
            1 => Ok(0xfe <= address),
            2 => Ok(0xfffe <= address),
            4 => Ok(0xffff_fffe <= address),
            8 => Ok(0xffff_ffff_ffff_fffe <= address),
            _ => Err(Error::UnsupportedAddressSize),
        }
    }
}
