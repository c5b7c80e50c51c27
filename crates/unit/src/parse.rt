// A unit header read.
// Kept (5): C lends the slice at each call, so that a struct would be made for one call and taken apart in it:
// `Section { id, bytes, endian }.header(offset)` for `id.header_from_offset(bytes, offset, endian)`.

ghost use Rattle.std.specs.Prelude.{◌≡◌};
ghost use Rattle.reader.specs.Fields.{offset_at};
ghost use Rattle.reader.specs.Views.{view_read};
ghost use Rattle.unit.specs.Parse.{section_of, signature_at, type_at, older_at, newer_at, common_at, body_at, header_at};

use super::header::{UnitHeader, UnitType};
use reader::answer::Read;
use reader::common::{Encoding, Format, MAX_SECTION};
use reader::endianity::RunTimeEndian;
use reader::error::Error;
use reader::fields::{read_address_size, read_initial_length, read_offset, skip};
use reader::words::{read_u8, read_u16, read_u64};

// The sections that have units.
#[derive(Clone, Copy, Debug, PartialEq, Eq)]
pub enum SectionId {
    DebugInfo,
    DebugTypes,
}

// A type signature, and the offset of the type in the unit.
#[derive(Clone, Copy, Debug, PartialEq, Eq)]
pub struct Signature {
    pub signature: u64,
    pub offset: u64,
}

// The table's offset, the address width, and the number of the unit type.
#[derive(Clone, Copy, Debug, PartialEq, Eq)]
struct Common {
    table: u64,
    width: u64,
    number: u64,
}

// A section up to a unit's end, and how the words of the unit are read.
#[derive(Clone, Copy, Debug, PartialEq, Eq)]
struct Fields<'a> {
    id: SectionId,
    s: &'a [u8],
    format: Format,
    endian: RunTimeEndian,
}

impl Fields<'_> {
    fn offset(self, at: usize) -> Read<u64>
        ensures { view_read result ≡ offset_at self.entry.s.now at self.entry.format self.entry.endian }
    {
        read_offset(self.s, at, self.format, self.endian)
    }

    // Inline: for a call of it the struct goes to memory, which makes each header slower.
    #[tactic(auto, unfolding(crate::specs::Parse::signature_at))]
    #[inline(always)]
    fn signature(self, at: usize) -> Read<Signature>
        ensures { view_read result ≡ signature_at self.entry.s.now at self.entry.format self.entry.endian }
    {
        let (signature, p) = read_u64(self.s, at, self.endian)?;
        let (offset, next) = self.offset(p)?;
        Ok((Signature { signature, offset }, next))
    }

    // What a unit of a type has behind the common fields.
    #[tactic(auto, unfolding(crate::specs::Parse::type_at))]
    fn unit_type(self, at: usize, number: u64) -> Read<UnitType>
        ensures { view_read result ≡ type_at self.entry.s.now at number self.entry.format self.entry.endian }
    {
        // Kept (1, 7): the byte as it was read, since 01 judges it after the fields that follow it. `TryFrom` to an enum of
        // the six would be this match once more: `1 => Ok(Kind::Compilation)`, then `Kind::Compilation => ..`.
        match number {
            1 => Ok((UnitType::Compilation, at)),
            2 => {
                let (of, next) = self.signature(at)?;
                Ok((UnitType::Type(of.signature, of.offset), next))
            }
            3 => Ok((UnitType::Partial, at)),
            4 => {
                let (dwo_id, next) = read_u64(self.s, at, self.endian)?;
                Ok((UnitType::Skeleton(dwo_id), next))
            }
            5 => {
                let (dwo_id, next) = read_u64(self.s, at, self.endian)?;
                Ok((UnitType::SplitCompilation(dwo_id), next))
            }
            6 => {
                let (of, next) = self.signature(at)?;
                Ok((UnitType::SplitType(of.signature, of.offset), next))
            }
            _ => Err(Error::UnknownUnitType),
        }
    }

    // Versions 2 to 4.
    #[tactic(auto, unfolding(crate::specs::Parse::older_at))]
    fn older(self, at: usize) -> Read<Common>
        ensures { view_read result ≡ older_at self.entry.s.now at (section_of self.entry.id).older self.entry.format self.entry.endian }
    {
        let (table, p) = self.offset(at)?;
        let (width, next) = read_address_size(self.s, p)?;
        let common = Common {
            table,
            width,
            number: older_type(self.id),
        };
        Ok((common, next))
    }

    // Version 5.
    #[tactic(auto, unfolding(crate::specs::Parse::newer_at, crate::specs::Parse::typed_at))]
    fn newer(self, at: usize) -> Read<Common>
        ensures { view_read result ≡ newer_at self.entry.s.now at self.entry.format self.entry.endian }
    {
        let (number, p) = read_u8(self.s, at)?;
        let (width, q) = read_address_size(self.s, p)?;
        let (table, next) = self.offset(q)?;
        let common = Common {
            table,
            width,
            number,
        };
        Ok((common, next))
    }

    #[tactic(auto, unfolding(crate::specs::Parse::common_at))]
    fn common(self, at: usize, version: u64) -> Read<Common>
        ensures { view_read result ≡ common_at (section_of self.entry.id) self.entry.s.now at version self.entry.format self.entry.endian }
    {
        // Kept (1, 7): a version is a number, and the header keeps it; an enum of the four by `TryFrom` would be matched once
        // to make it and once here.
        match version {
            2..=4 => self.older(at),
            5 => self.newer(at),
            _ => Err(Error::UnknownVersion),
        }
    }

    // What follows the initial length.
    #[tactic(auto, using(crate::proofs::ParseLaws::of_got, crate::proofs::ParseLaws::common_in, reader::proofs::WordLaws::word_in), unfolding(crate::specs::Parse::body_at, crate::specs::Parse::rest_at))]
    fn header(self, offset: usize, unit_length: u64, at: usize) -> Read<UnitHeader>
        ensures { view_read result ≡ body_at (section_of self.entry.id) self.entry.s.now offset (record { unit_length = unit_length; format = self.entry.format }) at self.entry.endian }
    {
        let (version, p) = read_u16(self.s, at, self.endian)?;
        let (common, q) = self.common(p, version)?;
        let (unit_type, next) = self.unit_type(q, common.number)?;
        let header = UnitHeader {
            offset,
            unit_length,
            // Kept (4): that the byte and the two bytes fit is proved; `try_from` would have a refusal that never comes.
            encoding: Encoding {
                address_size: common.width as u8,
                format: self.format,
                version: version as u16,
            },
            debug_abbrev_offset: common.table,
            unit_type,
        };
        Ok((header, next))
    }
}

// The number of the unit type that a section has before version 5.
// Kept (4): `u64::from(id)` would not say that the number is a unit type's.
fn older_type(id: SectionId) -> u64
    ensures { result ≡ (section_of id).older }
{
    match id {
        SectionId::DebugInfo => 1,
        SectionId::DebugTypes => 2,
    }
}

// The header at a place of a section. Its fields are read inside of the unit's own bytes.
#[tactic(auto, unfolding(crate::specs::Parse::header_at))]
pub fn parse_header(
    id: SectionId,
    section: &[u8],
    at: usize,
    endian: RunTimeEndian,
) -> Read<UnitHeader>
    ensures { view_read result ≡ header_at (section_of id) section.now at endian }
{
    if MAX_SECTION < section.len() {
        return Err(Error::SizeLimit);
    }
    let (length, p) = read_initial_length(section, at, endian)?;
    let end = skip(section, p, length.unit_length)?;
    let fields = Fields {
        id,
        s: &section[..end],
        format: length.format,
        endian,
    };
    fields.header(at, length.unit_length, p)
}
