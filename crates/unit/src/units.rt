// The units of a section, one after the other.
// Kept (5): bytes, place and order as in parse.rt.

ghost use Rattle.std.specs.Prelude.{◌≡◌};
ghost use Rattle.reader.specs.Views.{view_read};
ghost use Rattle.unit.specs.Parse.{section_of, header_at};
ghost use Rattle.unit.specs.Units.{next_unit};
ghost use Rattle.unit.specs.Views.{view_next};

use super::header::UnitHeader;
use super::parse::{SectionId, parse_header};
use reader::answer::Read;
use reader::common::MAX_SECTION;
use reader::endianity::RunTimeEndian;
use reader::error::Error;

// The section, and where its next unit starts.
#[derive(Clone, Copy, Debug, PartialEq, Eq)]
pub struct UnitHeadersIter {
    pub id: SectionId,
    pub offset: usize,
}

// A header or none, and the list as it goes on.
// Kept (1): 01 says where the list stands after a refusal, at its end, and C is told so; a Result alone would lose it.
#[derive(Clone, Copy, Debug, PartialEq, Eq)]
pub struct Next {
    pub unit: Result<Option<UnitHeader>, Error>,
    pub units: UnitHeadersIter,
}

impl SectionId {
    pub fn units(self) -> UnitHeadersIter
        ensures { result ≡ record { id = self; offset = 0 } }
    {
        UnitHeadersIter {
            id: self,
            offset: 0,
        }
    }

    // The header at an offset of the section, wherever units start.
    pub fn header_from_offset(
        self,
        section: &[u8],
        offset: u64,
        endian: RunTimeEndian,
    ) -> Read<UnitHeader>
        ensures { view_read result ≡ header_at (section_of self) section.now offset endian }
    {
        // Kept (4): as in header.rt.
        parse_header(self, section, offset as usize, endian)
    }
}

impl UnitHeadersIter {
    // A unit that is refused ends the list.
    #[tactic(auto, using(crate::proofs::ParseLaws::header_there), unfolding(crate::specs::Units::next_unit))]
    pub fn next(self, section: &[u8], endian: RunTimeEndian) -> Next
        ensures answer { view_next result ≡ next_unit (section_of self.id) section.now self.offset endian }
        ensures section { result.units.id ≡ self.id }
    {
        let len = section.len();
        if MAX_SECTION < len || len < self.offset {
            return Next {
                unit: Err(Error::SizeLimit),
                units: self,
            };
        }
        if len == self.offset {
            return Next {
                unit: Ok(None),
                units: self,
            };
        }
        let (unit, offset) = match parse_header(self.id, section, self.offset, endian) {
            Ok((header, _)) => (Ok(Some(header)), self.offset + header.end()),
            Err(e) => (Err(e), len),
        };
        Next {
            unit,
            units: UnitHeadersIter { offset, ..self },
        }
    }
}
