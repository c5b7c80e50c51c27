// Parts of a unit, handed back out of the caller's slice: `OffsetOutOfBounds` where there is none, and
// `SizeLimit` for a section that is too long.

ghost use Rattle.unit.specs.Range.{Handed, part, unit_bytes, entries_buf, range_of, range_from, range_to};

use super::header::UnitHeader;
use reader::common::MAX_SECTION;
use reader::error::Error;

// The bytes from `from` up to `to`.
#[tactic(auto, using(crate::proofs::RangeLaws::part_got))]
pub fn part(bytes: &[u8], from: usize, to: usize) -> Result<&[u8], Error>
    ensures { Handed (part bytes.now from to) result }
{
    bytes.get(from..to).ok_or(Error::OffsetOutOfBounds)
}

impl UnitHeader {
    // The unit's own bytes, from its first length byte on.
    #[tactic(auto, using(crate::proofs::RangeLaws::part_sum), unfolding(crate::specs::Range::unit_bytes))]
    pub fn bytes(self, section: &[u8]) -> Result<&[u8], Error>
        ensures { Handed (unit_bytes self section.now) result }
    {
        if MAX_SECTION < section.len() {
            return Err(Error::SizeLimit);
        }
        part(section, self.offset, self.offset.saturating_add(self.end()))
    }

    // gimli's `entries_buf`, out of the unit's own bytes: empty where the header is the whole unit.
    #[tactic(auto, using(crate::proofs::RangeLaws::part_most), unfolding(crate::specs::Range::entries_buf))]
    pub fn entries_buf(self, unit: &[u8]) -> Result<&[u8], Error>
        ensures { Handed (entries_buf self unit.now) result }
    {
        part(unit, self.size_of_header(), self.end())
    }

    // The entries from `start` up to `end`, offsets in the unit, out of the unit's own bytes.
    #[tactic(auto, unfolding(crate::specs::Range::range_of))]
    pub fn range(self, unit: &[u8], start: usize, end: usize) -> Result<&[u8], Error>
        ensures { Handed (range_of self unit.now start end) result }
    {
        if !self.is_in_bounds(start) || !self.is_in_bounds(end) {
            return Err(Error::OffsetOutOfBounds);
        }
        part(unit, start, end)
    }

    // The entries from `start` on.
    #[tactic(auto, using(crate::proofs::RangeLaws::part_most), unfolding(crate::specs::Range::range_from))]
    pub fn range_from(self, unit: &[u8], start: usize) -> Result<&[u8], Error>
        ensures { Handed (range_from self unit.now start) result }
    {
        if !self.is_in_bounds(start) {
            return Err(Error::OffsetOutOfBounds);
        }
        part(unit, start, self.end())
    }

    // The entries up to `end`.
    #[tactic(auto, unfolding(crate::specs::Range::range_to))]
    pub fn range_to(self, unit: &[u8], end: usize) -> Result<&[u8], Error>
        ensures { Handed (range_to self unit.now end) result }
    {
        if !self.is_in_bounds(end) {
            return Err(Error::OffsetOutOfBounds);
        }
        part(unit, self.size_of_header(), end)
    }
}
