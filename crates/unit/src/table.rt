// The table of a unit.

ghost use Rattle.abbrev.specs.Lent.{TabledIn};

use super::header::UnitHeader;
use abbrev::lent::LentRows;
use reader::error::Error;

impl UnitHeader {
    // The table that this header points to, out of .debug_abbrev into lent rows: how many abbreviations it has.
    pub fn abbreviations(self, section: &[u8], lent: &mut LentRows<'_>) -> Result<usize, Error>
        ensures { TabledIn section.now self.debug_abbrev_offset lent.old lent.new result }
    {
        lent.read_table(section, self.debug_abbrev_offset)
    }
}
