// The lent words that a table is read into.

ghost use Rattle.std.specs.Prelude.{◌≡◌};
ghost use Rattle.abbrev.specs.Lent.{TabledIn, Wiped};
ghost use Rattle.abbrev.specs.Rows.{Table};
ghost use Rattle.abbrev.specs.Steps.{Parsed};

use super::abbreviations::Abbreviations;
use super::builder::TableBuilder;
use reader::common::MAX_SECTION;
use reader::error::Error;
use reader::fill::fill;

#[derive(Drop)]
pub struct LentRows<'a> {
    pub rows: &'a mut [u64],
    pub specs: &'a mut [u64],
}

// The table at an offset; after a refusal the words are not zero yet.
// Kept (5, 6): tried with `&mut LentRows`: the proof doesn't close, since nothing says what the two slices hold once the builder
// gives them back. They are C's words; for `as_chunks_mut` see rows.rt.
#[tactic(auto, unfolding(crate::specs::Table::abbreviations_at))]
fn parse_at(
    section: &[u8],
    offset: u64,
    rows: &mut [u64],
    specs: &mut [u64],
) -> Result<usize, Error>
    ensures { Parsed section.now offset rows.old specs.old rows.new specs.new result }
{
    if MAX_SECTION < section.len() {
        return Err(Error::SizeLimit);
    }
    let at = offset as usize;
    if section.len() < at {
        return Err(Error::UnexpectedEof);
    }
    let mut builder = TableBuilder {
        rows,
        specs,
        count: 0,
        used: 0,
        highest: 0,
    };
    builder.parse(section, at)?;
    let TableBuilder {
        rows,
        specs,
        count,
        used,
        ..
    } = builder;
    fill(rows, count * 5, 0);
    fill(specs, used * 3, 0);
    Ok(count)
}

impl LentRows<'_> {
    // gimli's `DebugAbbrev::abbreviations`: the table at an offset of .debug_abbrev, in place of what
    // there was. How many abbreviations it has.
    pub fn read_table(&mut self, section: &[u8], offset: u64) -> Result<usize, Error>
        ensures { TabledIn section.now offset self.old self.new result }
    {
        let result = parse_at(section, offset, self.rows, self.specs);
        if result.is_err() {
            self.wipe();
        }
        result
    }

    // No table: all words are zero.
    pub fn wipe(&mut self)
        ensures { Wiped self.old self.new }
    {
        self.rows.fill(0);
        self.specs.fill(0);
    }

    // The table that was read; none of its rows is counted.
    pub fn table(&self) -> Abbreviations<'_>
        ensures { result ≡ record { rows = self.now.rows.now; specs = self.now.specs.now } }
    {
        Abbreviations::new(self.rows, self.specs)
    }
}
