// A table that is being read into lent words.
// Kept (5): bytes and place as in reader's fields.rt: the place alone moves, and is half of each answer.

ghost use Rattle.std.specs.Prelude.{◌≡◌, not, eqb, ◌++◌, ◌+◌, ◌*◌, ◌/◌, ◌≤◌, ◌<◌, length, take, slice_index};
ghost use Rattle.std.specs.List.{list_all};
ghost use Rattle.abbrev.specs.Lookup.{column};
ghost use Rattle.abbrev.specs.Table.{has, Fresh};

use super::rows::put_row;
use super::table::{Head, parse_attributes, parse_head};
use reader::error::Error;

// So many rows hold the abbreviations that were read, and so many others their specifications. No code
// is above `highest`, so that in rising order, the order that compilers write, none is searched for.
#[derive(Drop)]
pub(crate) struct TableBuilder<'a> {
    pub(crate) rows: &'a mut [u64],
    pub(crate) specs: &'a mut [u64],
    pub(crate) count: usize,
    pub(crate) used: usize,
    pub(crate) highest: u64,
    ghost row: { count ≤ length rows.now / 5 },
    ghost room: { used ≤ length specs.now / 3 },
    ghost fresh: { Fresh highest (column count rows.now) },
}

fn none_has(rows: &[[u64; 5]], code: u64) -> bool
    ensures { result ≡ list_all (λ row. not (eqb (slice_index row 0) code)) rows.now }
{
    rows.iter().all(|row| row[0] != code)
}

impl TableBuilder<'_> {
    ghost use Rattle.std.specs.Prelude.{[], ◌∷◌};
    ghost use Rattle.abbrev.specs.Steps.{Inserted, Entered, Built};

    // Whether no row has the code.
    #[tactic(auto, using(crate::proofs::Chunks::new_chunks))]
    fn is_new(&self, code: u64) -> bool
        ensures { result ≡ not (has code (column self.now.count self.now.rows.now)) }
    {
        let (rows, _) = self.rows.as_chunks::<5>();
        self.highest < code || none_has(&rows[..self.count], code)
    }

    // A row for an abbreviation, the `count` specifications of which lie behind those in use.
    // Kept (6): `/ 3` counts rows, as `self.specs.as_chunks::<3>().0.len()` would in more words.
    fn insert(&mut self, head: Head, count: usize) -> Result<(), Error>
        ensures { Inserted self.old self.new head count result }
    {
        if !self.is_new(head.code) {
            return Err(Error::DuplicateAbbreviationCode);
        }
        if self.specs.len() / 3 - self.used < count {
            return Err(Error::AbbreviationsFull);
        }
        let row = [
            head.code,
            head.tag,
            head.children,
            self.used as u64,
            count as u64,
        ];
        if put_row(self.rows, self.count, &row).is_none() {
            return Err(Error::AbbreviationsFull);
        }
        self.count += 1;
        self.used += count;
        self.highest = self.highest.max(head.code);
        Ok(())
    }

    // One abbreviation more: the place behind it. None at the end.
    #[tactic(auto, using(crate::proofs::Tables::refused_steps))]
    fn parse_abbreviation(&mut self, s: &[u8], at: usize) -> Result<Option<usize>, Error>
        ensures { Entered s.now at self.old self.new result }
    {
        let Some((head, p)) = parse_head(s, at)? else {
            return Ok(None);
        };
        let (count, next) = parse_attributes(s, p, self.specs, self.used)?;
        self.insert(head, count)?;
        Ok(Some(next))
    }

    // The whole table.
    pub(crate) fn parse(&mut self, s: &[u8], at: usize) -> Result<(), Error>
        requires { (self.old.count ≡ 0) × (self.old.used ≡ 0) }
        ensures { Built s.now at self.old self.new result }
    {
        let mut p = at;
        while let Some(next) = self.parse_abbreviation(s, p)? {
            p = next;
        }
        Ok(())
    }
}
