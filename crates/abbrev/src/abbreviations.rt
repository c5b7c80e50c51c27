// A table in two lent slices, as a lookup takes it.

ghost use Rattle.std.specs.Prelude.{◌≡◌};
ghost use Rattle.abbrev.specs.Lookup.{row_found, leading, lookup};
ghost use Rattle.abbrev.specs.Rows.{Table};
ghost use Rattle.abbrev.specs.Table.{entry_limit};
ghost use Rattle.abbrev.specs.Views.{view_lookup};

use super::lookup::{Abbreviation, count_leading, find, judge_row};
use reader::error::Error;
use std::marker::Model;

// The words of a table that anybody may have written. A clause sees the words.
#[derive(Drop)]
pub struct Abbreviations<'a> {
    rows: &'a [u64],
    specs: &'a [u64],
    // So many leading rows are known to hold the codes 1, 2, 3, ..
    counted: usize,
}

impl<'a> Model for Abbreviations<'a> {
    ghost use Rattle.abbrev.specs.Rows.{Table};

    ghost Value = { Table };

    ghost use Rattle.std.specs.Prelude.{◌≤◌};
    ghost use Rattle.abbrev.specs.Lookup.{leading};

    ghost view = { λ a. record { rows = a.rows.now; specs = a.specs.now } };

    ghost invariant = { λ a. a.counted ≤ leading a.rows.now };
}

impl<'a> Abbreviations<'a> {
    // None of its rows is counted.
    pub fn new(rows: &'a [u64], specs: &'a [u64]) -> Abbreviations<'a>
        ensures { result ≡ record { rows = rows.now; specs = specs.now } }
    {
        Abbreviations {
            rows,
            specs,
            counted: 0,
        }
    }

    // The same table, which finds the codes of its leading rows with no search.
    pub fn counted(&self) -> Abbreviations<'a>
        ensures { result ≡ self.now }
    {
        Abbreviations {
            counted: self.leading(),
            ..*self
        }
    }

    // How many leading rows hold the codes 1, 2, 3, ..
    #[tactic(auto, using(crate::proofs::Chunks::leading_chunks), unfolding(crate::specs::Lookup::leading))]
    pub fn leading(&self) -> usize
        ensures { result ≡ leading self.now.rows }
    {
        let (rows, _) = self.rows.as_chunks::<5>();
        count_leading(rows)
    }

    // The `i`-th row; absent past the whole rows.
    #[tactic(auto, using(crate::proofs::Chunks::row_chunk), unfolding(crate::specs::Lookup::row_found))]
    pub fn row(&self, i: usize) -> Result<Option<Abbreviation>, Error>
        ensures { view_lookup result ≡ row_found entry_limit.most self.now.rows self.now.specs i }
    {
        let (rows, _) = self.rows.as_chunks::<5>();
        match rows.get(i) {
            Some(row) => judge_row(self.specs, row),
            None => Ok(None),
        }
    }

    #[tactic(auto, using(crate::proofs::Chunks::found_row, crate::proofs::Chunks::found_no_row), unfolding(crate::specs::Lookup::lookup))]
    fn search(&self, code: u64) -> Result<Option<Abbreviation>, Error>
        ensures { view_lookup result ≡ lookup entry_limit.most self.now.rows self.now.specs code }
    {
        if code == 0 {
            return Ok(None);
        }
        let (rows, _) = self.rows.as_chunks::<5>();
        match find(rows, code) {
            Some(row) => judge_row(self.specs, row),
            None => Ok(None),
        }
    }

    // gimli's `Abbreviations::get`: the lowest row with the code. In line: an entry that is passed is
    // little more than this, and a call would copy the row.
    #[tactic(auto, using(crate::proofs::Lookups::direct_row))]
    #[inline(always)]
    pub fn get(&self, code: u64) -> Result<Option<Abbreviation>, Error>
        ensures { view_lookup result ≡ lookup entry_limit.most self.now.rows self.now.specs code }
    {
        if 0 < code && code <= self.counted as u64 {
            return self.row((code - 1) as usize);
        }
        self.search(code)
    }

    // The specification rows, for `Abbreviation::attribute`.
    pub fn specs(&self) -> &'a [u64]
        ensures { result.now ≡ self.now.specs }
    {
        self.specs
    }
}
