// What rows that anybody may have written say, and gimli's accessors.

ghost use Rattle.std.specs.Prelude.{◌≡◌, ◌+◌, eqb, length, slice_index, option_map};
ghost use Rattle.std.specs.List.{list_all, find, take_while, enumerate_from};
ghost use Rattle.abbrev.specs.Lookup.{spec_at, fair, specs_kept, row_at, keeps_sizes, judged_row, specification_at, specification_in, implicit_const_of};
ghost use Rattle.abbrev.specs.Table.{entry_limit};
ghost use Rattle.abbrev.specs.Views.{view_lookup, view_specified, view_constant, found_of, specification_of};

use super::table::{IMPLICIT_CONST, MAX_ATTRIBUTES};
use reader::error::Error;
use reader::twos::from_word;

// An abbreviation by its row.
#[derive(Clone, Copy, Debug, PartialEq, Eq)]
pub struct Abbreviation {
    pub code: u64,
    pub tag: u16,
    pub has_children: bool,
    pub first: usize,
    pub count: usize,
}

#[derive(Clone, Copy, Debug, PartialEq, Eq)]
pub struct AttributeSpecification {
    pub name: u16,
    pub form: u16,
    pub constant: u64,
}

// Whether names and forms have 16 bits.
fn all_fair(specs: &[[u64; 3]]) -> bool
    ensures { result ≡ list_all (λ x. fair (spec_at x 0)) specs.now }
{
    specs
        .iter()
        .all(|&[name, form, _]| name <= 65535 && form <= 65535)
}

// Whether `count` specifications from `first` on keep document 01's sizes.
#[tactic(auto, using(crate::proofs::Chunks::kept_chunks))]
fn within(specs: &[u64], first: u64, count: u64) -> bool
    ensures { result ≡ specs_kept entry_limit.most specs.now first count }
{
    let (specs, _) = specs.as_chunks::<3>();
    let whole = specs.len() as u64;
    count <= MAX_ATTRIBUTES as u64
        && count <= whole
        && first <= whole - count
        && all_fair(&specs[first as usize..(first + count) as usize])
}

// A row found for a code, held to document 01's sizes.
#[tactic(auto, unfolding(crate::specs::Lookup::judged_row))]
pub(crate) fn judge_row(specs: &[u64], row: &[u64; 5]) -> Result<Option<Abbreviation>, Error>
    ensures { view_lookup result ≡ judged_row entry_limit.most specs.now (row_at row.now 0) }
{
    let &[code, tag, children, first, count] = row;
    if tag == 0 || 65535 < tag || 1 < children || !within(specs, first, count) {
        return Err(Error::SizeLimit);
    }
    Ok(Some(Abbreviation {
        code,
        tag: tag as u16,
        has_children: children == 1,
        first: first as usize,
        count: count as usize,
    }))
}

// The lowest row with a code.
pub(crate) fn find(rows: &[[u64; 5]], code: u64) -> Option<&[u64; 5]>
    ensures { option_map (λ row. row.now) result ≡ find (λ row. eqb (slice_index row 0) code) rows.now }
{
    rows.iter().find(|row| row[0] == code)
}

// How many leading rows hold the codes 1, 2, 3, ..
pub(crate) fn count_leading(rows: &[[u64; 5]]) -> usize
    ensures { result ≡ length (take_while (λ x. eqb (slice_index x.1 0) (x.0 + 1)) (enumerate_from 0 rows.now)) }
{
    rows.iter()
        .enumerate()
        .take_while(|(i, row)| row[0] == *i as u64 + 1)
        .count()
}

// One specification row by its number.
#[tactic(auto, using(crate::proofs::Chunks::spec_chunk), unfolding(crate::specs::Lookup::specification_at))]
pub fn specification(specs: &[u64], i: usize) -> Result<Option<AttributeSpecification>, Error>
    ensures { view_specified result ≡ specification_at specs.now i }
{
    let (specs, _) = specs.as_chunks::<3>();
    let Some(spec) = specs.get(i) else {
        return Ok(None);
    };
    let &[name, form, constant] = spec;
    if 65535 < name || 65535 < form {
        return Err(Error::SizeLimit);
    }
    Ok(Some(AttributeSpecification {
        name: name as u16,
        form: form as u16,
        constant,
    }))
}

impl Abbreviation {
    pub fn code(self) -> u64
        ensures { result ≡ (found_of self).code }
    {
        self.code
    }

    pub fn tag(self) -> u16
        ensures { result ≡ (found_of self).tag }
    {
        self.tag
    }

    pub fn has_children(self) -> bool
        ensures { result ≡ eqb (found_of self).children 1 }
    {
        self.has_children
    }

    // Whether a row that anybody may have made keeps document 01's sizes.
    pub fn keeps_sizes(self, specs: &[u64]) -> bool
        ensures { result ≡ keeps_sizes entry_limit.most specs.now (found_of self) }
    {
        self.tag != 0 && within(specs, self.first as u64, self.count as u64)
    }

    // gimli's `attributes`, by number.
    #[tactic(auto, unfolding(crate::specs::Lookup::specification_at, crate::specs::Lookup::specification_in))]
    pub fn attribute(self, specs: &[u64], i: usize) -> Result<Option<AttributeSpecification>, Error>
        ensures { view_specified result ≡ specification_in specs.now (found_of self) i }
    {
        if self.count <= i {
            return Ok(None);
        }
        match self.first.checked_add(i) {
            Some(at) => specification(specs, at),
            None => Ok(None),
        }
    }
}

impl AttributeSpecification {
    pub fn name(self) -> u16
        ensures { result ≡ (specification_of self).name }
    {
        self.name
    }

    pub fn form(self) -> u16
        ensures { result ≡ (specification_of self).form }
    {
        self.form
    }

    // The constant of DW_FORM_implicit_const.
    #[tactic(auto, unfolding(crate::specs::Lookup::implicit_const_of))]
    pub fn implicit_const_value(self) -> Option<i64>
        ensures { view_constant result ≡ implicit_const_of (specification_of self) }
    {
        (u64::from(self.form) == IMPLICIT_CONST).then_some(from_word(self.constant))
    }
}
