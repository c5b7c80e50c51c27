// Items that are only passed: no entry is built for them, unless its jump is wanted.

ghost use Rattle.std.specs.Prelude.{List, ℕ, ◌≡◌, eqb, length, slice_index};
ghost use Rattle.reader.specs.Views.{view};
ghost use Rattle.std.specs.List.{list_any};
ghost use Rattle.abbrev.specs.Table.{entry_limit};
ghost use Rattle.entries.specs.Cursor.{plainly, by_jump, is_entry, stands_at};
ghost use Rattle.entries.specs.Entry.{sibling};
ghost use Rattle.entries.specs.Steps.{HasSpecs, may_jump, if_got, passed_item, Arrived};
ghost use Rattle.entries.specs.Pass.{told, told_if};
ghost use Rattle.entries.specs.Raw.{raw_entry};
ghost use Rattle.entries.specs.Views.{view_found, view_if, passed_of, view_passed};

use super::entry::SIBLING;
use super::kept::Kept;
use super::raw::{EntriesRaw, code_at};
use super::step::Step;
use abbrev::abbreviations::Abbreviations;
use abbrev::lookup::Abbreviation;
use reader::error::Error;
use reader::leb128::uleb128;

// The offset and depth of the item last held or passed.
#[derive(Clone, Copy)]
pub struct Last {
    pub offset: usize,
    pub depth: i64,
}

// Where reading goes on.
#[derive(Clone, Copy)]
pub struct Passing {
    pub raw: EntriesRaw,
    pub last: Last,
}

// Whether one of some specifications has the name DW_AT_sibling.
fn names_sibling(rows: &[[u64; 3]]) -> bool
    ensures { result ≡ list_any (λ row. eqb (slice_index row 0) sibling) rows.now }
{
    rows.iter().any(|row| row[0] == u64::from(SIBLING))
}

// Whether what a code stands for can offer a jump.
#[tactic(auto, using(crate::proofs::NameLaws::named_rows))]
fn may_jump(found: Option<Abbreviation>, abbreviations: &Abbreviations<'_>) -> bool
    requires { HasSpecs abbreviations.now.specs (view_found found) }
    ensures { result ≡ may_jump abbreviations.now.specs (view_found found) }
{
    let Some(
        Abbreviation {
            has_children,
            first,
            count,
            ..
        },
    ) = found
    else {
        return false;
    };
    let (rows, _) = abbreviations.specs().as_chunks();
    has_children && names_sibling(&rows[first..first + count])
}

// Of an entry its tag and how many values it has.
fn tell(found: Option<Abbreviation>) -> Option<(u16, usize)>
    ensures { view_if passed_of result ≡ told_if (view_found found) }
{
    found.map(|abbreviation| (abbreviation.tag, abbreviation.count))
}

impl Kept<'_> {
    // Past the item at the state's place: what `pass_entry` says, and the state behind it.
    #[tactic(auto, using(crate::proofs::PassLaws::told_refused, crate::proofs::PassLaws::told_passed, crate::proofs::PassLaws::told_not_passed, crate::proofs::RawLaws::code_onward, crate::proofs::RawLaws::raw_keeps))]
    pub(crate) fn pass_one(
        self,
        abbreviations: &Abbreviations<'_>,
    ) -> Result<(Option<(u16, usize)>, EntriesRaw), Error>
        ensures { view_passed self.entry.raw result ≡ told (raw_entry entry_limit.most self.entry.raw self.entry.bytes.now abbreviations.now.rows abbreviations.now.specs) }
    {
        let Kept { bytes, raw } = self;
        let (found, next) = code_at(bytes, abbreviations, raw.position)?;
        let after = Step { raw, next }.pass_values(bytes, abbreviations, found)?;
        Ok((tell(found), after))
    }

    // Past an item by reading it whole, and on to its jump.
    #[tactic(auto, using(crate::proofs::PassLaws::read_not_passed))]
    fn pass_read(self, abbreviations: &Abbreviations<'_>) -> Result<EntriesRaw, Error>
        ensures { if_got (view result) ≡ passed_item entry_limit.most self.entry.bytes.now abbreviations.now.rows abbreviations.now.specs self.entry.raw }
    {
        let Kept { bytes, raw } = self;
        let read = raw.read_entry(bytes, abbreviations);
        read.answer?;
        let after = Kept {
            bytes,
            raw: read.raw,
        };
        Ok(after.jump_from(read.entry))
    }

    // Past one item, and on to its jump.
    #[tactic(auto, using(crate::proofs::PassLaws::passed_refused, crate::proofs::PassLaws::passed_by_code, crate::proofs::PassLaws::has_specs, crate::proofs::RawLaws::code_onward))]
    fn pass_item(self, abbreviations: &Abbreviations<'_>) -> Result<EntriesRaw, Error>
        ensures { if_got (view result) ≡ passed_item entry_limit.most self.entry.bytes.now abbreviations.now.rows abbreviations.now.specs self.entry.raw }
    {
        let Kept { bytes, raw } = self;
        let (found, next) = code_at(bytes, abbreviations, raw.position)?;
        if may_jump(found, abbreviations) {
            return self.pass_read(abbreviations);
        }
        Step { raw, next }.pass_values(bytes, abbreviations, found)
    }

    // Passes items until the next one stands at a depth or is refused, or none is left. The rows are
    // counted where one is passed.
    pub(crate) fn pass_to(
        self,
        last: Last,
        abbreviations: &Abbreviations<'_>,
        depth: i64,
    ) -> Passing
        ensures { Arrived entry_limit.most self.entry.bytes.now abbreviations.now.rows abbreviations.now.specs (by_jump (length self.entry.bytes.now)) (stands_at depth) (record { raw = self.entry.raw; last = last }) result }
    {
        let Kept { bytes, raw } = self;
        let mut here = Passing { raw, last };
        if raw.depth == depth {
            return here;
        }
        let counted = abbreviations.counted();
        while here.raw.position < bytes.len() && here.raw.depth != depth {
            let kept = Kept {
                bytes,
                raw: here.raw,
            };
            let Ok(raw) = kept.pass_item(&counted) else {
                return here;
            };
            here = Passing {
                raw,
                last: kept.place(),
            };
        }
        here
    }

    // Passes nulls, whatever the table.
    pub(crate) fn pass_nulls(self, last: Last) -> Passing
        ensures { (rows specs : List ℕ) → Arrived entry_limit.most self.entry.bytes.now rows specs plainly is_entry (record { raw = self.entry.raw; last = last }) result }
    {
        let Kept { bytes, raw } = self;
        let mut here = Passing { raw, last };
        while let Ok((code, next)) = uleb128(bytes, here.raw.position) {
            if code != 0 {
                return here;
            }
            let kept = Kept {
                bytes,
                raw: here.raw,
            };
            let step = Step {
                raw: here.raw,
                next,
            };
            here = Passing {
                raw: step.past(None),
                last: kept.place(),
            };
        }
        here
    }
}
