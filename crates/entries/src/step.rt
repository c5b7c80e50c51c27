// A step of the raw reader: from a state that keeps document 01's sizes to a place further on.

ghost use Rattle.entries.specs.Steps.{Onward};

use super::entry::{Entry, null_at};
use super::raw::{EntriesRaw, RawEntry};
use abbrev::abbreviations::Abbreviations;
use abbrev::lookup::Abbreviation;
use attribute::pass::pass_attributes;
use attribute::value::Attribute;
use reader::error::Error;

#[derive(Clone, Copy)]
pub(crate) struct Step {
    pub(crate) raw: EntriesRaw,
    pub(crate) next: usize,
    ghost onward: { Onward raw next },
}

impl Step {
    ghost use Rattle.std.specs.Prelude.{map, ◌≡◌, ◌+◌, ◌-ℤ◌, pos};
    ghost use Rattle.reader.specs.Answer.{gives};
    ghost use Rattle.reader.specs.Views.{view};
    ghost use Rattle.abbrev.specs.Table.{entry_limit};
    ghost use Rattle.abbrev.specs.Views.{found_of};
    ghost use Rattle.attribute.specs.Views.{view_attribute};
    ghost use Rattle.entries.specs.Entry.{null_entry};
    ghost use Rattle.entries.specs.Raw.{moved_to, taken};
    ghost use Rattle.entries.specs.Steps.{depth_by, took_entry, passed_code};
    ghost use Rattle.entries.specs.Views.{view_found, view_raw_entry};

    // The state past a code, by what that stands for.
    pub(crate) fn past(self, found: Option<Abbreviation>) -> EntriesRaw
        ensures { result ≡ moved_to self.raw self.next (depth_by (view_found found) self.raw.depth) }
    {
        let depth = match found {
            Some(abbreviation) => self.raw.depth + i64::from(abbreviation.has_children),
            None => self.raw.depth - 1,
        };
        EntriesRaw {
            position: self.next,
            depth,
            ..self.raw
        }
    }

    // A null at the state's place.
    pub(crate) fn take_null(self) -> RawEntry
        ensures { view_raw_entry result ≡ taken entry_limit.most self.raw (self.raw.depth -ℤ pos 1) (gives (null_entry entry_limit.most (self.raw.start + self.raw.position) self.raw.depth) self.next) }
    {
        RawEntry {
            answer: Ok(false),
            entry: null_at(self.raw.start + self.raw.position, self.raw.depth),
            raw: self.past(None),
        }
    }

    // The entry at the state's place, whose values were read.
    pub(crate) fn take_entry(self, abbreviation: Abbreviation, attrs: [Attribute; 64]) -> RawEntry
        ensures { view_raw_entry result ≡ took_entry self.raw (found_of abbreviation) (map view_attribute attrs) self.next }
    {
        let Abbreviation {
            tag,
            has_children,
            count,
            ..
        } = abbreviation;
        RawEntry {
            answer: Ok(true),
            entry: Entry {
                tag,
                has_children,
                offset: self.raw.start + self.raw.position,
                depth: self.raw.depth,
                count,
                attrs,
            },
            raw: self.past(Some(abbreviation)),
        }
    }

    // Past what a code stands for, from the place behind it. Inlined, since a call would copy `found`.
    #[inline(always)]
    pub(crate) fn pass_values(
        self,
        bytes: &[u8],
        abbreviations: &Abbreviations<'_>,
        found: Option<Abbreviation>,
    ) -> Result<EntriesRaw, Error>
        ensures { view result ≡ passed_code entry_limit.most bytes.now abbreviations.now.specs self.raw (view_found found) self.next }
    {
        let coded = self.past(found);
        let Some(abbreviation) = found else {
            return Ok(coded);
        };
        let position = pass_attributes(
            bytes,
            self.next,
            self.raw.source(),
            abbreviation,
            abbreviations.specs(),
        )?;
        Ok(EntriesRaw { position, ..coded })
    }
}
