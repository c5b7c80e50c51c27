// A state of the raw reader that keeps document 01's sizes over the bytes of its part.

ghost use Rattle.std.specs.Prelude.{length};
ghost use Rattle.entries.specs.Steps.{KeptRaw};

use super::entry::Entry;
use super::pass::Last;
use super::raw::{EntriesRaw, code_at};
use super::step::Step;
use abbrev::abbreviations::Abbreviations;

#[derive(Clone, Copy)]
pub(crate) struct Kept<'a> {
    pub(crate) bytes: &'a [u8],
    pub(crate) raw: EntriesRaw,
    ghost kept: { KeptRaw (length bytes.now) raw },
}

impl Kept<'_> {
    ghost use Rattle.std.specs.Prelude.{◌≡◌, ◌+◌};
    ghost use Rattle.abbrev.specs.Table.{entry_limit};
    ghost use Rattle.entries.specs.Cursor.{depth_past, jumped};
    ghost use Rattle.entries.specs.Views.{view_entry};

    // Where the item stands that is read next.
    pub(crate) fn place(self) -> Last
        ensures { result ≡ record { offset = self.entry.raw.start + self.entry.raw.position; depth = self.entry.raw.depth } }
    {
        Last {
            offset: self.raw.start + self.raw.position,
            depth: self.raw.depth,
        }
    }

    // The depth after the code that is read next, whatever follows it.
    #[tactic(auto, using(crate::proofs::RawLaws::code_onward))]
    pub(crate) fn depth_past(self, abbreviations: &Abbreviations<'_>) -> i64
        ensures { result ≡ depth_past entry_limit.most self.entry.bytes.now abbreviations.now.rows abbreviations.now.specs self.entry.raw }
    {
        let Kept { bytes, raw } = self;
        match code_at(bytes, abbreviations, raw.position) {
            Ok((found, next)) => Step { raw, next }.past(found).depth,
            Err(_) => raw.depth,
        }
    }

    // Where reading goes on after an entry: at its jump, if it offers one.
    #[tactic(auto, using(crate::proofs::SeekLaws::jump_in), unfolding(crate::specs::Cursor::jumped))]
    pub(crate) fn jump_from(self, entry: Entry) -> EntriesRaw
        ensures { result ≡ jumped (length self.entry.bytes.now) self.entry.raw (view_entry entry) }
    {
        let Kept { bytes, raw } = self;
        match entry.jump(raw.start + raw.position, raw.start + bytes.len()) {
            Some(target) => EntriesRaw {
                position: target as usize - raw.start,
                depth: entry.depth,
                ..raw
            },
            None => raw,
        }
    }
}
