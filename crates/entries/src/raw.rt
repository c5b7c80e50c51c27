// The raw reader: its state goes in by value and comes back beside the answer. A refusal keeps it.

ghost use Rattle.std.specs.Prelude.{map, ◌≡◌, ◌+◌, ◌≤◌, ◌<◌, leb, ◌-ℤ◌, pos, nat_abs, length};
ghost use Rattle.reader.specs.Answer.{gives};
ghost use Rattle.reader.specs.Errors.{number_of};
ghost use Rattle.reader.specs.Views.{view, view_read};
ghost use Rattle.abbrev.specs.Lookup.{lookup};
ghost use Rattle.abbrev.specs.Table.{entry_limit};
ghost use Rattle.abbrev.specs.Views.{found_of, specification_of, view_lookup};
ghost use Rattle.attribute.specs.Views.{view_attribute};
ghost use Rattle.entries.specs.Cursor.{depth_past};
ghost use Rattle.entries.specs.Entry.{null_entry};
ghost use Rattle.entries.specs.Pass.{told, told_if};
ghost use Rattle.entries.specs.Raw.{keeps_raw, moved_to, start_of, source_of, unit_source, opened, empty_raw, offset_of, raw_abbreviation, refused_entry, taken, raw_entry, raw_attribute, raw_attributes, raw_skip};
ghost use Rattle.entries.specs.Read.{abbreviation_at, code_for};
ghost use Rattle.entries.specs.Steps.{KeptRaw, Onward, depth_by, took_entry, passed_code};
ghost use Rattle.entries.specs.Views.{view_found, view_if, passed_of, view_code, view_raw_abbreviation, view_raw_entry, view_passed, view_raw_passed, view_raw_attribute, view_raw_attributes, view_raw_skipped};

use super::entry::{Entry, null_at};
use super::kept::Kept;
use super::step::Step;
use abbrev::abbreviations::Abbreviations;
use abbrev::lookup::{Abbreviation, AttributeSpecification};
use attribute::parse::{Attributes, MOST, keeps_place, parse_attribute, read_attributes};
use attribute::skip::skip_attributes;
use attribute::source::Source;
use attribute::value::Attribute;
use reader::answer::Read;
use reader::common::Encoding;
use reader::endianity::RunTimeEndian;
use reader::error::Error;
use reader::leb128::uleb128;
use unit::header::UnitHeader;

#[derive(Clone, Copy, Debug, PartialEq, Eq)]
pub struct EntriesRaw {
    // the offset in the unit where the bytes start
    pub start: usize,
    pub position: usize,
    // of the entry that is read next
    pub depth: i64,
    pub encoding: Encoding,
    pub endian: RunTimeEndian,
}

// What a call says, and the state behind it.
// Kept (1): 01 has a call hand its state back beside the answer, in a struct, and keeps it after a refusal.
#[derive(Clone, Copy)]
pub struct Moved<T> {
    pub answer: Result<T, Error>,
    pub raw: EntriesRaw,
}

// None for a null.
pub type RawAbbreviation = Moved<Option<Abbreviation>>;

pub type RawAttribute = Moved<Attribute>;

pub type RawSkipped = Moved<()>;

// Of an entry its tag and how many values it has, none for a null.
pub type RawPassed = Moved<Option<(u16, usize)>>;

// Places that hold no value hold one fixed attribute.
// Kept (1, 6): as `Moved`; 01 has 64 places by value (no heap), and the abbreviation, which the caller has, counts them.
#[derive(Clone, Copy)]
pub struct RawAttributes {
    pub answer: Result<(), Error>,
    pub attrs: [Attribute; 64],
    pub raw: EntriesRaw,
}

// Whether an entry or a null was read; after a refusal it is a null at offset and depth 0.
// Kept (1): as `Moved`; no Option of an entry, since a null too has an offset and a depth, which a cursor holds (01).
#[derive(Clone, Copy)]
pub struct RawEntry {
    pub answer: Result<bool, Error>,
    pub entry: Entry,
    pub raw: EntriesRaw,
}

// Whether a depth is no further from 0 than a position.
pub(crate) fn keeps_depth(depth: i64, position: usize) -> bool
    ensures { result ≡ leb (nat_abs depth) position }
{
    depth.unsigned_abs() <= position as u64
}

// What a code stands for, none for a null. It takes the code and not the bytes: a slice that is handed on
// once more is waited for.
fn code_for(code: Read<u64>, abbreviations: &Abbreviations<'_>) -> Read<Option<Abbreviation>>
    ensures { view_code result ≡ code_for (lookup entry_limit.most abbreviations.now.rows abbreviations.now.specs) (view_read code) }
{
    let (number, next) = code?;
    if number == 0 {
        return Ok((None, next));
    }
    match abbreviations.get(number)? {
        Some(abbreviation) => Ok((Some(abbreviation), next)),
        None => Err(Error::InvalidAbbreviationCode),
    }
}

// What stands at a place that has a code, and the place behind the code.
#[tactic(auto, unfolding(crate::specs::Read::abbreviation_at))]
pub(crate) fn code_at(
    bytes: &[u8],
    abbreviations: &Abbreviations<'_>,
    at: usize,
) -> Read<Option<Abbreviation>>
    ensures { view_code result ≡ abbreviation_at entry_limit.most bytes.now abbreviations.now.rows abbreviations.now.specs at }
{
    code_for(uleb128(bytes, at), abbreviations)
}

// How the values of a unit's part from an offset on are read.
pub(crate) fn source_at(header: UnitHeader, start: usize, endian: RunTimeEndian) -> Source
    ensures { result ≡ record { start = start; encoding = header.encoding; endian = endian } }
{
    Source {
        start,
        encoding: header.encoding,
        endian,
    }
}

// The state before the first byte.
pub(crate) fn start_of(source: Source) -> EntriesRaw
    ensures { result ≡ start_of source }
{
    let Source {
        start,
        encoding,
        endian,
    } = source;
    EntriesRaw {
        start,
        position: 0,
        depth: 0,
        encoding,
        endian,
    }
}

// Refused: the state is kept.
fn refuse_entry(raw: EntriesRaw, error: Error) -> RawEntry
    ensures { view_raw_entry result ≡ refused_entry entry_limit.most raw (number_of error) }
{
    RawEntry {
        answer: Err(error),
        entry: null_at(0, 0),
        raw,
    }
}

impl EntriesRaw {
    // Over the bytes of a part.
    #[tactic(auto, unfolding(crate::specs::Raw::opened))]
    pub fn new(bytes: &[u8], source: Source) -> Result<EntriesRaw, Error>
        ensures { view result ≡ opened (length bytes.now) source.start source.encoding source.endian }
    {
        if keeps_place(bytes.len(), source.start, 0) {
            return Ok(start_of(source));
        }
        Err(Error::SizeLimit)
    }

    // Whether a state that anybody may have made keeps document 01's sizes over so many bytes.
    pub fn keeps_sizes(self, count: usize) -> bool
        ensures { result ≡ keeps_raw count self }
    {
        keeps_place(count, self.start, self.position) && keeps_depth(self.depth, self.position)
    }

    // Before the root of a unit, over the part that `entries_buf` hands on. Nothing is asked of the part
    // here: a call that reads refuses one that is too long.
    pub fn at_start(header: UnitHeader, endian: RunTimeEndian) -> EntriesRaw
        ensures { result ≡ start_of (unit_source header endian) }
    {
        start_of(source_at(header, header.root_offset(), endian))
    }

    // What stays the same while its entries are read.
    pub fn source(self) -> Source
        ensures { result ≡ source_of self }
    {
        let EntriesRaw {
            start,
            encoding,
            endian,
            ..
        } = self;
        Source {
            start,
            encoding,
            endian,
        }
    }

    #[tactic(auto, unfolding(crate::specs::Raw::empty_raw))]
    pub fn is_empty(self, bytes: &[u8]) -> bool
        ensures { result ≡ empty_raw (length bytes.now) self }
    {
        bytes.len() <= self.position
    }

    // Refused with 1 for a made-up state.
    #[tactic(auto, unfolding(crate::specs::Raw::offset_of))]
    pub fn next_offset(self) -> Result<usize, Error>
        ensures { view result ≡ offset_of self }
    {
        let offset = self.start.saturating_add(self.position);
        if MOST < offset {
            return Err(Error::SizeLimit);
        }
        Ok(offset)
    }

    pub fn next_depth(self) -> i64
        ensures { result ≡ self.depth }
    {
        self.depth
    }

    // A refusal keeps the state.
    fn refuse<T>(self, error: Error) -> Moved<T>
        ensures answer { result.answer ≡ Err error }
        ensures raw { result.raw ≡ self }
    {
        Moved {
            answer: Err(error),
            raw: self,
        }
    }

    // gimli's `read_abbreviation`.
    #[tactic(auto, using(crate::proofs::RawLaws::code_onward, crate::proofs::RawLaws::raw_kept), unfolding(crate::specs::Raw::raw_abbreviation))]
    pub fn read_abbreviation(
        self,
        bytes: &[u8],
        abbreviations: &Abbreviations<'_>,
    ) -> RawAbbreviation
        ensures { view_raw_abbreviation result ≡ raw_abbreviation entry_limit.most self bytes.now abbreviations.now.rows abbreviations.now.specs }
    {
        if !self.keeps_sizes(bytes.len()) {
            return self.refuse(Error::SizeLimit);
        }
        let (found, next) = match code_at(bytes, abbreviations, self.position) {
            Ok(read) => read,
            Err(e) => return self.refuse(e),
        };
        Moved {
            answer: Ok(found),
            raw: Step { raw: self, next }.past(found),
        }
    }

    // gimli's `read_attribute`.
    #[tactic(auto, unfolding(crate::specs::Raw::raw_attribute))]
    pub fn read_attribute(self, bytes: &[u8], spec: AttributeSpecification) -> RawAttribute
        ensures { view_raw_attribute result ≡ raw_attribute self bytes.now (specification_of spec) }
    {
        if !self.keeps_sizes(bytes.len()) {
            return self.refuse(Error::SizeLimit);
        }
        match parse_attribute(bytes, self.position, self.source(), spec) {
            Ok((attribute, next)) => Moved {
                answer: Ok(attribute),
                raw: EntriesRaw {
                    position: next,
                    ..self
                },
            },
            Err(e) => self.refuse(e),
        }
    }

    // gimli's `read_attributes`, of an abbreviation.
    #[tactic(auto, unfolding(crate::specs::Raw::raw_attributes, attribute::specs::Attributes::stored))]
    pub fn read_attributes(
        self,
        bytes: &[u8],
        abbreviation: Abbreviation,
        specs: &[u64],
    ) -> RawAttributes
        ensures { view_raw_attributes result ≡ raw_attributes entry_limit.most self bytes.now specs.now (found_of abbreviation) }
    {
        if !self.keeps_sizes(bytes.len()) {
            return RawAttributes {
                answer: Err(Error::SizeLimit),
                attrs: [Attribute::none(); 64],
                raw: self,
            };
        }
        let Attributes { attrs, end } = read_attributes(
            bytes,
            self.position,
            self.source(),
            abbreviation,
            specs,
        );
        let (answer, raw) = match end {
            Ok(position) => (Ok(()), EntriesRaw { position, ..self }),
            Err(e) => (Err(e), self),
        };
        RawAttributes { answer, attrs, raw }
    }

    // gimli's `skip_attributes`.
    #[tactic(auto, unfolding(crate::specs::Raw::raw_skip))]
    pub fn skip_attributes(
        self,
        bytes: &[u8],
        abbreviation: Abbreviation,
        specs: &[u64],
    ) -> RawSkipped
        ensures { view_raw_skipped result ≡ raw_skip entry_limit.most self bytes.now specs.now (found_of abbreviation) }
    {
        if !self.keeps_sizes(bytes.len()) {
            return self.refuse(Error::SizeLimit);
        }
        let end = skip_attributes(bytes, self.position, self.source(), abbreviation, specs);
        let next = match end {
            Ok(next) => next,
            Err(e) => return self.refuse(e),
        };
        Moved {
            answer: Ok(()),
            raw: EntriesRaw {
                position: next,
                ..self
            },
        }
    }

    // gimli's `read_entry`. What is refused returns at once: where arms meet, the entry is copied once more.
    #[tactic(auto, using(crate::proofs::RawLaws::entry_onward, crate::proofs::RawLaws::entry_read, crate::proofs::RawLaws::entry_refused, crate::proofs::RawLaws::code_onward, crate::proofs::RawLaws::raw_kept), unfolding(crate::specs::Raw::raw_entry, crate::specs::Read::entry_at, crate::specs::Read::entry_after))]
    pub fn read_entry(self, bytes: &[u8], abbreviations: &Abbreviations<'_>) -> RawEntry
        ensures { view_raw_entry result ≡ raw_entry entry_limit.most self bytes.now abbreviations.now.rows abbreviations.now.specs }
    {
        if !self.keeps_sizes(bytes.len()) {
            return refuse_entry(self, Error::SizeLimit);
        }
        let (found, next) = match code_at(bytes, abbreviations, self.position) {
            Ok(read) => read,
            Err(e) => return refuse_entry(self, e),
        };
        let Some(abbreviation) = found else {
            return Step { raw: self, next }.take_null();
        };
        let read = read_attributes(
            bytes,
            next,
            self.source(),
            abbreviation,
            abbreviations.specs(),
        );
        let after = match read.end {
            Ok(after) => after,
            Err(e) => return refuse_entry(self, e),
        };
        Step {
            raw: self,
            next: after,
        }
        .take_entry(abbreviation, read.attrs)
    }

    // Past what `read_entry` would read, with nothing stored.
    #[tactic(auto, using(crate::proofs::RawLaws::raw_kept), unfolding(crate::specs::Raw::raw_entry))]
    pub fn pass_entry(self, bytes: &[u8], abbreviations: &Abbreviations<'_>) -> RawPassed
        ensures { view_raw_passed result ≡ told (raw_entry entry_limit.most self bytes.now abbreviations.now.rows abbreviations.now.specs) }
    {
        if !self.keeps_sizes(bytes.len()) {
            return self.refuse(Error::SizeLimit);
        }
        let kept = Kept { bytes, raw: self };
        match kept.pass_one(abbreviations) {
            Ok((passed, raw)) => Moved {
                answer: Ok(passed),
                raw,
            },
            Err(e) => self.refuse(e),
        }
    }
}
