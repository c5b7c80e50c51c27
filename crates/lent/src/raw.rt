// The raw reader's state is lent by `&mut` and moved in place. A refusal leaves it as it was.
// Kept (5): 01 wants thin functions over a state by `&mut`, and the bytes at each call. As a trait's methods they would share
// their names with the by-value ones of `EntriesRaw`: on a local state those would be called instead, and the new state dropped.

ghost use Rattle.std.specs.Prelude.{◌≡◌};
ghost use Rattle.abbrev.specs.Table.{entry_limit};
ghost use Rattle.abbrev.specs.Views.{found_of};
ghost use Rattle.entries.specs.Raw.{raw_abbreviation, raw_entry, raw_attributes, raw_skip};
ghost use Rattle.lent.specs.Views.{view_read_entry, view_read_abbreviation, view_read_attributes, view_skipped};

use abbrev::abbreviations::Abbreviations;
use abbrev::lookup::Abbreviation;
use attribute::value::Attribute;
use entries::entry::Entry;
use entries::raw::EntriesRaw;
use reader::error::Error;

// gimli's `read_entry`: an entry or a null.
#[tactic(auto, using(crate::proofs::ViewLaws::entry_back, crate::proofs::ViewLaws::entry_refuses))]
pub fn read_entry(
    raw: &mut EntriesRaw,
    bytes: &[u8],
    abbreviations: &Abbreviations<'_>,
) -> Result<Entry, Error>
    ensures { view_read_entry entry_limit.most result raw.new ≡ raw_entry entry_limit.most raw.old bytes.now abbreviations.now.rows abbreviations.now.specs }
{
    let taken = raw.read_entry(bytes, abbreviations);
    *raw = taken.raw;
    taken.answer?;
    Ok(taken.entry)
}

// gimli's `read_abbreviation`.
pub fn read_abbreviation(
    raw: &mut EntriesRaw,
    bytes: &[u8],
    abbreviations: &Abbreviations<'_>,
) -> Result<Option<Abbreviation>, Error>
    ensures { view_read_abbreviation result raw.new ≡ raw_abbreviation entry_limit.most raw.old bytes.now abbreviations.now.rows abbreviations.now.specs }
{
    let taken = raw.read_abbreviation(bytes, abbreviations);
    *raw = taken.raw;
    taken.answer
}

// An entry's values; places that hold no value hold one fixed attribute.
pub type Values = [Attribute; 64];

// gimli's `read_attributes`, of an abbreviation.
#[tactic(auto, using(crate::proofs::ViewLaws::attributes_refuse))]
pub fn read_attributes(
    raw: &mut EntriesRaw,
    bytes: &[u8],
    abbreviation: Abbreviation,
    specs: &[u64],
) -> Result<Values, Error>
    ensures { view_read_attributes entry_limit.most result raw.new ≡ raw_attributes entry_limit.most raw.old bytes.now specs.now (found_of abbreviation) }
{
    let taken = raw.read_attributes(bytes, abbreviation, specs);
    *raw = taken.raw;
    taken.answer?;
    Ok(taken.attrs)
}

// gimli's `skip_attributes`.
pub fn skip_attributes(
    raw: &mut EntriesRaw,
    bytes: &[u8],
    abbreviation: Abbreviation,
    specs: &[u64],
) -> Result<(), Error>
    ensures { view_skipped result raw.new ≡ raw_skip entry_limit.most raw.old bytes.now specs.now (found_of abbreviation) }
{
    let taken = raw.skip_attributes(bytes, abbreviation, specs);
    *raw = taken.raw;
    taken.answer
}
