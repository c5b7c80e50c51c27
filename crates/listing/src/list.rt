// The lines of a listing, written into a lent buffer.

ghost use Rattle.std.specs.Prelude.{◌≡◌, ◌≤◌, length};
ghost use Rattle.reader.specs.Sizes.{max_section};
ghost use Rattle.reader.specs.Views.{view};
ghost use Rattle.abbrev.specs.Lent.{Same};
ghost use Rattle.abbrev.specs.Table.{entry_limit};
ghost use Rattle.entries.specs.Steps.{KeptRaw};
ghost use Rattle.listing.specs.Listed.{ListedAs};
ghost use Rattle.unit.specs.Range.{Handed};
ghost use Rattle.unit.specs.Parse.{debug_info};
ghost use Rattle.unit.specs.Units.{next_unit};
ghost use Rattle.unit.specs.Views.{view_next};
ghost use Rattle.reader.specs.declared.endianity.RunTimeEndian.TheVariants.{Little};
ghost use Rattle.listing.specs.Listing.{entries_in, item_lines, part_lines, state_at, unit_entries, unit_all, unit_lines, inner_lines, listing_from};
ghost use Rattle.listing.specs.Written.{Written, Fit, Lent, shelf_of};

use super::lines::Lines;
use super::place::ListingPlace;
use abbrev::abbreviations::Abbreviations;
use abbrev::lent::LentRows;
use entries::flat::pass_entries;
use entries::raw::EntriesRaw;
use reader::endianity::RunTimeEndian;
use reader::error::Error;
use reader::fill::fill;
use std::ops::ControlFlow;
use unit::header::UnitHeader;
use unit::parse::SectionId;
use unit::units::{Next, UnitHeadersIter};

// What `list` wrote: how many bytes and lines, and where the first of the lines behind them stands.
#[derive(Clone, Copy, Debug, PartialEq, Eq)]
pub struct Listed {
    pub bytes: usize,
    pub lines: usize,
    pub next: Option<ListingPlace>,
}

// Two sections, the words lent for a table, and the lines so far. Each reference has a lifetime of its own, so that
// `list` names none.
#[derive(Drop)]
struct Listing<'a, 'b, 'c, 'd, 'e, 'f> {
    abbrevs: &'a [u8],
    info: &'b [u8],
    lent: &'c mut LentRows<'d>,
    lines: &'e mut Lines<'f>,
}

// A line for each item that is left, of up to 256 passed in a call.
// Kept (6): no heap; the words are lent to `pass_entries` again and again, and 256 items in a call were the
// fastest of 64, 128 and 256 (docs/SPEED.md).
fn list_items(
    raw: EntriesRaw,
    unit: usize,
    bytes: &[u8],
    abbreviations: &Abbreviations<'_>,
    lines: &mut Lines<'_>,
) -> ControlFlow<()>
    requires { KeptRaw (length bytes.now) raw }
    ensures { Written lines.old lines.new (item_lines entry_limit.most unit raw bytes.now abbreviations.now.rows abbreviations.now.specs) result }
{
    let mut words = [0u64; 1024];
    let mut here = raw;
    while here.position < bytes.len() {
        let passed = pass_entries(here, bytes, abbreviations, &mut words);
        let (items, _) = words.as_chunks::<4>();
        lines.add_items(unit, &items[..passed.count])?;
        let after = passed.raw;
        match passed.answer {
            Ok(()) => here = after,
            Err(error) => {
                let place = ListingPlace {
                    unit,
                    offset: after.start + after.position,
                    depth: after.depth,
                };
                return lines.add_last(Err(error), place);
            }
        }
    }
    ControlFlow::Continue(())
}

// The state at a place in a unit.
// Kept (5): a unit's header and a place in it stand for one thing here and in two methods; a struct of both would be
// made in two of them and taken apart in all.
#[tactic(auto, unfolding(crate::specs::Listing::state_at))]
fn state_at(header: UnitHeader, bytes: &[u8], place: ListingPlace) -> Result<EntriesRaw, Error>
    requires { length bytes.now ≤ max_section }
    ensures { view result ≡ state_at header bytes.now place }
{
    let first = EntriesRaw::at_start(header, RunTimeEndian::Little);
    if place.offset < first.start {
        return Err(Error::SizeLimit);
    }
    let raw = EntriesRaw {
        position: place.offset - first.start,
        depth: place.depth,
        ..first
    };
    if raw.keeps_sizes(bytes.len()) {
        Ok(raw)
    } else {
        Err(Error::SizeLimit)
    }
}

// The bytes of a unit's entries, out of its section.
fn entries_in(header: UnitHeader, info: &[u8]) -> Result<&[u8], Error>
    ensures { Handed (entries_in header info.now) result }
{
    header.entries_buf(header.bytes(info)?)
}

// The unit of .debug_info at an offset, and the list behind it.
// Kept (5): the other two functions are the C interface.
fn unit_at(info: &[u8], offset: usize) -> Next
    ensures { view_next result ≡ next_unit debug_info info.now offset Little }
{
    let units = UnitHeadersIter {
        id: SectionId::DebugInfo,
        offset,
    };
    units.next(info, RunTimeEndian::Little)
}

// Kept (5): that the references stay the same, each method has to promise: an invariant speaks of one value, not of the
// value before and after.
impl Listing<'_, '_, '_, '_, '_, '_> {
    // A unit's entries, out of their bytes.
    fn list_part(
        &mut self,
        header: UnitHeader,
        place: ListingPlace,
        raw: EntriesRaw,
        bytes: &[u8],
    ) -> ControlFlow<()>
        requires { KeptRaw (length bytes.now) raw }
        ensures lent { Lent self.old self.new }
        ensures written { Written self.old.lines.now self.new.lines.now (part_lines (shelf_of self.old) header bytes.now place raw) result }
    {
        if bytes.is_empty() {
            return ControlFlow::Continue(());
        }
        match header.abbreviations(self.abbrevs, self.lent) {
            Ok(_) => list_items(raw, place.unit, bytes, &self.lent.table(), self.lines),
            Err(error) => self.lines.add_last(Err(error), place),
        }
    }

    // A unit's entries from a place on.
    fn list_entries(&mut self, header: UnitHeader, place: ListingPlace) -> ControlFlow<()>
        requires { Fit (length self.old.info.now) header }
        ensures lent { Lent self.old self.new }
        ensures written { Written self.old.lines.now self.new.lines.now (unit_entries (shelf_of self.old) header place) result }
    {
        match entries_in(header, self.info) {
            Ok(bytes) => match state_at(header, bytes, place) {
                Ok(raw) => self.list_part(header, place, raw, bytes),
                Err(error) => self.lines.add_last(Err(error), place),
            },
            Err(error) => self.lines.add_last(Err(error), place),
        }
    }

    // A unit: its line, then its entries.
    fn list_unit(&mut self, header: UnitHeader, at: usize) -> ControlFlow<()>
        requires { Fit (length self.old.info.now) header }
        ensures lent { Lent self.old self.new }
        ensures written { Written self.old.lines.now self.new.lines.now (unit_all (shelf_of self.old) at header) result }
    {
        self.lines
            .add(Ok(Some(header)), ListingPlace::at_root(at, 0))?;
        let root = ListingPlace::at_root(at, header.root_offset());
        self.list_entries(header, root)
    }

    // All units from an offset of their section on.
    fn list_units(&mut self, at: usize) -> ControlFlow<()>
        ensures lent { Lent self.old self.new }
        ensures written { Written self.old.lines.now self.new.lines.now (λ _. unit_lines (shelf_of self.old) at) result }
    {
        let mut offset = at;
        loop {
            let here = ListingPlace::at_root(offset, 0);
            let next = unit_at(self.info, offset);
            let Ok(Some(header)) = next.unit else {
                return self.lines.add_last(next.unit, here);
            };
            self.list_unit(header, here.unit)?;
            offset = next.units.offset;
        }
    }

    // From the middle of a unit on.
    fn list_inner(&mut self, place: ListingPlace) -> ControlFlow<()>
        ensures lent { Lent self.old self.new }
        ensures written { Written self.old.lines.now self.new.lines.now (λ _. inner_lines (shelf_of self.old) place) result }
    {
        let next = unit_at(self.info, place.unit);
        match next.unit {
            Ok(Some(header)) => {
                self.list_entries(header, place)?;
                self.list_units(next.units.offset)
            }
            Ok(None) => self.lines.add_last(Err(Error::SizeLimit), place),
            Err(error) => self.lines.add_last(Err(error), place),
        }
    }

    // From a place on.
    #[tactic(auto, unfolding(crate::specs::Listing::listing_from))]
    fn list_from(&mut self, place: ListingPlace) -> ControlFlow<()>
        ensures lent { Lent self.old self.new }
        ensures written { Written self.old.lines.now self.new.lines.now (λ _. listing_from (shelf_of self.old) place) result }
    {
        if place.offset == 0 {
            self.list_units(place.unit)
        } else {
            self.list_inner(place)
        }
    }
}

// The lines of the listing of two sections from a place on that `out` has room for; a line is begun where
// there are 72 bytes for it. The whole listing is that from a place of zeros on, and it goes on from the place
// of the first line that is left. Zeros follow the lines, and both row slices are zero afterwards.
pub fn list(
    abbrevs: &[u8],
    info: &[u8],
    lent: &mut LentRows<'_>,
    place: ListingPlace,
    out: &mut [u8],
) -> Listed
    ensures listed { ListedAs abbrevs.now info.now lent.old.rows.now lent.old.specs.now place out.old lent.new.rows.now lent.new.specs.now out.new result }
    ensures same { Same lent.old lent.new }
{
    let mut lines = Lines {
        out,
        count: 0,
        end: 0,
        next: None,
    };
    let mut listing = Listing {
        abbrevs,
        info,
        lent,
        lines: &mut lines,
    };
    let _ = listing.list_from(place);
    lent.wipe();
    let Lines {
        out,
        count,
        end,
        next,
    } = lines;
    fill(out, end, 0);
    Listed {
        bytes: end,
        lines: count,
        next,
    }
}
