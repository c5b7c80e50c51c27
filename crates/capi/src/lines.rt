// The listing of two sections.

ghost use Rattle.listing.specs.Listing.{place_in};
ghost use Rattle.capi.specs.Lines.{ListedWords};

use super::out::give;
use abbrev::lent::LentRows;
use listing::list::list;
use listing::place::ListingPlace;
use reader::twos::to_word;

// The lines of the listing of two little-endian sections from a place on, zeros for the whole, that `text`
// has room for; a line is begun where there are 72 bytes for it. Zeros follow them, and both row slices are
// zero afterwards. Words: how many bytes and lines, 1 where there are lines behind them, and the place of the
// first of these, zeros where there is none: the offset of its unit, and the offset in the unit and the depth
// of the item that it is for, both 0 at the unit's own line.
pub fn tehkumir_list(
    abbrevs: &[u8],
    info: &[u8],
    rows: &mut [u64],
    specs: &mut [u64],
    unit: usize,
    offset: usize,
    depth: i64,
    text: &mut [u8],
    out: &mut [u64],
) -> u64
    ensures { ListedWords abbrevs.now info.now rows.old specs.old (place_in unit offset depth) text.old rows.new specs.new text.new out.old out.new result }
{
    let place = ListingPlace {
        unit,
        offset,
        depth,
    };
    let mut lent = LentRows { rows, specs };
    let listed = list(abbrevs, info, &mut lent, place, text);
    let next = listed.next.unwrap_or_default();
    give(
        out,
        &[
            listed.bytes as u64,
            listed.lines as u64,
            u64::from(listed.next.is_some()),
            next.unit as u64,
            next.offset as u64,
            to_word(next.depth),
        ],
    )
}
