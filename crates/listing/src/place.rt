// Where a listing can go on.

ghost use Rattle.std.specs.Prelude.{◌≡◌, pos};
ghost use Rattle.listing.specs.Listing.{place_in};

// Where a line stands: its unit's offset, and the offset in the unit and the depth of the item that it is
// for, both 0 at the unit's own line.
#[derive(Clone, Copy, Debug, Default, PartialEq, Eq)]
pub struct ListingPlace {
    pub unit: usize,
    pub offset: usize,
    pub depth: i64,
}

impl ListingPlace {
    // At depth 0.
    // Kept (5): the other two functions are the C interface, where a place is three numbers.
    pub(crate) fn at_root(unit: usize, offset: usize) -> ListingPlace
        ensures { result ≡ place_in unit offset (pos 0) }
    {
        ListingPlace {
            unit,
            offset,
            depth: 0,
        }
    }
}
