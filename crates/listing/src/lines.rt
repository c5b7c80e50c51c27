// Lines in a lent buffer, as many as it has room for.

ghost use Rattle.std.specs.Prelude.{[], ◌∷◌, ◌++◌, ◌≤◌, length, map};

use super::place::ListingPlace;
use reader::error::Error;
use reader::twos::from_word;
use std::ops::ControlFlow;
use unit::header::UnitHeader;

// Each call that adds lines says whether more may follow.
#[derive(Drop)]
pub(crate) struct Lines<'a> {
    pub(crate) out: &'a mut [u8],
    // how many there are
    pub(crate) count: usize,
    // where their text ends
    pub(crate) end: usize,
    // where the first line stands that found no room
    pub(crate) next: Option<ListingPlace>,
    ghost inside: { end ≤ length out.now },
    ghost few: { count ≤ end },
}

impl Lines<'_> {
    ghost use Rattle.listing.specs.Listing.{put};
    ghost use Rattle.listing.specs.Written.{view_line, words_line, Items, Written};

    // One more line, a unit's, `end` or a refusal: it is written, or has no room.
    #[tactic(auto, using(crate::proofs::TextLaws::text_some))]
    pub(crate) fn add(
        &mut self,
        line: Result<Option<UnitHeader>, Error>,
        place: ListingPlace,
    ) -> ControlFlow<()>
        ensures { Written self.old self.new (λ rest. put place (view_line line) ∷ rest) result }
    {
        if self.next.is_some() {
            return ControlFlow::Break(());
        }
        if self.out.len() - self.end < 72 {
            self.next = Some(place);
            return ControlFlow::Break(());
        }
        self.put_line(line);
        self.count += 1;
        ControlFlow::Continue(())
    }

    // The last line.
    pub(crate) fn add_last(
        &mut self,
        line: Result<Option<UnitHeader>, Error>,
        place: ListingPlace,
    ) -> ControlFlow<()>
        ensures { Written self.old self.new (λ _. put place (view_line line) ∷ []) result }
    {
        let _ = self.add(line, place);
        ControlFlow::Break(())
    }

    // The lines of items of a unit, by their words: offset, depth, tag and count of values of each.
    #[tactic(auto, using(crate::proofs::TextLaws::text_some))]
    pub(crate) fn add_items(&mut self, unit: usize, items: &[[u64; 4]]) -> ControlFlow<()>
        requires { Items items.now }
        ensures { Written self.old self.new (λ rest. map (words_line unit) items.now ++ rest) result }
    {
        if self.next.is_some() {
            return ControlFlow::Break(());
        }
        for item in items {
            if self.out.len() - self.end < 72 {
                let offset = item[0] as usize;
                self.next = Some(ListingPlace {
                    unit,
                    offset,
                    depth: from_word(item[1]),
                });
                return ControlFlow::Break(());
            }
            self.put_item(item);
            self.count += 1;
        }
        ControlFlow::Continue(())
    }
}
