// Items passed one after another, as words.

ghost use Rattle.std.specs.Prelude.{[], ◌∷◌, ◌++◌, ◌≡◌, ◌+◌, ◌/◌, ◌≤◌, length, take, drop};
ghost use Rattle.abbrev.specs.Table.{entry_limit};
ghost use Rattle.entries.specs.Flat.{reading_from};
ghost use Rattle.entries.specs.Pass.{passed_items, first_of};
ghost use Rattle.entries.specs.Views.{PassedAs};

use super::kept::Kept;
use super::raw::EntriesRaw;
use abbrev::abbreviations::Abbreviations;
use reader::error::Error;
use reader::twos::to_word;

// How many items were passed, and the state behind them; after a refusal that is where the refused item
// stands.
// Kept (1): a refusal leaves the words of the items before it, so that their count and the state stand beside it.
#[derive(Clone, Copy)]
pub struct PassedEntries {
    pub answer: Result<(), Error>,
    pub count: usize,
    pub raw: EntriesRaw,
}

// The words of an item.
fn put_item(out: &mut [u64], at: usize, offset: u64, depth: u64, tag: u64, count: u64)
    requires { at + 4 ≤ length out.old }
    ensures { out.new ≡ take at out.old ++ (offset ∷ depth ∷ tag ∷ count ∷ []) ++ drop (at + 4) out.old }
{
    out[at..at + 4].copy_from_slice(&[offset, depth, tag, count]);
}

impl Kept<'_> {
    // Items until no byte is left, one is refused or the words are full.
    // Kept (6): tried as `for (count, item) in items.iter_mut().enumerate()` over `out.as_chunks_mut()`; its contract says
    // nothing of what the slice ends as, so that nothing can be proved of the words.
    // Kept (5): the table is read and the words are written; a struct would hold a shared and a `&mut` slice for one call.
    #[tactic(auto, using(crate::proofs::RunLaws::run_begun, crate::proofs::RunLaws::run_full))]
    fn pass_within(self, abbreviations: &Abbreviations<'_>, out: &mut [u64]) -> PassedEntries
        ensures { PassedAs (first_of (length out.old / 4) self.entry.raw (reading_from entry_limit.most self.entry.raw self.entry.bytes.now abbreviations.now.rows abbreviations.now.specs)) out.old out.new result }
    {
        let Kept { bytes, raw } = self;
        let room = out.len() / 4;
        let mut here = raw;
        for count in 0..room {
            if here.is_empty(bytes) {
                return PassedEntries {
                    answer: Ok(()),
                    count,
                    raw: here,
                };
            }
            let offset = (here.start + here.position) as u64;
            let depth = to_word(here.depth);
            match (Kept { bytes, raw: here }.pass_one(abbreviations)) {
                Ok((passed, after)) => {
                    let (tag, values) = passed.unwrap_or((0, 0));
                    put_item(out, count * 4, offset, depth, u64::from(tag), values as u64);
                    here = after;
                }
                Err(e) => {
                    return PassedEntries {
                        answer: Err(e),
                        count,
                        raw: here,
                    };
                }
            }
        }
        PassedEntries {
            answer: Ok(()),
            count: room,
            raw: here,
        }
    }
}

// The items from a state on, as many as `out` has room for: for each the offset, the depth in two's
// complement, the tag and the count of values; a null has 0 for the last two. What is behind them in `out`
// stays. Nothing else of an item is stored; the rows are counted once, so that codes 1, 2, 3, .. are looked
// up directly.
#[tactic(auto, using(crate::proofs::RawLaws::raw_kept), unfolding(crate::specs::Pass::passed_items))]
pub fn pass_entries(
    raw: EntriesRaw,
    bytes: &[u8],
    abbreviations: &Abbreviations<'_>,
    out: &mut [u64],
) -> PassedEntries
    ensures { PassedAs (passed_items entry_limit.most (length out.old / 4) raw bytes.now abbreviations.now.rows abbreviations.now.specs) out.old out.new result }
{
    if !raw.keeps_sizes(bytes.len()) {
        return PassedEntries {
            answer: Err(Error::SizeLimit),
            count: 0,
            raw,
        };
    }
    Kept { bytes, raw }.pass_within(&abbreviations.counted(), out)
}
