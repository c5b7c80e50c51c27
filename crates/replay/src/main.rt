// Reads stored cases from standard input, calls the exported function that each names, and compares
// its status and words with the stored ones. Writes a line for each case that differs, then how many
// cases of each kind there were, and how many differ.

#![tactic(auto)]

ghost use Rattle.std.specs.Prelude.{◌≡◌, true, length, take};
ghost use Rattle.std.specs.Counts.{IsPrefixLen};
ghost use Rattle.std.specs.Io.KnownBytes.{Consumes};

use case::MOST_BYTES;
use std::io::Read;
use tally::Tally;

mod call; // the function that a case names
mod case; // the parts of a case
mod kind; // the functions by their numbers
mod tally; // cases and differences counted
mod words; // words loaded

// The most cases of a run.
const MOST_CASES: u64 = 1000000;

// The most words of an answer.
const MOST_WORDS: usize = 1024;

// Whether two slices have the same words.
// Kept (4): `==` alone would say in no contract that all words are compared.
fn same(a: &[u64], b: &[u64]) -> bool
    ensures { (result ≡ true → a.now ≡ b.now) × (a.now ≡ b.now → result ≡ true) }
{
    a == b
}

// Whether a status and words are the expected ones: a word for the status, then the others, and
// zeros behind them.
// Kept (6): fixed memory, as many words as are lent for an answer; a Vec of them could fail.
fn is_expected(status: u64, out: &[u64; MOST_WORDS], expected: &[u8]) -> bool {
    let Some((stored, stored_words)) = expected.split_first_chunk() else {
        return false;
    };
    let mut wanted = [0; MOST_WORDS];
    u64::from_le_bytes(*stored) == status
        && words::load::<u64>(stored_words, &mut wanted).is_some()
        && same(out, &wanted)
}

// Whether the function answers as expected; not where the case is malformed or a number or a call
// does not fit.
// Kept (6): fixed memory: the exported functions store into lent words, of which no case has more than these; a Vec of them could fail.
fn answers(body: &[u8]) -> bool {
    let Some(case) = case::parse(body) else {
        return false;
    };
    let mut out = [0; MOST_WORDS];
    call::call(&case, &mut out).is_some_and(|status| is_expected(status, &out, case.expected))
}

// A case that is cut short or too long.
#[derive(Clone, Copy, Debug)]
struct Malformed;

// Reads until `buf` is full, the input ends or a read fails; how many bytes it put at the start: those
// that the input had next.
// Kept (2): std's `read_exact` goes on where a read is interrupted, and says nothing of what a shorter input left in
// `buf`; a library for this function of `shelflist` and `replay` would bring reading to those that have none.
fn read_full<R: Read>(input: &mut R, buf: &mut [u8]) -> usize
    ensures in_bounds { IsPrefixLen result buf.new }
    ensures bytes { Consumes (R.remaining input.old) (R.remaining input.new) (take result buf.new) }
{
    let mut done = 0;
    while done < buf.len() {
        match input.read(&mut buf[done..]) {
            Ok(0) | Err(_) => break,
            Ok(count) => done += count,
        }
    }
    done
}

// Reads the next case into the room for one; none at the end of the input, or where it cannot be read.
// Kept (6): reads store into lent bytes; std has none of a whole word.
fn next_case<'a>(
    input: &mut impl Read,
    space: &'a mut [u8; MOST_BYTES],
) -> Result<Option<&'a [u8]>, Malformed> {
    let mut count = [0; 4];
    match read_full(input, &mut count) {
        0 => return Ok(None),
        1..4 => return Err(Malformed),
        _ => {}
    }
    let body = space
        .get_mut(..u32::from_le_bytes(count) as usize)
        .ok_or(Malformed)?;
    if read_full(input, body) < body.len() {
        return Err(Malformed);
    }
    Ok(Some(body))
}

// Kept (6): fixed memory: room for one case, whose most bytes are known; a Vec of them could fail.
fn replay(rt: &impl Print, input: &mut impl Read) -> Tally {
    let mut space = [0; MOST_BYTES];
    let mut tally = Tally::new();
    for _ in 0..MOST_CASES {
        match next_case(input, &mut space) {
            Ok(Some(body)) => tally.count(rt, case::kind(body), answers(body)),
            Ok(None) => break,
            Err(Malformed) => {
                tally.count(rt, None, false);
                break;
            }
        }
    }
    tally
}

fn main(rt: HostRuntime) {
    replay(&rt, &mut rt.stdin()).say(&rt);
}
