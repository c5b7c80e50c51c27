// Reads two sections from standard input and lists their units and entries: document 01,
// "Readings". A read that fails counts as the end of the input; a write that fails ends the program.

#![tactic(auto)]

ghost use Rattle.std.specs.Prelude.{◌≡◌, length, take};
ghost use Rattle.std.specs.Counts.{IsPrefixLen};
ghost use Rattle.std.specs.Io.KnownBytes.{Consumes};

use abbrev::lent::LentRows;
use listing::input::{Input, InputError, sections};
use listing::list::list;
use listing::place::ListingPlace;
use std::io;
use std::io::Read;

// A piece has a line at least, and every line takes a byte of the second section, but for the last.
const MOST_PIECES: usize = 32769;

// As std's `read_exact`, which keeps no count of a shorter input, and `read_to_end`, which takes a Vec and no limit:
// reads until `buf` is full, the input ends or a read fails; how many bytes it put at the start: those
// that the input had next.
// Kept (2): as in `replay`.
fn read_full<R: Read>(input: &mut R, buf: &mut [u8]) -> usize
    ensures in_bounds { IsPrefixLen result buf.new }
    ensures bytes { Consumes (R.remaining input.old) (R.remaining input.new) (take result buf.new) }
{
    let mut done = 0;
    while done < buf.len() {
        match input.read(&mut buf[done..]) {
            Ok(0) | Err(_) => break,
            Ok(count) => done += count,
        }
    }
    done
}

// Lists two sections piece by piece, with 256 abbreviation and 1,024 specification rows.
// Kept (6): fixed memory: 01 says how many rows are lent, and a Vec could fail.
// Kept (4): the lines are bytes; `print!` takes a str, so that they would have to be shown to be UTF-8.
fn list_sections(rt: &impl Print, abbrevs: &[u8], info: &[u8]) -> io::Result<()> {
    let mut rows = [0; 1280];
    let mut specs = [0; 3072];
    let mut out = [0; 262144];
    let mut lent = LentRows {
        rows: &mut rows,
        specs: &mut specs,
    };
    let mut place = ListingPlace::default();
    for _ in 0..MOST_PIECES {
        let piece = list(abbrevs, info, &mut lent, place, &mut out);
        rt.write_all(&out[..piece.bytes])?;
        let Some(next) = piece.next else {
            break;
        };
        place = next;
    }
    Ok(())
}

fn main(rt: HostRuntime) {
    // Kept (6): the room for both sections and their counts, the most that document 01 takes; a Vec of it could fail.
    let mut space = [0; 65544];
    let got = read_full(&mut rt.stdin(), &mut space);
    let input = &space[..got];
    // The program ends then, whether or not a write failed.
    let _ = match sections(input) {
        Ok(Input { abbrevs, info }) => list_sections(
            &rt,
            &input[abbrevs.start..abbrevs.end],
            &input[info.start..info.end],
        ),
        Err(InputError::TooLong) => println!(rt; "too long"),
        Err(InputError::Short) => println!(rt; "short"),
    };
}
