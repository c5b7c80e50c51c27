// A page of a unit's flat reading.

ghost use Rattle.std.specs.Prelude.{◌≡◌, ◌+◌, ◌^◌, ◌≤◌, ◌<◌, length, All};
ghost use Rattle.reader.specs.Answer.{refused};
ghost use Rattle.reader.specs.Errors.{number_of};
ghost use Rattle.reader.specs.Views.{view};
ghost use Rattle.abbrev.specs.Table.{entry_limit};
ghost use Rattle.entries.specs.Flat.{reading_from};
ghost use Rattle.sheet.specs.Sheet.{shown, sheet_reading};
ghost use Rattle.sheet.specs.Steps.{placed_words, FairWords, first_on, lines_of, Opened, page_from};

use super::line::{place_line, put_blank};
use abbrev::abbreviations::Abbreviations;
use entries::flat::pass_entries;
use entries::raw::EntriesRaw;
use reader::common::MAX_SECTION;
use reader::endianity::RunTimeEndian;
use reader::error::Error;
use unit::header::UnitHeader;

// The bytes of a page.
pub const PAGE_SIZE: usize = 1980;

// The lines of items, offset, depth, tag and count of values of each, of which the first is the `k`-th.
fn place_lines(page: &mut [u8; PAGE_SIZE], first: usize, k: usize, items: &[[u64; 4]])
    requires fair { All FairWords items.now }
    requires few { k + length items.now < 2 ^ 64 }
    ensures { page.new ≡ placed_words first k items.now page.old }
{
    for (i, item) in items.iter().enumerate() {
        place_line(page, first, k + i, item);
    }
}

// A blank page, and the refusal.
pub fn refuse_page(page: &mut [u8], error: Error) -> Result<(), Error>
    ensures { record { answer = view result; page = page.new } ≡ shown 0 (refused (number_of error)) page.old }
{
    let Some(page) = page.first_chunk_mut::<PAGE_SIZE>() else {
        return Err(Error::PageTooShort);
    };
    put_blank(page, 0);
    Err(error)
}

// The number of the first item of a page. Items of a unit have lower numbers than any from the last
// page on that is told apart here.
fn first_on(n: u64) -> usize
    ensures { result ≡ first_on n }
{
    (n.min(67_108_864) * 60) as usize
}

// How many of the first `seen` items have a line on a page that begins with the `first`-th.
fn lines_of(first: usize, seen: usize) -> usize
    ensures { result ≡ lines_of first seen }
{
    seen.saturating_sub(first).min(60)
}

// All items are read, in passes of up to 256, since a refusal behind the page blanks it too.
// Kept (6): no heap; the words are lent to `pass_entries` again and again.
fn read_page(
    raw: EntriesRaw,
    bytes: &[u8],
    abbreviations: &Abbreviations<'_>,
    n: u64,
    page: &mut [u8; PAGE_SIZE],
) -> Result<(), Error>
    requires { Opened (length bytes.now) raw }
    ensures { record { answer = view result; page = page.new } ≡ page_from n (reading_from entry_limit.most raw bytes.now abbreviations.now.rows abbreviations.now.specs) page.old }
{
    let first = first_on(n);
    let mut words = [0u64; 1024];
    let mut here = raw;
    let mut seen: usize = 0;
    while here.position < bytes.len() {
        let passed = pass_entries(here, bytes, abbreviations, &mut words);
        match passed.answer {
            Ok(()) => {
                let (items, _) = words.as_chunks::<4>();
                place_lines(page, first, seen, &items[..passed.count]);
                seen += passed.count;
                here = passed.raw;
            }
            Err(error) => {
                put_blank(page, 0); // the lines of items before it too
                return Err(error);
            }
        }
    }
    put_blank(page, lines_of(first, seen));
    Ok(())
}

// Page `n` of a unit, with its table: items 60 n to 60 n + 59 of its flat reading, counted
// from 0. A unit that refuses anywhere gives a blank page. Without room for a page nothing is read or
// stored; what is lent past the page stays.
// Kept (5): the other two functions are the C interface.
pub fn sheet(
    header: UnitHeader,
    unit: &[u8],
    abbreviations: &Abbreviations<'_>,
    endian: RunTimeEndian,
    n: u64,
    page: &mut [u8],
) -> Result<(), Error>
    ensures { record { answer = view result; page = page.new } ≡ shown n (sheet_reading entry_limit.most header unit.now abbreviations.now.rows abbreviations.now.specs endian) page.old }
{
    // before all other questions
    let Some(page) = page.first_chunk_mut::<PAGE_SIZE>() else {
        return Err(Error::PageTooShort);
    };
    if unit.len() > MAX_SECTION {
        put_blank(page, 0);
        return Err(Error::SizeLimit);
    }
    match header.entries_buf(unit) {
        Ok(bytes) => {
            let raw = EntriesRaw::at_start(header, endian);
            read_page(raw, bytes, abbreviations, n, page)
        }
        Err(error) => {
            put_blank(page, 0);
            Err(error)
        }
    }
}
