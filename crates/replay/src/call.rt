// The function that a case names, called with the case's numbers. None where a number does not fit its
// parameter, or one that has no parameter is not 0.

ghost use Rattle.std.specs.Mem.{type_size};
ghost use Rattle.std.specs.Prelude.{◌≤◌};

use crate::case::Case;
use crate::kind::Kind;
use crate::words;
use capi::cursor::tehkumir_cursor;
use capi::levels::tehkumir_tree;
use capi::numbers::{
    tehkumir_read_initial_length, tehkumir_read_sleb128, tehkumir_read_uleb128,
    tehkumir_read_uleb128_u16, tehkumir_read_word, tehkumir_skip_leb128,
};
use capi::raw::{tehkumir_raw, tehkumir_raw_lent};
use capi::tables::{tehkumir_abbreviations, tehkumir_get};
use capi::units::{
    tehkumir_entry, tehkumir_next_unit, tehkumir_type_entry, tehkumir_types_next_unit,
    tehkumir_unit_header,
};
use capi::values::tehkumir_read_attribute;

// The most calls or levels: as many as a case has room for.
const MOST_CALLS: usize = 2000;

// The first numbers, if the others are 0.
fn leading<const N: usize>(numbers: &[u64; 10]) -> Option<[u64; N]> {
    let (first, others) = numbers.split_first_chunk()?;
    others.iter().all(|&n| n == 0).then_some(*first)
}

fn flag(n: u64) -> Option<bool> {
    (n < 2).then_some(n == 1)
}

// What takes a place.
// Kept (5): what is called on a case, and where its words go: a struct of the three would be made in `call` for one use.
fn at_place<F: Fn(&[u8], usize, &mut [u64]) -> u64>(
    case: &Case,
    function: F,
    out: &mut [u64],
) -> Option<u64>
    requires { F.IsAlwaysCallable function }
{
    let [at] = leading::<1>(&case.numbers)?;
    Some(function(case.bytes, at as usize, out))
}

fn read_word(case: &Case, out: &mut [u64]) -> Option<u64> {
    let [at, width, is_big] = leading::<3>(&case.numbers)?;
    let width = u8::try_from(width).ok()?;
    let is_big = flag(is_big)?;
    Some(tehkumir_read_word(case.bytes, at as usize, width, is_big, out))
}

// What takes a place and the order of the bytes.
fn in_order<F: Fn(&[u8], usize, bool, &mut [u64]) -> u64>(
    case: &Case,
    function: F,
    out: &mut [u64],
) -> Option<u64>
    requires { F.IsAlwaysCallable function }
{
    let [at, is_big] = leading::<2>(&case.numbers)?;
    let is_big = flag(is_big)?;
    Some(function(case.bytes, at as usize, is_big, out))
}

fn unit_header(case: &Case, out: &mut [u64]) -> Option<u64> {
    let [offset, is_big] = leading::<2>(&case.numbers)?;
    let is_big = flag(is_big)?;
    Some(tehkumir_unit_header(case.bytes, offset, is_big, out))
}

fn read_attribute(case: &Case, out: &mut [u64]) -> Option<u64> {
    let [
        start,
        at,
        version,
        is_64,
        width,
        is_big,
        name,
        form,
        constant,
    ] = leading::<9>(&case.numbers)?;
    Some(tehkumir_read_attribute(
        case.bytes,
        start as usize,
        at as usize,
        u16::try_from(version).ok()?,
        flag(is_64)?,
        u8::try_from(width).ok()?,
        flag(is_big)?,
        u16::try_from(name).ok()?,
        u16::try_from(form).ok()?,
        constant,
        out,
    ))
}

// The rows of a table of abbreviations.
#[derive(Debug, Drop)]
struct Rows {
    rows: [u64; 1280],
    specs: [u64; 3072],
}

impl Rows {
    fn new() -> Rows {
        Rows {
            rows: [0; 1280],
            specs: [0; 3072],
        }
    }

    // Filled by a section's first table.
    fn filled(table: &[u8], out: &mut [u64]) -> Rows {
        let mut rows = Rows::new();
        tehkumir_abbreviations(table, 0, &mut rows.rows, &mut rows.specs, out);
        rows
    }
}

fn abbreviations(case: &Case, out: &mut [u64]) -> Option<u64> {
    let [offset] = leading::<1>(&case.numbers)?;
    let mut rows = Rows::new();
    Some(tehkumir_abbreviations(case.bytes, offset, &mut rows.rows, &mut rows.specs, out))
}

fn type_entry(case: &Case, out: &mut [u64]) -> Option<u64> {
    let [signature, is_big] = leading::<2>(&case.numbers)?;
    let is_big = flag(is_big)?;
    let mut rows = Rows::new();
    Some(tehkumir_type_entry(
        case.bytes,
        case.table,
        signature,
        is_big,
        &mut rows.rows,
        &mut rows.specs,
        out,
    ))
}

fn entry(case: &Case, out: &mut [u64]) -> Option<u64> {
    let [unit, offset, is_big] = leading::<3>(&case.numbers)?;
    let is_big = flag(is_big)?;
    let rows = Rows::filled(case.table, out);
    Some(tehkumir_entry(
        case.bytes,
        unit,
        offset as usize,
        is_big,
        &rows.rows,
        &rows.specs,
        out,
    ))
}

fn get(case: &Case, out: &mut [u64]) -> Option<u64> {
    let [code] = leading::<1>(&case.numbers)?;
    let rows = Rows::filled(case.table, out);
    Some(tehkumir_get(&rows.rows, &rows.specs, code, out))
}

// What takes calls or levels.
// Kept (6): fixed memory, as many as a case has room for; a Vec of them could fail.
fn by_calls<T, F>(case: &Case, function: F, out: &mut [u64]) -> Option<u64>
where
    T: TryFrom<u64, Error: Drop> + Copy + Default,
    F: Fn(&[u8], usize, u16, bool, u8, bool, &[u64], &[u64], &[T], &mut [u64]) -> u64,
    requires callable { F.IsAlwaysCallable function }
    requires small { type_size T.row ≤ 8 }
{
    let [start, version, is_64, width, is_big] = leading::<5>(&case.numbers)?;
    let version = u16::try_from(version).ok()?;
    let is_64 = flag(is_64)?;
    let width = u8::try_from(width).ok()?;
    let is_big = flag(is_big)?;
    let mut room = [T::default(); MOST_CALLS];
    let calls = words::load(case.calls, &mut room)?;
    let rows = Rows::filled(case.table, out);
    Some(function(
        case.bytes,
        start as usize,
        version,
        is_64,
        width,
        is_big,
        &rows.rows,
        &rows.specs,
        calls,
        out,
    ))
}

// The function's status; its words are in `out`.
pub fn call(case: &Case, out: &mut [u64]) -> Option<u64> {
    match case.kind {
        Kind::ReadUleb128 => at_place(case, tehkumir_read_uleb128, out),
        Kind::ReadUleb128U16 => at_place(case, tehkumir_read_uleb128_u16, out),
        Kind::ReadSleb128 => at_place(case, tehkumir_read_sleb128, out),
        Kind::SkipLeb128 => at_place(case, tehkumir_skip_leb128, out),
        Kind::ReadWord => read_word(case, out),
        Kind::ReadInitialLength => in_order(case, tehkumir_read_initial_length, out),
        Kind::UnitHeader => unit_header(case, out),
        Kind::NextUnit => in_order(case, tehkumir_next_unit, out),
        Kind::Entry => entry(case, out),
        Kind::Abbreviations => abbreviations(case, out),
        Kind::Get => get(case, out),
        Kind::ReadAttribute => read_attribute(case, out),
        Kind::Raw => by_calls(case, tehkumir_raw, out),
        Kind::Cursor => by_calls(case, tehkumir_cursor, out),
        Kind::Tree => by_calls(case, tehkumir_tree, out),
        Kind::RawLent => by_calls(case, tehkumir_raw_lent, out),
        Kind::TypesNextUnit => in_order(case, tehkumir_types_next_unit, out),
        Kind::TypeEntry => type_entry(case, out),
    }
}
