// LEB128 numbers.

use crate::say::Hex;
use reader::answer::{Counted, Read};
use reader::leb128::{read_sleb128, read_uleb128, read_uleb128_u16};
use std::fmt::Display;

// A number, and behind a padded one how many bytes it has, or the refusal.
// Kept (5): what is written goes through the handle `rt` that `main` is given; a struct of it and what is shown would be
// made for one call.
fn say<T: Display + Drop>(rt: &impl Print, name: &str, bytes: &[u8], read: Read<Counted<T>>) {
    let _ = print!(rt; "{name}{}: ", Hex(bytes));
    let _ = match read {
        Ok((n, _)) if n.padded => println!(rt; "{} in {} bytes, fewer would do", n.number, n.count),
        Ok((n, _)) => println!(rt; "{}", n.number),
        Err(e) => println!(rt; "refused {}", e.number()),
    };
}

// Kept (2): name and reader stand here once; one function for both would be given them in each of the 13 lines of `main` that call these.
pub fn unsigned(rt: &impl Print, bytes: &[u8]) {
    say(rt, "unsigned", bytes, read_uleb128(bytes, 0));
}

// Kept (2): as `unsigned`.
pub fn short(rt: &impl Print, bytes: &[u8]) {
    say(rt, "16-bit", bytes, read_uleb128_u16(bytes, 0));
}

pub fn signed(rt: &impl Print, bytes: &[u8]) {
    say(rt, "signed", bytes, read_sleb128(bytes, 0));
}
