// What readers answer.

use super::common::Format;
use super::error::Error;

// A value and the place after its last byte, or a refusal.
pub type Read<T> = Result<(T, usize), Error>;

// A LEB128 number, how many bytes it has, and whether fewer would do.
#[derive(Clone, Copy, Debug, PartialEq, Eq)]
pub struct Counted<T> {
    pub number: T,
    pub count: usize,
    pub padded: bool,
}

// The low and the high 64 bits of a word of 16 bytes.
#[derive(Clone, Copy, Debug, PartialEq, Eq)]
pub struct Halves {
    pub low: u64,
    pub high: u64,
}

// An initial length and its format.
#[derive(Clone, Copy, Debug, PartialEq, Eq)]
pub struct Initial {
    pub unit_length: u64,
    pub format: Format,
}

// Bytes by their place and how many they are.
#[derive(Clone, Copy, Debug, PartialEq, Eq)]
pub struct Span {
    pub start: usize,
    pub len: usize,
}
