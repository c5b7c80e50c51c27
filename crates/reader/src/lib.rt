// Numbers and fields out of a slice of bytes: gimli's common.rs, endianity.rs, leb128.rs and
// read/reader.rs over one slice and a position, which may be any number.

#![tactic(auto)]

pub mod answer; // what readers answer
pub mod common; // Format, Encoding
pub mod endianity; // RunTimeEndian
pub mod error; // Error
pub mod fields; // initial length, address size, address, offset, zero-terminated bytes
pub mod fill; // zeros in a lent slice
pub mod leb128; // LEB128 numbers
mod parts; // a LEB128 number before it is put together
pub mod twos; // two's complement
pub mod words; // words of 1, 2, 3, 4, 8 and 16 bytes
