// What stays the same while the values of a part are read.

use reader::common::Encoding;
use reader::endianity::RunTimeEndian;

// The offset of the part's first byte, and how its unit's words stand in the bytes.
#[derive(Clone, Copy, Debug, PartialEq, Eq)]
pub struct Source {
    pub start: usize,
    pub encoding: Encoding,
    pub endian: RunTimeEndian,
}
