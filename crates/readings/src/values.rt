// Values, read and skipped.

use crate::say::{Hex, Passed};
use abbrev::lookup::Abbreviation;
use attribute::parse::read_attributes;
use attribute::skip::skip_attributes;
use attribute::source::Source;
use reader::common::{Encoding, Format};
use reader::endianity::RunTimeEndian;

// Values by the words of their specifications, under a name and with an address width.
pub fn both(rt: &impl Print, name: &str, specs: &[[u64; 3]], width: u8, bytes: &[u8]) {
    let source = Source {
        start: 0,
        encoding: Encoding {
            address_size: width,
            format: Format::Dwarf32,
            version: 4,
        },
        endian: RunTimeEndian::Little,
    };
    let row = Abbreviation {
        code: 1,
        tag: 0x11,
        has_children: false,
        first: 0,
        count: specs.len(),
    };
    let specs = specs.as_flattened();
    let read = Passed(read_attributes(bytes, 0, source, row, specs).end);
    let skipped = Passed(skip_attributes(bytes, 0, source, row, specs));
    let bytes = Hex(bytes);
    let _ = println!(rt; "{name}, width {width}, bytes{bytes}: reading {read}, skipping {skipped}");
}
