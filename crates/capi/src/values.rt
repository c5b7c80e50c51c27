// Single values.

ghost use Rattle.attribute.specs.Attributes.{read_attribute};
ghost use Rattle.capi.specs.Words.{Gives, encoding_of, endian_of, specification_by, read_attribute_words};

use super::out::{Words, refuse, source_of};
use abbrev::lookup::AttributeSpecification;
use attribute::parse::parse_attribute;

// The value at `at` by its specification, in a part of a unit that starts at the offset `start`. Words:
// the next place, then name, form, the number of the case, its two numbers and the mark.
pub fn tehkumir_read_attribute(
    bytes: &[u8],
    start: usize,
    at: usize,
    version: u16,
    is_64: bool,
    width: u8,
    is_big: bool,
    name: u16,
    form: u16,
    constant: u64,
    out: &mut [u64],
) -> u64
    ensures { Gives read_attribute_words (read_attribute bytes.now start (encoding_of version is_64 width) (endian_of is_big) (specification_by name form constant) at) out.old out.new result }
{
    let source = source_of(start, version, is_64, width, is_big);
    let spec = AttributeSpecification {
        name,
        form,
        constant,
    };
    match parse_attribute(bytes, at, source, spec) {
        Ok((attribute, next)) => {
            let mut words = Words::new(out);
            words.put(&[next as u64]);
            words.put_attribute(attribute);
            words.finish()
        }
        Err(e) => refuse(out, e),
    }
}
