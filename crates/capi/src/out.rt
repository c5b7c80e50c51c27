// Answers as words in a lent slice.

ghost use Rattle.std.specs.Prelude.{[], ◌∷◌, ◌++◌, map, ◌≡◌, ◌≤◌, cond, leb, length};
ghost use Rattle.reader.specs.declared.common.Format.TheVariants.{Dwarf32, Dwarf64};
ghost use Rattle.reader.specs.Errors.{number_of};
ghost use Rattle.attribute.specs.Views.{view_attribute};
ghost use Rattle.entries.specs.Views.{view_entry};
ghost use Rattle.reader.specs.Views.{view};
ghost use Rattle.capi.specs.Words.{Says, status_of, encoding_of, endian_of, attribute_words, attributes_words, entry_words};

use attribute::source::Source;
use attribute::value::{Attribute, Value};
use entries::entry::Entry;
use reader::common::{Encoding, Format};
use reader::endianity::RunTimeEndian;
use reader::error::Error;
use reader::fill::fill;
use reader::twos::to_word;

// Kept (4): C's flags. `From<bool>` could stand in `reader` alone, and `Format::from(is_64)` would not say which format `true` is.
fn format_of(is_64: bool) -> Format
    ensures { result ≡ cond is_64 Dwarf64 Dwarf32 }
{
    if is_64 {
        Format::Dwarf64
    } else {
        Format::Dwarf32
    }
}

// Kept (4): as `format_of`.
pub(crate) fn endian_of(is_big: bool) -> RunTimeEndian
    ensures { result ≡ endian_of is_big }
{
    if is_big {
        RunTimeEndian::Big
    } else {
        RunTimeEndian::Little
    }
}

// What the values of a part are read with, as C tells it.
pub(crate) fn source_of(start: usize, version: u16, is_64: bool, width: u8, is_big: bool) -> Source
    ensures { result ≡ record { start = start; encoding = encoding_of version is_64 width; endian = endian_of is_big } }
{
    Source {
        start,
        encoding: Encoding {
            address_size: width,
            format: format_of(is_64),
            version,
        },
        endian: endian_of(is_big),
    }
}

// C gets an answer without words as a status: 0 or the number of the refusal.
pub(crate) fn status_of<T: Drop>(answer: Result<T, Error>) -> u64
    ensures { result ≡ status_of (view answer) }
{
    answer.err().map_or(0, u64::from)
}

// A refusal: its number, and no words.
pub(crate) fn refuse(out: &mut [u64], error: Error) -> u64
    ensures { Says (number_of error) [] out.old out.new result }
{
    fill(out, 0, 0);
    error.number()
}

// The words of an answer, one after another in a lent slice as far as it has room.
#[derive(Drop)]
pub(crate) struct Words<'a> {
    out: &'a mut [u64],
    // where they end
    end: usize,
    ghost inside: { end ≤ length out.now },
}

impl<'a> Words<'a> {
    ghost use Rattle.capi.specs.Stored.{Begun, Stored, Finished};

    // None yet.
    pub(crate) fn new(out: &'a mut [u64]) -> Words<'a>
        ensures lent { result.out.ghost_name ≡ out.entry.ghost_name }
        ensures begun { Begun out.old result }
    {
        Words { out, end: 0 }
    }

    fn put_word(&mut self, word: u64)
        ensures { Stored self.old self.new (word ∷ []) }
    {
        if self.end < self.out.len() {
            self.out[self.end] = word;
            self.end += 1;
        }
    }

    // One test for each word: a loop that ends where the room does is compiled to a call of memcpy.
    pub(crate) fn put(&mut self, words: &[u64])
        ensures { Stored self.old self.new words.now }
    {
        for word in words {
            self.put_word(*word);
        }
    }

    // Whether no word finds room.
    pub(crate) fn is_full(&self) -> bool
        ensures { result ≡ leb (length self.now.out.now) self.now.end }
    {
        self.out.len() <= self.end
    }

    pub(crate) fn put_attribute(&mut self, attribute: Attribute)
        ensures { Stored self.old self.new (attribute_words (view_attribute attribute)) }
    {
        let numbers = Value::from(attribute.value);
        self.put(&[
            u64::from(attribute.name),
            u64::from(attribute.form),
            u64::from(numbers.kind.case().number),
            numbers.low,
            numbers.high,
            u64::from(attribute.padded),
        ]);
    }

    fn put_attributes(&mut self, attributes: &[Attribute])
        ensures { Stored self.old self.new (attributes_words (map view_attribute attributes.now)) }
    {
        for attribute in attributes {
            self.put_attribute(*attribute);
        }
    }

    // An entry's words; none are stored where there is no room for the first. In line, since a call copies
    // the entry; lent, it was copied too. Callers of many calls ask for the room before they hand it over.
    #[inline(always)]
    pub(crate) fn put_entry(&mut self, entry: Entry)
        ensures { Stored self.old self.new (entry_words (view_entry entry)) }
    {
        if self.is_full() {
            return;
        }
        self.put(&[
            entry.offset as u64,
            to_word(entry.depth),
            u64::from(entry.tag),
            u64::from(entry.has_children),
            entry.count as u64,
        ]);
        let attrs = entry.attrs.as_slice();
        let held = entry.count.min(attrs.len());
        self.put_attributes(&attrs[..held]);
    }

    // Zeros behind the words, and the status of an answer that has words.
    pub(crate) fn finish(self) -> u64
        ensures { Finished self.entry self.exit.0.now result }
    {
        let Words { out, end } = self;
        fill(out, end, 0);
        0
    }
}

// The words of an answer, zeros behind them, and its status.
pub(crate) fn give(out: &mut [u64], words: &[u64]) -> u64
    ensures { Says 0 words.now out.old out.new result }
{
    let mut given = Words::new(out);
    given.put(words);
    given.finish()
}
