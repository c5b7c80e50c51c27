// Lines as text in a lent buffer. None has more than the 72 bytes that it is begun with (`text_most`).

ghost use Rattle.std.specs.Prelude.{[], ◌∷◌, ◌++◌, ◌+◌, ◌≤◌, length, get_or};

use super::lines::Lines;
use super::numeral::Numeral;
use reader::error::Error;
use reader::twos::from_word;
use unit::header::UnitHeader;

// Kept (4): as `Display`, a line would be written by `write!`, which is too slow and not proved (numeral.rt).
// Kept (5): that there is room holds where a line begins only; a type that says so would be false after its first byte.
impl Lines<'_> {
    ghost use Rattle.reader.specs.Twos.{twos};
    ghost use Rattle.listing.specs.Listing.{head_line, item_text};
    ghost use Rattle.listing.specs.Piece.{room};
    ghost use Rattle.listing.specs.Written.{Put, Lined, view_line};

    fn put(&mut self, text: &[u8])
        requires { self.old.end + length text.now ≤ length self.old.out.now }
        ensures { Put self.old self.new text.now }
    {
        let end = self.end + text.len();
        self.out[self.end..end].copy_from_slice(text);
        self.end = end;
    }

    // A number and a byte after it.
    fn put_field(&mut self, numeral: &Numeral, after: u8)
        requires { self.old.end + length (numeral.now ++ (after ∷ [])) ≤ length self.old.out.now }
        ensures { Put self.old self.new (numeral.now ++ (after ∷ [])) }
    {
        self.put(numeral.text());
        self.put(&[after]);
    }

    // Offset, version, bits of an offset and bytes of an address.
    #[tactic(auto, using(crate::proofs::TextLaws::rooms))]
    fn put_unit(&mut self, header: UnitHeader)
        requires { self.old.end + room ≤ length self.old.out.now }
        ensures { Lined self.old self.new (head_line header) }
    {
        let encoding = header.encoding;
        let bits = 8 * u64::from(encoding.format.word_size());
        self.put(b"unit ");
        self.put_field(&Numeral::decimal(header.offset as u64), b' ');
        self.put_field(&Numeral::decimal(u64::from(encoding.version)), b' ');
        self.put_field(&Numeral::decimal(bits), b' ');
        self.put_field(&Numeral::decimal(u64::from(encoding.address_size)), b'\n');
    }

    // A line that is no item's: a unit's, `end` or a refusal.
    #[tactic(auto, using(crate::proofs::TextLaws::rooms))]
    pub(crate) fn put_line(&mut self, line: Result<Option<UnitHeader>, Error>)
        requires { self.old.end + room ≤ length self.old.out.now }
        ensures { Lined self.old self.new (view_line line) }
    {
        match line {
            Ok(Some(header)) => self.put_unit(header),
            Ok(None) => self.put(b"end\n"),
            Err(error) => {
                self.put(b"refused ");
                self.put_field(&Numeral::decimal(error.number()), b'\n');
            }
        }
    }

    // The line of an item's words: offset, depth, tag and count of values; a null, which has no tag, has `null`
    // for the last two.
    #[tactic(auto, using(crate::proofs::TextLaws::rooms))]
    pub(crate) fn put_item(&mut self, item: &[u64; 4])
        requires room { self.old.end + room ≤ length self.old.out.now }
        requires tag { get_or item.now 2 0 ≤ 65535 }
        ensures { Lined self.old self.new (item_text (get_or item.now 0 0) (twos 64 (get_or item.now 1 0)) (get_or item.now 2 0) (get_or item.now 3 0)) }
    {
        let &[offset, depth, tag, count] = item;
        self.put_field(&Numeral::decimal(offset), b' ');
        self.put(Numeral::signed(from_word(depth)).text());
        if tag == 0 {
            self.put(b" null\n");
            return;
        }
        self.put(b" 0x");
        self.put_field(&Numeral::hexadecimal(tag), b' ');
        self.put_field(&Numeral::decimal(count), b'\n');
    }
}
