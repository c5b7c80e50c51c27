// The line of an item, and of none.

ghost use Rattle.std.specs.Prelude.{◌≡◌, ◌++◌, ◌-◌, ◌*◌, ◌^◌, ◌≤◌, ◌<◌, length, replicate};
ghost use Rattle.listing.specs.Text.{ascii};
ghost use Rattle.sheet.specs.Sheet.{tag_text, blank_line, in_bytes};
ghost use Rattle.sheet.specs.Steps.{splice, FairWords, placed, words_line};

use super::field::put_right;
use super::page::PAGE_SIZE;
use listing::numeral::Numeral;
use reader::twos::from_word;

fn put_tag(columns: &mut [u8], tag: u64)
    requires { (tag < 16 ^ 4) × (length columns.old ≡ 6) }
    ensures { columns.new ≡ tag_text tag }
{
    if tag == 0 {
        columns.copy_from_slice(b"null  ");
        return;
    }
    columns[..2].copy_from_slice(b"0x");
    put_right(&mut columns[2..], b'0', Numeral::hexadecimal(tag).text());
}

// The columns of an item and a line feed. Out of line, since most items of a unit have no line on a page.
#[inline(never)]
fn put_line(line: &mut [u8], item: &[u64; 4])
    requires room { length line.old ≡ 33 }
    requires fair { FairWords item.now }
    ensures { line.new ≡ words_line item.now ++ ascii "\n" }
{
    let &[offset, depth, tag, count] = item;
    put_right(&mut line[..10], b' ', Numeral::decimal(offset).text());
    line[10] = b' ';
    put_right(
        &mut line[11..22],
        b' ',
        Numeral::signed(from_word(depth)).text(),
    );
    line[22] = b' ';
    put_tag(&mut line[23..29], tag);
    line[29] = b' ';
    put_right(&mut line[30..32], b' ', Numeral::decimal(count).text());
    line[32] = b'\n';
}

// The line of the `k`-th item, if it has one on a page that begins with the `first`-th.
pub(crate) fn place_line(page: &mut [u8; PAGE_SIZE], first: usize, k: usize, item: &[u64; 4])
    requires { FairWords item.now }
    ensures { page.new ≡ placed first k (words_line item.now) page.old }
{
    if k < first {
        return;
    }
    let line = k - first;
    if line < 60 {
        put_line(&mut page[line * 33..line * 33 + 33], item);
    }
}

// Unused lines from a line on.
pub(crate) fn put_blank(page: &mut [u8; PAGE_SIZE], line: usize)
    requires { line ≤ 60 }
    ensures { page.new ≡ splice (line * 33) (in_bytes (replicate (60 - line) blank_line)) page.old }
{
    for i in line..60 {
        page[i * 33..i * 33 + 33].copy_from_slice(b"                                \n");
    }
}
