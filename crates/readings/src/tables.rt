// Tables of many pairs.

ghost use Rattle.std.specs.Prelude.{◌≤◌};

use abbrev::lent::LentRows;
use reader::error::Error;

// A table of one abbreviation with so many attributes, and what the table call answers.
// Kept (6): fixed memory, as a table is lent; the section's bytes are a head, the pairs and zeros, and the pairs are
// written as an array of two each.
fn table(n: usize) -> Result<usize, Error>
    requires { n ≤ 65 }
{
    let mut section = [0; 140];
    section[0] = 1;
    section[1] = 0x11;
    let (pairs, _) = section[3..3 + 2 * n].as_chunks_mut();
    pairs.fill([3, 0x0b]);
    let mut rows = [0; 5];
    let mut specs = [0; 195];
    LentRows {
        rows: &mut rows,
        specs: &mut specs,
    }
    .read_table(&section, 0)
}

pub fn pairs(rt: &impl Print, n: usize)
    requires { n ≤ 65 }
{
    let _ = match table(n) {
        Ok(_) => println!(rt; "{n} pairs: read"),
        Err(e) => println!(rt; "{n} pairs: refused {}", e.number()),
    };
}
