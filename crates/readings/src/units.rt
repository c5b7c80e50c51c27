// Units, and the example unit's entries.

use abbrev::abbreviations::Abbreviations;
use abbrev::lent::LentRows;
use entries::open::{entry, open_unit};
use entries::raw::EntriesRaw;
use lent::call::call;
use reader::endianity::RunTimeEndian;
use reader::error::Error;
use unit::header::UnitHeader;
use unit::parse::SectionId;

// The first unit of a section, under a name.
pub fn first(rt: &impl Print, name: &str, section: &[u8]) {
    let units = SectionId::DebugInfo.units();
    let _ = match units.next(section, RunTimeEndian::Little).unit {
        Ok(Some(_)) => println!(rt; "{name}: read"),
        Ok(None) => println!(rt; "{name}: no unit"),
        Err(e) => println!(rt; "{name}: refused {}", e.number()),
    };
}

// Document 01's example unit, with the example's table, and a reader before its first entry.
#[derive(Drop)]
struct Example<'a> {
    header: UnitHeader,
    section: &'a [u8],
    abbreviations: Abbreviations<'a>,
    raw: EntriesRaw,
}

impl Example<'_> {
    // The tag of the entry at an offset.
    fn found(&self, rt: &impl Print, offset: usize) -> Result<(), Error> {
        let unit = self.header.bytes(self.section)?;
        let little = RunTimeEndian::Little;
        let found = entry(self.header, unit, &self.abbreviations, offset, little)?;
        let _ = print!(rt; "tag {}", found.tag);
        Ok(())
    }

    // What each call on a lent state says in turn, then two that find a null and the end.
    fn in_turn(&self, rt: &impl Print) -> Result<(), Error> {
        let unit = self.header.bytes(self.section)?;
        let bytes = self.header.entries_buf(unit)?;
        let mut raw = self.raw;
        for op in [2, 1, 0, 0, 0] {
            let read = call(raw, op, bytes, &self.abbreviations);
            let _ = match read.answer {
                Ok(true) => print!(rt; " tag {}", read.entry.tag),
                Ok(false) => print!(rt; " null"),
                Err(e) => print!(rt; " refused {}", e.number()),
            };
            raw = read.raw;
        }
        Ok(())
    }
}

// What is done with the example, or the refusal.
// Kept (6): fixed memory: the rows are lent, as to every call on a table, and they are as long as the example's table.
fn with_example<F>(rt: &impl Print, use_it: F)
where
    F: FnOnce(Example<'_>) -> Result<(), Error>,
    requires { F.IsAlwaysCallable use_it }
{
    let table = b"\x01\x11\x01\x03\x08\x00\x00\x02\x34\x00\x0b\x0b\x00\x00\x00";
    let section = b"\x0f\x00\x00\x00\x04\x00\x00\x00\x00\x00\x08\x01\x61\x00\x02\x05\x02\x07\x00";
    let mut rows = [0; 10];
    let mut specs = [0; 6];
    let mut lent = LentRows {
        rows: &mut rows,
        specs: &mut specs,
    };
    let opened = open_unit(section, 0, table, RunTimeEndian::Little, &mut lent);
    let used = opened.and_then(|(header, cursor)| {
        use_it(Example {
            header,
            section,
            abbreviations: lent.table(),
            raw: cursor.input,
        })
    });
    let _ = match used {
        Ok(()) => println!(rt),
        Err(e) => println!(rt; "refused {}", e.number()),
    };
}

pub fn offset(rt: &impl Print, offset: usize) {
    let _ = print!(rt; "offset {offset} of the example: ");
    with_example(rt, |unit| unit.found(rt, offset));
}

pub fn lent_calls(rt: &impl Print) {
    let _ = print!(rt; "the example by calls on a lent state:");
    with_example(rt, |unit| unit.in_turn(rt));
}
