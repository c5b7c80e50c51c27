// The readings of document 01 and the LEB128 examples of DWARF 5, section 7.6, run: each writes a
// line with what came out, and the file `stdout` has what they must write.

#![tactic(auto)]

ghost use Rattle.std.specs.Prelude.{All};
ghost use Rattle.readings.specs.Marked.{HoldsReading, marked};
ghost use Rattle.readings.specs.Examples.{HoldsExample, examples};

mod numbers; // LEB128 numbers
mod say; // what is written
mod tables; // tables of many pairs
mod units; // units, and the example unit's entries
mod values; // values, read and skipped

// Those that are proved too: the list `marked` of specs/, in its order.
#[tactic(auto, using(crate::proofs::Marked::all_marked))]
fn proved(rt: &impl Print)
    ensures { All HoldsReading marked }
{
    numbers::unsigned(rt, b"\xb9\x64");
    numbers::signed(rt, b"\x81\x7f");
    numbers::unsigned(rt, b"\xff\xff\xff\xff\xff\xff\xff\xff\xff\x01");
    numbers::unsigned(rt, b"\xff\xff\xff\xff\xff\xff\xff\xff\xff\x02");
    numbers::signed(rt, b"\x80\x80\x80\x80\x80\x80\x80\x80\x80\x7f");
    numbers::signed(rt, b"\x80\x80\x80\x80\x80\x80\x80\x80\x80\x01");
    numbers::short(rt, b"\xff\xff\x03");
    numbers::short(rt, b"\x80\x80\x04");
    units::first(rt, "empty section", b"");
    let type_7 = b"\x08\x00\x00\x00\x05\x00\x07\x03\x00\x00\x00\x00";
    units::first(rt, "version 5, type 7, width 3", type_7);
    values::both(rt, "form 16", &[[3, 0x16, 0]], 8, b"\x21");
    values::both(rt, "form 01", &[[3, 0x01, 0]], 3, b"\x01\x02\x03");
}

// The other readings, with an offset that has an entry, calls on a lent state, and the sum that would
// wrap.
fn others(rt: &impl Print) {
    tables::pairs(rt, 64);
    tables::pairs(rt, 65);
    units::first(
        rt,
        "version 1",
        b"\x07\x00\x00\x00\x01\x00\x00\x00\x00\x00\x08",
    );
    units::first(
        rt,
        "version 6",
        b"\x07\x00\x00\x00\x06\x00\x00\x00\x00\x00\x08",
    );
    units::offset(rt, 10);
    units::offset(rt, 11);
    units::offset(rt, 18);
    units::offset(rt, 19);
    units::lent_calls(rt);
    let block = b"\xff\xff\xff\xff\xff\xff\xff\xff\xff\x01\x00";
    values::both(
        rt,
        "forms 09 and 0b",
        &[[3, 0x09, 0], [3, 0x0b, 0]],
        8,
        block,
    );
}

// DWARF 5, section 7.6, tables 7.7 and 7.8.
fn standard(rt: &impl Print) {
    numbers::unsigned(rt, b"\x02");
    numbers::unsigned(rt, b"\x7f");
    numbers::unsigned(rt, b"\x80\x01");
    numbers::unsigned(rt, b"\x81\x01");
    numbers::unsigned(rt, b"\xb9\x64");
    numbers::signed(rt, b"\x02");
    numbers::signed(rt, b"\x7e");
    numbers::signed(rt, b"\xff\x00");
    numbers::signed(rt, b"\x81\x7f");
    numbers::signed(rt, b"\x80\x01");
    numbers::signed(rt, b"\x80\x7f");
    numbers::signed(rt, b"\x81\x01");
    numbers::signed(rt, b"\xff\x7e");
}

// Document 02, request 2; those of 64 bits are proved too (specs/Examples.antt).
#[tactic(auto, using(crate::proofs::Examples::all_examples))]
fn padded(rt: &impl Print)
    ensures { All HoldsExample examples }
{
    numbers::unsigned(rt, b"\x80\x00");
    numbers::unsigned(rt, b"\xff\x00");
    numbers::signed(rt, b"\xff\x00");
    numbers::signed(rt, b"\x80\x7f");
    numbers::signed(rt, b"\xbf\x00");
    numbers::signed(rt, b"\xff\x7f");
    numbers::short(rt, b"\xff\x80\x00");
}

fn main(rt: HostRuntime) {
    proved(&rt);
    others(&rt);
    standard(&rt);
    padded(&rt);
}
