// Unit headers, the lists of units, an entry by its offset, and a type by its signature.

ghost use Rattle.abbrev.specs.Table.{entry_limit};
ghost use Rattle.unit.specs.Parse.{debug_info, debug_types, header_at};
ghost use Rattle.unit.specs.Units.{next_unit};
ghost use Rattle.capi.specs.Words.{Says, Gives, status_of, endian_of, entry_words, advanced_words, read_header_words};
ghost use Rattle.capi.specs.Units.{entry_in, TypeReadAs};

// The header at an offset of .debug_info. Words: its fields, as `header_words` lists them.
#[unsafe(no_mangle)]
pub extern "C" fn tehkumir_unit_header(
    section: &[u8],
    offset: u64,
    is_big: bool,
    out: &mut [u64],
) -> u64
    ensures { Gives read_header_words (header_at debug_info section.now offset (endian_of is_big)) out.old out.new result }
{
    capi::units::tehkumir_unit_header(section, offset, is_big, out)
}

// The list of units of .debug_info at one of its offsets, 0 at first. Words: where it goes on, then 1
// and the header, or 0 after the last.
#[unsafe(no_mangle)]
pub extern "C" fn tehkumir_next_unit(
    section: &[u8],
    at: usize,
    is_big: bool,
    out: &mut [u64],
) -> u64
    ensures { Says (status_of (next_unit debug_info section.now at (endian_of is_big)).answer) (advanced_words (next_unit debug_info section.now at (endian_of is_big))) out.old out.new result }
{
    capi::units::tehkumir_next_unit(section, at, is_big, out)
}

// The same list of .debug_types.
#[unsafe(no_mangle)]
pub extern "C" fn tehkumir_types_next_unit(
    section: &[u8],
    at: usize,
    is_big: bool,
    out: &mut [u64],
) -> u64
    ensures { Says (status_of (next_unit debug_types section.now at (endian_of is_big)).answer) (advanced_words (next_unit debug_types section.now at (endian_of is_big))) out.old out.new result }
{
    capi::units::tehkumir_types_next_unit(section, at, is_big, out)
}

// The entry at an offset of the unit at `unit` of .debug_info, with the unit's table in the rows.
// Words: the entry.
#[unsafe(no_mangle)]
pub extern "C" fn tehkumir_entry(
    section: &[u8],
    unit: u64,
    offset: usize,
    is_big: bool,
    rows: &[u64],
    specs: &[u64],
    out: &mut [u64],
) -> u64
    ensures { Gives entry_words (entry_in entry_limit.most section.now unit offset (endian_of is_big) rows.now specs.now) out.old out.new result }
{
    capi::units::tehkumir_entry(section, unit, offset, is_big, rows, specs, out)
}

// The first unit of .debug_types that carries the signature, and its type entry. The unit's table is
// left in the rows, which are zero where none was read. Words: the header, which has 10, and the entry.
#[unsafe(no_mangle)]
pub extern "C" fn tehkumir_type_entry(
    types: &[u8],
    abbrevs: &[u8],
    signature: u64,
    is_big: bool,
    rows: &mut [u64],
    specs: &mut [u64],
    out: &mut [u64],
) -> u64
    ensures { TypeReadAs abbrevs.now types.now signature (endian_of is_big) rows.old specs.old rows.new specs.new out.old out.new result }
{
    capi::units::tehkumir_type_entry(types, abbrevs, signature, is_big, rows, specs, out)
}
