// What stands in the bytes, by its form's layout.

ghost use Rattle.std.specs.Prelude.{false, ◌≡◌};
ghost use Rattle.reader.specs.Leb128.{uleb_at};
ghost use Rattle.reader.specs.Views.{view_read};
ghost use Rattle.abbrev.specs.Views.{specification_of};
ghost use Rattle.attribute.specs.Padded.{unsigned, signed, is_padded, any_padded, layout_numbers, form_numbers};
ghost use Rattle.attribute.specs.Read.{pair, numbered, wide_at, signed_at, ref_addr_at, block_after, string_at, constant_of, raw_at, final_form, form_at, numbers_at};
ghost use Rattle.attribute.specs.Steps.{noted};
ghost use Rattle.attribute.specs.Views.{noted_numbers, view_raw, view_final, view_form_value};

use super::form::{Kind, Layout, row_of};
use super::part::Part;
use super::source::Source;
use abbrev::lookup::AttributeSpecification;
use abbrev::table::IMPLICIT_CONST;
use reader::answer::Read;
use reader::endianity::RunTimeEndian;
use reader::error::Error;
use reader::fields::{
    read_address, read_null_terminated_slice, read_offset, read_sized_offset, skip,
};
use reader::leb128::{read_sleb128, read_uleb128, read_uleb128_u16};
use reader::twos::to_word;
use reader::words::{read_u8, read_u16, read_u24, read_u32, read_u64, read_u128};

pub(crate) const INDIRECT: u64 = 0x16;

// A number, whether a LEB128 number read for it is padded, and a second number. The numbers are not
// neighbours: loaded as one, they would wait for the stores of both.
#[derive(Clone, Copy, Debug, PartialEq, Eq)]
pub struct Raw {
    pub low: u64,
    pub padded: bool,
    pub high: u64,
}

// The same behind a form's case.
#[derive(Clone, Copy, Debug, PartialEq, Eq)]
pub struct FormValue {
    pub kind: Kind,
    pub raw: Raw,
}

// A form, and whether a number that named a form before it is padded.
#[derive(Clone, Copy, Debug, PartialEq, Eq)]
pub struct Final {
    pub form: u64,
    pub padded: bool,
}

impl Raw {
    fn new(low: u64, high: u64, padded: bool) -> Raw
        ensures { noted_numbers result ≡ record { value = pair low high; padded = padded } }
    {
        Raw { low, padded, high }
    }
}

#[tactic(auto, unfolding(crate::specs::Read::numbered))]
fn number(read: Read<u64>) -> Read<Raw>
    ensures { view_raw result ≡ noted false (numbered (view_read read)) }
{
    let (low, next) = read?;
    Ok((Raw::new(low, 0, false), next))
}

#[tactic(auto, unfolding(crate::specs::Read::wide_at))]
fn wide(bytes: &[u8], at: usize, endian: RunTimeEndian) -> Read<Raw>
    ensures { view_raw result ≡ noted false (wide_at bytes.now at endian) }
{
    let (halves, next) = read_u128(bytes, at, endian)?;
    Ok((Raw::new(halves.low, halves.high, false), next))
}

#[tactic(auto, using(crate::proofs::PaddedLaws::counted_laws), unfolding(crate::specs::Read::numbered, crate::specs::Padded::is_padded))]
fn unsigned(bytes: &[u8], at: usize) -> Read<Raw>
    ensures { view_raw result ≡ noted (is_padded bytes.now (unsigned 64 at)) (numbered (uleb_at bytes.now at 64)) }
{
    let (value, next) = read_uleb128(bytes, at)?;
    Ok((Raw::new(value.number, 0, value.padded), next))
}

#[tactic(auto, using(crate::proofs::PaddedLaws::counted_laws, std::proofs::lemmas::Int::ints), unfolding(crate::specs::Read::signed_at, crate::specs::Padded::is_padded))]
fn signed(bytes: &[u8], at: usize) -> Read<Raw>
    ensures { view_raw result ≡ noted (is_padded bytes.now (signed 64 at)) (signed_at bytes.now at) }
{
    let (value, next) = read_sleb128(bytes, at)?;
    Ok((Raw::new(to_word(value.number), 0, value.padded), next))
}

#[tactic(auto, unfolding(crate::specs::Read::ref_addr_at))]
fn read_ref_addr(part: &Part<'_>, at: usize) -> Read<u64>
    ensures { view_read result ≡ ref_addr_at part.now.bytes at part.now.encoding part.now.endian }
{
    let bytes = part.bytes;
    let Source {
        encoding,
        endian,
        ..
    } = part.source;
    if encoding.version == 2 {
        read_sized_offset(bytes, at, encoding.address_size, endian)
    } else {
        read_offset(bytes, at, encoding.format, endian)
    }
}

// The bytes that follow their count.
#[tactic(auto, using(reader::proofs::FieldLaws::skip_in), unfolding(crate::specs::Read::block_after))]
fn block(part: &Part<'_>, count: Read<u64>, padded: bool) -> Read<Raw>
    ensures { view_raw result ≡ noted padded (block_after part.now.bytes part.now.start (view_read count)) }
{
    let (len, at) = count?;
    let next = skip(part.bytes, at, len)?;
    Ok((Raw::new((part.source.start + at) as u64, len, padded), next))
}

// The same after a LEB128 number.
#[tactic(auto, using(crate::proofs::PaddedLaws::counted_laws), unfolding(crate::specs::Read::block_after, crate::specs::Padded::is_padded))]
fn measured(part: &Part<'_>, at: usize) -> Read<Raw>
    ensures { view_raw result ≡ noted (is_padded part.now.bytes (unsigned 64 at)) (block_after part.now.bytes part.now.start (uleb_at part.now.bytes at 64)) }
{
    let (count, next) = read_uleb128(part.bytes, at)?;
    block(part, Ok((count.number, next)), count.padded)
}

#[tactic(auto, using(reader::proofs::FieldLaws::null_in), unfolding(crate::specs::Read::string_at))]
fn string(part: &Part<'_>, at: usize) -> Read<Raw>
    ensures { view_raw result ≡ noted false (string_at part.now.bytes part.now.start at) }
{
    let (span, next) = read_null_terminated_slice(part.bytes, at)?;
    Ok((
        Raw::new(
            (part.source.start + span.start) as u64,
            span.len as u64,
            false,
        ),
        next,
    ))
}

#[tactic(auto, unfolding(crate::specs::Read::constant_of))]
fn constant(spec: AttributeSpecification, at: usize) -> Read<Raw>
    ensures { view_raw result ≡ noted false (constant_of (specification_of spec) at) }
{
    if u64::from(spec.form) == IMPLICIT_CONST {
        return Ok((Raw::new(spec.constant, 0, false), at));
    }
    Err(Error::InvalidImplicitConst)
}

#[tactic(auto, using(reader::proofs::WordLaws::word_one), unfolding(crate::specs::Read::raw_at, crate::specs::Padded::layout_numbers, crate::specs::Padded::any_padded))]
fn raw_at(part: &Part<'_>, at: usize, spec: AttributeSpecification, layout: Layout) -> Read<Raw>
    ensures { view_raw result ≡ noted (any_padded part.now.bytes (layout_numbers layout at)) (raw_at part.now.bytes part.now.start part.now.encoding part.now.endian (specification_of spec) layout at) }
{
    let bytes = part.bytes;
    let Source {
        encoding,
        endian,
        ..
    } = part.source;
    match layout {
        Layout::U8 => number(read_u8(bytes, at)),
        Layout::U16 => number(read_u16(bytes, at, endian)),
        Layout::U24 => number(read_u24(bytes, at, endian)),
        Layout::U32 => number(read_u32(bytes, at, endian)),
        Layout::U64 => number(read_u64(bytes, at, endian)),
        Layout::U128 => wide(bytes, at, endian),
        Layout::Offset => number(read_offset(bytes, at, encoding.format, endian)),
        Layout::Address => number(read_address(bytes, at, encoding.address_size, endian)),
        Layout::RefAddr => number(read_ref_addr(part, at)),
        Layout::Uleb128 => unsigned(bytes, at),
        Layout::Sleb128 => signed(bytes, at),
        Layout::Block1 => block(part, read_u8(bytes, at), false),
        Layout::Block2 => block(part, read_u16(bytes, at, endian), false),
        Layout::Block4 => block(part, read_u32(bytes, at, endian), false),
        Layout::Block => measured(part, at),
        Layout::NullTerminated => string(part, at),
        Layout::Present => Ok((Raw::new(1, 0, false), at)),
        Layout::ImplicitConst => constant(spec, at),
        Layout::Unknown => Err(Error::UnknownForm),
    }
}

// The form that a form is in the end: DW_FORM_indirect names another one in the bytes.
// Kept (5): a form and a position are others for each value, as in `parse`.
#[tactic(auto, using(crate::proofs::PaddedLaws::named_laws))]
pub(crate) fn final_form(bytes: &[u8], form: u64, at: usize) -> Read<Final>
    ensures { view_final result ≡ noted (any_padded bytes.now (form_numbers bytes.now form at)) (final_form bytes.now form at) }
{
    let mut last = form;
    let mut next = at;
    let mut padded = false;
    while last == INDIRECT {
        let (named, after) = read_uleb128_u16(bytes, next)?;
        last = named.number;
        next = after;
        padded |= named.padded;
    }
    Ok((Final { form: last, padded }, next))
}

#[tactic(auto, using(crate::proofs::PaddedLaws::form_stopped, crate::proofs::PaddedLaws::final_plainly), unfolding(crate::specs::Read::form_at))]
pub(crate) fn form_at(part: &Part<'_>, at: usize, spec: AttributeSpecification) -> Read<FormValue>
    ensures { view_form_value result ≡ noted (any_padded part.now.bytes (numbers_at part.now.bytes spec.form at)) (form_at part.now.bytes part.now.start part.now.encoding part.now.endian (specification_of spec) at) }
{
    let (last, next) = final_form(part.bytes, u64::from(spec.form), at)?;
    let row = row_of(last.form);
    let (raw, after) = raw_at(part, next, spec, row.layout)?;
    let raw = Raw {
        padded: last.padded | raw.padded,
        ..raw
    };
    Ok((
        FormValue {
            kind: row.kind,
            raw,
        },
        after,
    ))
}
