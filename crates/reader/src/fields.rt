// Fields that headers and values share.
// Kept (5): document 01 has "one byte slice, a position and a byte order". The position alone moves, and is half of an answer, so
// a struct of the three would be made anew for each read: `read_u16(Input { at: next, ..input })` for `read_u16(bytes, next, endian)`.

ghost use Rattle.std.specs.Prelude.{◌≡◌};
ghost use Rattle.reader.specs.Fields.{initial_length_at, is_address_size, address_size_at, address_at, offset_at, long_length_at, null_terminated_at, skip_at};
ghost use Rattle.reader.specs.Views.{view, view_read};

use super::answer::{Initial, Read, Span};
use super::common::Format;
use super::endianity::RunTimeEndian;
use super::error::Error;
use super::leb128::past;
use super::words::{read_u8, read_u16, read_u32, read_u64};

// The 64-bit length that follows 0xffffffff.
#[tactic(auto, unfolding(crate::specs::Fields::long_length_at))]
fn read_long_length(bytes: &[u8], at: usize, endian: RunTimeEndian) -> Read<Initial>
    ensures { view_read result ≡ long_length_at bytes.now at endian }
{
    let (unit_length, next) = read_u64(bytes, at, endian)?;
    let initial = Initial {
        unit_length,
        format: Format::Dwarf64,
    };
    Ok((initial, next))
}

// In line, since a call has the answer stored, and loaded again at once: every header begins with one.
#[tactic(auto, unfolding(crate::specs::Fields::initial_length_at))]
#[inline(always)]
pub fn read_initial_length(bytes: &[u8], at: usize, endian: RunTimeEndian) -> Read<Initial>
    ensures { view_read result ≡ initial_length_at bytes.now at endian }
{
    let (unit_length, next) = read_u32(bytes, at, endian)?;
    if unit_length < 0xfffffff0 {
        let initial = Initial {
            unit_length,
            format: Format::Dwarf32,
        };
        return Ok((initial, next));
    }
    if unit_length == 0xffffffff {
        return read_long_length(bytes, next, endian);
    }
    Err(Error::UnknownReservedLength)
}

// Whether `size` is the width of an address.
#[tactic(auto, unfolding(crate::specs::Fields::is_address_size))]
pub fn is_address_size(size: u64) -> bool
    ensures { result ≡ is_address_size size }
{
    matches!(size, 1 | 2 | 4 | 8)
}

#[tactic(auto, unfolding(crate::specs::Fields::address_size_at))]
pub fn read_address_size(bytes: &[u8], at: usize) -> Read<u64>
    ensures { view_read result ≡ address_size_at bytes.now at }
{
    let (size, next) = read_u8(bytes, at)?;
    if is_address_size(size) {
        Ok((size, next))
    } else {
        Err(Error::UnsupportedAddressSize)
    }
}

#[tactic(auto, using(crate::proofs::WordLaws::word_one, crate::proofs::FieldLaws::not_size), unfolding(crate::specs::Fields::address_at, crate::specs::Fields::is_address_size))]
pub fn read_address(bytes: &[u8], at: usize, address_size: u8, endian: RunTimeEndian) -> Read<u64>
    ensures { view_read result ≡ address_at bytes.now at address_size endian }
{
    // Kept (7): a width is a number in the bytes, and any may be asked for; an enum of the four widths, which `TryFrom` makes by
    // this same match, would be matched here once more.
    match address_size {
        1 => read_u8(bytes, at),
        2 => read_u16(bytes, at, endian),
        4 => read_u32(bytes, at, endian),
        8 => read_u64(bytes, at, endian),
        _ => Err(Error::UnsupportedAddressSize),
    }
}

// DW_FORM_ref_addr in version 2.
pub fn read_sized_offset(bytes: &[u8], at: usize, size: u8, endian: RunTimeEndian) -> Read<u64>
    ensures { view_read result ≡ address_at bytes.now at size endian }
{
    read_address(bytes, at, size, endian)
}

#[tactic(auto, unfolding(crate::specs::Fields::offset_at))]
pub fn read_offset(bytes: &[u8], at: usize, format: Format, endian: RunTimeEndian) -> Read<u64>
    ensures { view_read result ≡ offset_at bytes.now at format endian }
{
    match format {
        Format::Dwarf32 => read_u32(bytes, at, endian),
        Format::Dwarf64 => read_u64(bytes, at, endian),
    }
}

#[tactic(auto, using(crate::proofs::Accepted::past_in), unfolding(crate::specs::Fields::null_terminated_at))]
pub fn read_null_terminated_slice(bytes: &[u8], at: usize) -> Read<Span>
    ensures { view_read result ≡ null_terminated_at bytes.now at }
{
    let next = past(bytes, at, 1)?;
    let len = next - 1 - at;
    Ok((Span { start: at, len }, next))
}

// Past `len` bytes.
#[tactic(auto, unfolding(crate::specs::Fields::skip_at))]
pub fn skip(bytes: &[u8], at: usize, len: u64) -> Result<usize, Error>
    ensures { view result ≡ skip_at bytes.now at len }
{
    // Kept (4): `usize` has 64 bits, and Rust has no `From` between it and `u64`.
    let rest = bytes.len().checked_sub(at).ok_or(Error::UnexpectedEof)?;
    if (rest as u64) < len {
        return Err(Error::UnexpectedEof);
    }
    Ok(at + len as usize)
}
