// Values skipped: known sizes are summed and moved by at once, as gimli's skip_attributes does.

ghost use Rattle.std.specs.Prelude.{◌≡◌, ◌≤◌, length};
ghost use Rattle.reader.specs.Answer.{and_then};
ghost use Rattle.reader.specs.Fields.{skip_at};
ghost use Rattle.reader.specs.Views.{view, view_read};
ghost use Rattle.abbrev.specs.Table.{entry_limit};
ghost use Rattle.abbrev.specs.Views.{found_of};
ghost use Rattle.attribute.specs.Attributes.{skip_attributes};
ghost use Rattle.attribute.specs.Skip.{past_block, past_layout, past_value, past_values};

use super::form::{Layout, row_of};
use super::part::{Listed, Part, judged};
use super::raw::final_form;
use super::size::{get_attribute_size, ref_addr_size};
use super::source::Source;
use abbrev::lookup::Abbreviation;
use reader::answer::Read;
use reader::error::Error;
use reader::fields::{read_null_terminated_slice, skip};
use reader::leb128::{skip_leb128, uleb128};
use reader::words::{read_u8, read_u16, read_u32};

// What is yet to be moved by, and from where: the count of a block, or the size of a form.
#[tactic(auto, using(crate::proofs::ReadLaws::past_laws), unfolding(crate::specs::Skip::past_block, crate::specs::Skip::past_layout, crate::specs::Skip::ending_of))]
fn skip_layout(part: &Part<'_>, at: usize, layout: Layout) -> Read<u64>
    ensures { past_block part.now.bytes (view_read result) ≡ past_layout part.now.bytes part.now.encoding part.now.endian layout at }
{
    let bytes = part.bytes;
    let Source {
        encoding,
        endian,
        ..
    } = part.source;
    match layout {
        Layout::U8 => Ok((1, at)),
        Layout::U16 => Ok((2, at)),
        Layout::U24 => Ok((3, at)),
        Layout::U32 => Ok((4, at)),
        Layout::U64 => Ok((8, at)),
        Layout::U128 => Ok((16, at)),
        Layout::Offset => Ok((u64::from(encoding.format.word_size()), at)),
        Layout::Address => Ok((u64::from(encoding.address_size), at)),
        Layout::RefAddr => Ok((u64::from(ref_addr_size(encoding)), at)),
        Layout::Uleb128 | Layout::Sleb128 => Ok((0, skip_leb128(bytes, at)?)),
        Layout::Block1 => read_u8(bytes, at),
        Layout::Block2 => read_u16(bytes, at, endian),
        Layout::Block4 => read_u32(bytes, at, endian),
        Layout::Block => uleb128(bytes, at),
        Layout::NullTerminated => {
            let (_, next) = read_null_terminated_slice(bytes, at)?;
            Ok((0, next))
        }
        Layout::Present | Layout::ImplicitConst => Ok((0, at)),
        Layout::Unknown => Err(Error::UnknownForm),
    }
}

// A form without a size of its own.
#[tactic(auto, using(crate::proofs::PaddedLaws::final_plainly), unfolding(crate::specs::Skip::past_block, crate::specs::Skip::past_value))]
fn skip_variable(part: &Part<'_>, at: usize, form: u64) -> Read<u64>
    ensures { past_block part.now.bytes (view_read result) ≡ past_value part.now.bytes part.now.encoding part.now.endian form at }
{
    let (last, next) = final_form(part.bytes, form, at)?;
    skip_layout(part, next, row_of(last.form).layout)
}

// One value, with `sum` bytes before it yet to move by.
#[tactic(auto, using(crate::proofs::ReadLaws::sized_sum, reader::proofs::FieldLaws::skip_in, reader::proofs::FieldLaws::skip_short), unfolding(crate::specs::Skip::past_block))]
fn skip_value(part: &Part<'_>, at: usize, form: u64, sum: u64) -> Read<u64>
    ensures { past_block part.now.bytes (view_read result) ≡ and_then (skip_at part.now.bytes at sum) (λ p. past_value part.now.bytes part.now.encoding part.now.endian form p) }
{
    if let Some(size) = get_attribute_size(form, part.source.encoding) {
        let more = sum
            .checked_add(u64::from(size))
            .ok_or(Error::UnexpectedEof)?;
        return Ok((more, at));
    }
    let next = skip(part.bytes, at, sum)?;
    skip_variable(part, next, form)
}

#[tactic(auto, using(crate::proofs::ListLaws::skipped_laws), unfolding(crate::specs::Skip::past_block))]
fn skip_listed(part: &Part<'_>, at: usize, listed: &Listed<'_>) -> Result<usize, Error>
    requires { at ≤ length part.now.bytes }
    ensures { view result ≡ past_values part.now.bytes part.now.encoding part.now.endian listed.now at }
{
    let mut next = at;
    let mut sum = 0;
    for row in listed.rows {
        (sum, next) = skip_value(part, next, row[1], sum)?;
    }
    skip(part.bytes, next, sum)
}

// gimli's `skip_attributes`.
// Kept (7): as `pass_attributes`.
#[tactic(auto, unfolding(crate::specs::Attributes::skip_attributes))]
pub fn skip_attributes(
    bytes: &[u8],
    at: usize,
    source: Source,
    abbreviation: Abbreviation,
    specs: &[u64],
) -> Result<usize, Error>
    ensures { view result ≡ skip_attributes entry_limit.most bytes.now source.start source.encoding source.endian specs.now (found_of abbreviation) at }
{
    let (part, listed) = judged(bytes, at, source, abbreviation, specs)?;
    skip_listed(&part, at, &listed)
}
