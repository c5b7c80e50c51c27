// The input of `shelflist`: two sections, each after its count.

ghost use Rattle.std.specs.Prelude.{◌≡◌, length, IfOk};
ghost use Rattle.listing.specs.Input.{section_at, input_of};
ghost use Rattle.listing.specs.declared.input.InputError.TheVariants.{Short};
ghost use Rattle.listing.specs.InputViews.{view_section, view_input, Within};

use reader::endianity::RunTimeEndian;
use reader::error::Error;
use reader::fields::skip;
use reader::words::read_u32;

// The bytes of a section that are taken at most.
pub const MOST: u64 = 32768;

// Why an input has no two sections.
#[derive(Clone, Copy, Debug, PartialEq, Eq)]
pub enum InputError {
    TooLong, // a count above `MOST`
    Short, // fewer bytes than counted
}

// `read_u32` and `skip` refuse for want of bytes alone.
impl From<Error> for InputError {
    ghost from_gives = { λ _ e. e ≡ Short };

    fn from(_error: Error) -> InputError {
        InputError::Short
    }
}

// Where a section lies, from its first byte up to its end.
#[derive(Clone, Copy, Debug, PartialEq, Eq)]
pub struct Section {
    pub start: usize,
    pub end: usize,
}

#[derive(Clone, Copy, Debug, PartialEq, Eq)]
pub struct Input {
    pub abbrevs: Section,
    pub info: Section,
}

// A section after its count.
#[tactic(auto, using(reader::proofs::FieldLaws::skip_in), unfolding(crate::specs::Input::section_at))]
pub fn section_at(input: &[u8], at: usize) -> Result<Section, InputError>
    ensures lies { view_section result ≡ section_at input.now at }
    ensures inside { IfOk result (Within input.now) }
{
    let (count, start) = read_u32(input, at, RunTimeEndian::Little)?;
    if MOST < count {
        return Err(InputError::TooLong);
    }
    let end = skip(input, start, count)?;
    Ok(Section { start, end })
}

// Both sections, judged in the order of the bytes.
#[tactic(auto, unfolding(crate::specs::Input::input_of))]
pub fn sections(input: &[u8]) -> Result<Input, InputError>
    ensures lie { view_input result ≡ input_of input.now }
    ensures inside { IfOk result (λ x. Within input.now x.abbrevs × Within input.now x.info) }
{
    let abbrevs = section_at(input, 0)?;
    let info = section_at(input, abbrevs.end)?;
    Ok(Input { abbrevs, info })
}
