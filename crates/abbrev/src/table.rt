// What a table is made of, read from its bytes.

ghost use Rattle.std.specs.Prelude.{◌≡◌, [], ◌∷◌, ◌+◌, ◌/◌, ◌≤◌, length};
ghost use Rattle.reader.specs.Views.{view_read};
ghost use Rattle.abbrev.specs.Steps.{After, SpecsRead};
ghost use Rattle.abbrev.specs.Table.{judged, pair_at, constant_at, tag_at, children_at, head_at};
ghost use Rattle.abbrev.specs.Tabled.{Tabled};
ghost use Rattle.abbrev.specs.Views.{view_head};

use super::lent::LentRows;
use super::rows::put_row;
use reader::answer::Read;
use reader::error::Error;
use reader::leb128::{sleb128, uleb128, uleb128_u16};
use reader::twos::to_word;
use reader::words::read_u8;

// The specifications that an abbreviation has at most.
pub const MAX_ATTRIBUTES: usize = 64;

// DW_FORM_implicit_const.
pub const IMPLICIT_CONST: u64 = 0x21;

// A name and a form (DWARF 5, 7.5.3); both are 0 at the end.
#[derive(Clone, Copy)]
struct Pair {
    name: u64,
    form: u64,
}

// What stands before the specifications (7.5.3).
#[derive(Clone, Copy)]
pub(crate) struct Head {
    pub(crate) code: u64,
    pub(crate) tag: u64,
    pub(crate) children: u64,
}

#[tactic(auto, unfolding(crate::specs::Table::judged))]
fn judge(name: u64, form: u64, next: usize) -> Read<Pair>
    ensures { view_read result ≡ judged name form next }
{
    match (name, form) {
        (0, 1..) => Err(Error::AttributeNameZero),
        (1.., 0) => Err(Error::AttributeFormZero),
        _ => Ok((Pair { name, form }, next)),
    }
}

#[tactic(auto, unfolding(crate::specs::Table::pair_at))]
fn parse_pair(s: &[u8], at: usize) -> Read<Pair>
    ensures { view_read result ≡ pair_at s.now at }
{
    let (name, p) = uleb128_u16(s, at)?;
    let (form, q) = uleb128_u16(s, p)?;
    judge(name, form, q)
}

impl Pair {
    // The constant behind the pair, 0 where its form has none.
    #[tactic(auto, unfolding(crate::specs::Table::constant_at))]
    fn parse_constant(self, s: &[u8], at: usize) -> Read<u64>
        ensures { view_read result ≡ constant_at s.now at self.form }
    {
        if self.form != IMPLICIT_CONST {
            return Ok((0, at));
        }
        let (z, p) = sleb128(s, at)?;
        Ok((to_word(z), p))
    }
}

#[tactic(auto, unfolding(crate::specs::Table::tag_at))]
fn parse_tag(s: &[u8], at: usize) -> Read<u64>
    ensures { view_read result ≡ tag_at s.now at }
{
    let (tag, p) = uleb128_u16(s, at)?;
    if tag == 0 {
        return Err(Error::AbbreviationTagZero);
    }
    Ok((tag, p))
}

#[tactic(auto, unfolding(crate::specs::Table::children_at))]
fn parse_has_children(s: &[u8], at: usize) -> Read<u64>
    ensures { view_read result ≡ children_at s.now at }
{
    let (children, p) = read_u8(s, at)?;
    if 1 < children {
        return Err(Error::InvalidAbbreviationChildren);
    }
    Ok((children, p))
}

// A code, a tag and whether there are children; none at the end.
#[tactic(auto, unfolding(crate::specs::Table::head_at, crate::specs::Table::tagged_at))]
pub(crate) fn parse_head(s: &[u8], at: usize) -> Result<Option<(Head, usize)>, Error>
    ensures { view_head result ≡ head_at s.now at }
{
    if s.len() <= at {
        return Ok(None);
    }
    let (code, p) = uleb128(s, at)?;
    if code == 0 {
        return Ok(None);
    }
    let (tag, q) = parse_tag(s, p)?;
    let (children, next) = parse_has_children(s, q)?;
    let head = Head {
        code,
        tag,
        children,
    };
    Ok(Some((head, next)))
}

// The specifications of one abbreviation, into the rows from `first` on: how many they are.
#[tactic(auto, using(crate::proofs::Attributes::refused_steps))]
pub(crate) fn parse_attributes(s: &[u8], at: usize, specs: &mut [u64], first: usize) -> Read<usize>
    requires { first ≤ length specs.old / 3 }
    ensures { SpecsRead s.now at first specs.old specs.new result }
{
    let mut p = at;
    // The pair after the last that there may be is read too, since it may be the end.
    for n in 0..=MAX_ATTRIBUTES {
        let (pair, next) = parse_pair(s, p)?;
        if pair.form == 0 {
            return Ok((n, next));
        }
        if n == MAX_ATTRIBUTES {
            break;
        }
        let (constant, q) = pair.parse_constant(s, next)?;
        let _ = put_row(specs, first + n, &[pair.name, pair.form, constant]);
        p = q;
    }
    Err(Error::TooManyAttributes)
}

// The section .debug_abbrev.
#[derive(Clone, Copy)]
pub struct DebugAbbrev {}

impl DebugAbbrev {
    // As `LentRows::read_table`, for callers that have the slices.
    pub fn abbreviations(
        section: &[u8],
        offset: u64,
        rows: &mut [u64],
        specs: &mut [u64],
    ) -> Result<usize, Error>
        ensures { Tabled section.now offset rows.old specs.old rows.new specs.new result }
    {
        LentRows { rows, specs }.read_table(section, offset)
    }
}
