// A stored case: a kind of one byte, 10 numbers, then four counts, each with what it counts: the main
// bytes, an abbreviation section, words for calls or levels, and the expected words. Little-endian.

ghost use Rattle.std.specs.Prelude.{◌≤◌, IfSome};
ghost use Rattle.replay.specs.Case.{IsCounted, PartsIn};

use crate::kind::Kind;

// The most bytes of a case.
pub const MOST_BYTES: usize = 16000;

#[derive(Clone, Copy, Debug, PartialEq, Eq)]
pub struct Case<'a> {
    pub kind: Kind,
    pub numbers: [u64; 10],
    pub bytes: &'a [u8],
    pub table: &'a [u8],
    pub calls: &'a [u8],
    pub expected: &'a [u8],
}

// What a count says follows it, in items of 1 or 8 bytes, and the rest.
fn counted(bytes: &[u8], width: usize) -> Option<(&[u8], &[u8])>
    requires { width ≤ 8 }
    ensures { IfSome result (λ p. IsCounted bytes.now p.0.now p.1.now) }
{
    let (count, rest) = bytes.split_first_chunk()?;
    rest.split_at_checked(u32::from_le_bytes(*count) as usize * width)
}

pub fn kind(body: &[u8]) -> Option<Kind> {
    Kind::try_from(*body.first()?).ok()
}

// The case, which the four parts fill.
pub fn parse(body: &[u8]) -> Option<Case<'_>>
    ensures { IfSome result (PartsIn body.now) }
{
    let kind = kind(body)?;
    let (head, rest) = body.split_first_chunk::<81>()?;
    let (bytes, rest) = counted(rest, 1)?;
    let (table, rest) = counted(rest, 1)?;
    let (calls, rest) = counted(rest, 8)?;
    let (expected, rest) = counted(rest, 8)?;
    if !rest.is_empty() {
        return None;
    }
    let (numbers, _) = head[1..].as_chunks();
    let numbers = numbers.first_chunk()?;
    Some(Case {
        kind,
        numbers: numbers.map(u64::from_le_bytes),
        bytes,
        table,
        calls,
        expected,
    })
}
