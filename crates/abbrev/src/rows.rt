// Rows stored.

ghost use Rattle.std.specs.Prelude.{◌≡◌, ◌+◌, ◌/◌, ◌<◌, ltb, length, is_some, IfNone};
ghost use Rattle.abbrev.specs.Steps.{After};

// A row of `N` words behind `n` of them; none where there is no room. Inlined, since a call would have the
// row stored, and loaded again at once.
// Kept (6): tried with `as_chunks_mut` and `rows[n] = *row`: the proof doesn't close, since the library says nothing of what the
// slice ends as.
#[inline(always)]
pub(crate) fn put_row<const N: usize>(words: &mut [u64], n: usize, row: &[u64; N]) -> Option<()>
    requires { 0 < N }
    ensures room { is_some result ≡ ltb n (length words.old / N) }
    ensures kept { After N n words.old row.now (n + 1) words.new }
    ensures same { IfNone result (words.new ≡ words.old) }
{
    if words.len() / N <= n {
        return None;
    }
    words[n * N..n * N + N].copy_from_slice(row);
    Some(())
}
