// Texts in columns.

ghost use Rattle.std.specs.Prelude.{◌≡◌, ◌≤◌, length};
ghost use Rattle.sheet.specs.Sheet.{padded};

// A text at the right of its columns, in the place of what was there.
#[tactic(auto, unfolding(crate::specs::Sheet::padded))]
pub(crate) fn put_right(columns: &mut [u8], padding: u8, text: &[u8])
    requires { length text.now ≤ length columns.old }
    ensures { columns.new ≡ padded padding (length columns.old) text.now }
{
    let at = columns.len() - text.len();
    columns[..at].fill(padding);
    columns[at..].copy_from_slice(text);
}
