//! Texts in columns.

ghost use Rattle.std.specs.Prelude.{◌≡◌, ◌≤◌, ◌+◌, ◌-◌, ◌++◌, length, replicate};
ghost use Rattle.rh_figure.specs.Rows.{to_right, trimmed};
ghost use Rattle.rh_lines.specs.declared.row.TheConstants.{ROW};

use rh_lines::Row;

/// Spaces before a text that ends in a column.
const SPACES: [u8; 8] = [b' '; 8];

/// Adds a text behind spaces, so that it ends in the column, where it is short enough.
pub fn add_to_right(row: &mut Row, columns: usize, text: &[u8])
    requires columns { columns ≤ 8 }
    requires text { length text.now ≤ 11 }
    requires room { length row.old + 11 ≤ ROW }
    ensures value { row.new ≡ row.old ++ to_right columns text.now }
    ensures few { length row.new ≤ length row.old + 11 }
{
    row.text(&SPACES[..columns.saturating_sub(text.len())]);
    row.text(text);
}

/// The text without spaces at its end.
pub fn trimmed(text: &[u8]) -> &[u8]
    ensures { result.now ≡ trimmed text.now }
{
    let mut front = text;
    while let Some((last, others)) = front.split_last() {
        if *last != b' ' {
            return front;
        }
        front = others;
    }
    front
}
