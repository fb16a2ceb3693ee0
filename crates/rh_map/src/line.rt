//! A line of a map as it is written.

ghost use Rattle.std.specs.Prelude.{◌≡◌, ◌≤◌, ◌+◌, ◌++◌, codes, length, map};
ghost use Rattle.rh_figure.specs.Map.{shown_byte, shown_line};
ghost use Rattle.rh_figure.specs.declared.limits.TheConstants.{MAP_COLUMNS};
ghost use Rattle.rh_lines.specs.declared.row.TheConstants.{ROW};

use rh_figure::limits::MAP_COLUMNS;
use rh_lines::{Pen, Row};

/// Writes a line of a map: at most 79 columns of the text, in bytes that a terminal shows, and a line feed.
pub fn put_line<P: Pen>(text: &[u8], pen: &mut P)
    ensures { P.offered pen.new ≡ P.offered pen.old ++ (shown_line text.now ++ codes "\n") }
{
    let mut row = Row::new();
    add_line(&mut row, text);
    row.byte(b'\n');
    pen.put(row.as_slice());
}

/// Adds the text as it is shown.
fn add_line(row: &mut Row, text: &[u8])
    requires { length row.old + MAP_COLUMNS ≤ ROW }
    ensures value { row.new ≡ row.old ++ shown_line text.now }
    ensures few { length row.new ≤ length row.old + MAP_COLUMNS }
{
    if text.len() <= MAP_COLUMNS {
        add_shown(row, text);
    } else {
        add_shown(row, &text[..MAP_COLUMNS - 2]);
        row.text(b"..");
    }
}

/// Adds bytes as a terminal shows them.
fn add_shown(row: &mut Row, text: &[u8])
    requires { length row.old + length text.now ≤ ROW }
    ensures { row.new ≡ row.old ++ map shown_byte text.now }
{
    for byte in text {
        row.byte(shown_byte(*byte));
    }
}

/// A byte from a space to 126, or a question mark in place of another.
pub fn shown_byte(byte: u8) -> u8
    ensures { result ≡ shown_byte byte }
{
    if (b' '..127).contains(&byte) {
        byte
    } else {
        b'?'
    }
}
