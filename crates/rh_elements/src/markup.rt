//! Lines, figures, headings and entries.

ghost use Rattle.std.specs.Prelude.{◌≡◌, ◌≤◌, ◌+◌, ◌++◌, codes, length};
ghost use Rattle.rh_elements.specs.declared.boxes.TheConstants.{LONGEST_CLASS};
ghost use Rattle.rh_lines.specs.declared.row.TheConstants.{ROW};
ghost use Rattle.rh_sheet.specs.Markup.{cell_text, change_item, heading_text, path_text, point_text, stretch_text};

use crate::attributes::add_text_attribute;
use crate::escape::put_between;
use rh_lines::{Pen, Row};

/// Writes a line along a way.
pub fn print_path<P: Pen>(class: &[u8], way: &Row, pen: &mut P)
    requires class { length class.now ≤ LONGEST_CLASS }
    requires way { length way.now ≤ 180 }
    ensures { P.offered pen.new ≡ P.offered pen.old ++ path_text class.now way.now }
{
    let mut row = Row::new();
    row.text(b"<path");
    add_text_attribute(&mut row, b"class", class);
    add_text_attribute(&mut row, b"d", way.as_slice());
    row.text(b"/>\n");
    pen.put(row.as_slice());
}

/// Adds a step of a way: its letter and a point.
pub fn add_point(row: &mut Row, letter: &[u8], x: u32, y: u32)
    requires { length row.old + length letter.now + 23 ≤ ROW }
    ensures value { row.new ≡ row.old ++ point_text letter.now x y }
    ensures few { length row.new ≤ length row.old + length letter.now + 23 }
{
    row.text(letter);
    row.decimal(x);
    row.byte(b' ');
    row.decimal(y);
}

/// Adds a step of a way: its letters and how far.
pub(crate) fn add_stretch(row: &mut Row, letters: &[u8], n: u32)
    requires { length row.old + length letters.now + 11 ≤ ROW }
    ensures value { row.new ≡ row.old ++ stretch_text letters.now n }
    ensures few { length row.new ≤ length row.old + length letters.now + 11 }
{
    row.text(letters);
    row.decimal(n);
}

/// Writes the heading of an area or a slot.
pub fn print_heading<P: Pen>(name: &[u8], note: &[u8], pen: &mut P)
    ensures { P.offered pen.new ≡ P.offered pen.old ++ heading_text name.now note.now }
{
    put_between(b"<h3><b>", name, b"</b> ", pen);
    put_between(b"", note, b"</h3>\n", pen);
}

/// Writes a cell of a table.
pub(crate) fn print_cell<P: Pen>(text: &[u8], pen: &mut P)
    ensures { P.offered pen.new ≡ P.offered pen.old ++ cell_text text.now }
{
    put_between(b"<td>", text, b"</td>", pen);
}

/// Writes something that a command has changed.
pub fn print_change<P: Pen>(text: &[u8], pen: &mut P)
    ensures { P.offered pen.new ≡ P.offered pen.old ++ change_item text.now }
{
    put_between(b"<p class=\"change\">", text, b"</p>\n", pen);
}
