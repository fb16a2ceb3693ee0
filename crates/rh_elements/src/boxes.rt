//! Rectangles and words in a figure.

ghost use Rattle.std.specs.Prelude.{◌≡◌, ◌≤◌, ◌+◌, ◌++◌, length};
ghost use Rattle.rh_elements.specs.Boxes.{box_at};
ghost use Rattle.rh_elements.specs.declared.boxes.TheConstants.{LONGEST_CLASS};
ghost use Rattle.rh_lines.specs.declared.row.TheConstants.{ROW};
ghost use Rattle.rh_sheet.specs.Markup.{box_begin, box_text, words_begin, words_text};

use crate::attributes::{add_number_attribute, add_text_attribute};
use crate::escape::put_between;
use rh_lines::{Pen, Row};

/// The class of an element has at most so many bytes.
pub const LONGEST_CLASS: usize = 40;

/// Where a rectangle stands: its upper left corner, and its sides.
#[derive(Clone, Copy)]
pub struct Extent {
    pub x: u32,
    pub y: u32,
    pub width: u32,
    pub height: u32,
}

/// Adds the beginning of a rectangle.
fn add_box_begin(row: &mut Row, class: &[u8], at: Extent)
    requires class { length class.now ≤ LONGEST_CLASS }
    requires room { length row.old + 127 ≤ ROW }
    ensures value { row.new ≡ row.old ++ box_begin class.now at.x at.y at.width at.height }
    ensures few { length row.new ≤ length row.old + 127 }
{
    row.text(b"<rect");
    add_text_attribute(row, b"class", class);
    add_number_attribute(row, b"x", at.x);
    add_number_attribute(row, b"y", at.y);
    add_number_attribute(row, b"width", at.width);
    add_number_attribute(row, b"height", at.height);
}

/// Writes a rectangle, with a tip where that isn't empty.
pub fn print_box<P: Pen>(class: &[u8], at: Extent, tip: &[u8], pen: &mut P)
    requires { length class.now ≤ LONGEST_CLASS }
    ensures { P.offered pen.new ≡ P.offered pen.old ++ box_text (box_at class.now at tip.now) }
{
    let mut row = Row::new();
    add_box_begin(&mut row, class, at);
    if tip.is_empty() {
        row.text(b"/>\n");
        pen.put(row.as_slice());
        return;
    }
    row.text(b"><title>");
    put_between(row.as_slice(), tip, b"</title></rect>\n", pen);
}

/// Adds the beginning of words.
fn add_words_begin(row: &mut Row, class: &[u8], x: u32, y: u32)
    requires class { length class.now ≤ LONGEST_CLASS }
    requires room { length row.old + 87 ≤ ROW }
    ensures value { row.new ≡ row.old ++ words_begin class.now x y }
    ensures few { length row.new ≤ length row.old + 87 }
{
    row.text(b"<text");
    add_text_attribute(row, b"class", class);
    add_number_attribute(row, b"x", x);
    add_number_attribute(row, b"y", y);
    row.byte(b'>');
}

/// Writes words at a place of a figure, where there are some.
pub fn print_words<P: Pen>(class: &[u8], x: u32, y: u32, text: &[u8], pen: &mut P)
    requires { length class.now ≤ LONGEST_CLASS }
    ensures { P.offered pen.new ≡ P.offered pen.old ++ words_text class.now x y text.now }
{
    if text.is_empty() {
        return;
    }
    let mut row = Row::new();
    add_words_begin(&mut row, class, x, y);
    put_between(row.as_slice(), text, b"</text>\n", pen);
}
