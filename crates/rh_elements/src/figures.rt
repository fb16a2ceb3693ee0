//! Figures: their beginning, the end of their description, and their end.

ghost use Rattle.std.specs.Prelude.{◌≡◌, ◌++◌, codes};
ghost use Rattle.rh_sheet.specs.Markup.{figure_open};

use crate::escape::put_between;
use rh_lines::{Pen, Row};

/// Writes the beginning of a figure, up to its description. Parts of that follow by `put_escaped`, and then
/// `print_described`.
pub fn print_figure_open<P: Pen>(width: u32, height: u32, title: &[u8], pen: &mut P)
    ensures { P.offered pen.new ≡ P.offered pen.old ++ figure_open width height title.now }
{
    let mut row = Row::new();
    row.text(b"<svg viewBox=\"0 0 ");
    row.decimal(width);
    row.byte(b' ');
    row.decimal(height);
    row.text(b"\" role=\"img\">\n<title>");
    put_between(row.as_slice(), title, b"</title>\n<desc>", pen);
}

/// Writes the end of a figure's description.
pub fn print_described<P: Pen>(pen: &mut P)
    ensures { P.offered pen.new ≡ P.offered pen.old ++ (codes "</desc>\n") }
{
    pen.put(b"</desc>\n");
}

/// Writes the end of a figure.
pub fn print_figure_end<P: Pen>(pen: &mut P)
    ensures { P.offered pen.new ≡ P.offered pen.old ++ (codes "</svg>\n") }
{
    pen.put(b"</svg>\n");
}
