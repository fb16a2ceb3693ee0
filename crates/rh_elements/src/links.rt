//! Links from step to step.

ghost use Rattle.std.specs.Prelude.{◌≡◌, ◌≤◌, ◌+◌, ◌++◌, length};
ghost use Rattle.rh_lines.specs.declared.row.TheConstants.{ROW};
ghost use Rattle.rh_sheet.specs.Markup.{step_link};
ghost use Rattle.rh_sheet.specs.Sheet.{numbered_link};

use rh_lines::{Pen, Row};

/// Adds a link to step n, with what stands in it.
pub fn add_step_link(row: &mut Row, n: u32, inside: &[u8])
    requires { length row.old + length inside.now + 28 ≤ ROW }
    ensures value { row.new ≡ row.old ++ step_link n inside.now }
    ensures few { length row.new ≤ length row.old + length inside.now + 28 }
{
    row.text(b"<a href=\"#d");
    row.decimal(n);
    row.text(b"\">");
    row.text(inside);
    row.text(b"</a>");
}

/// Writes a link to step n by its number.
pub fn print_numbered_link<P: Pen>(n: u32, pen: &mut P)
    ensures { P.offered pen.new ≡ P.offered pen.old ++ numbered_link n }
{
    let mut number = Row::new();
    number.decimal(n);
    let mut row = Row::new();
    add_step_link(&mut row, n, number.as_slice());
    row.byte(b'\n');
    pen.put(row.as_slice());
}
