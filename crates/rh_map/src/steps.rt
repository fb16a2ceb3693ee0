//! The lines of a step: its number and command, its reply, and that memory stays.

ghost use Rattle.std.specs.Prelude.{◌≡◌, ◌≤◌, ◌+◌, [], ◌∷◌, ◌++◌, codes, length};
ghost use Rattle.rh_figure.specs.Map.{more_lines, shown_line, step_line};
ghost use Rattle.rh_figure.specs.Phrases.{cut};
ghost use Rattle.rh_figure.specs.declared.limits.TheConstants.{REPLY_COLUMNS};
ghost use Rattle.rh_lines.specs.declared.row.TheConstants.{ROW};
ghost use Rattle.rh_map.specs.Written.{shown_lines};

use crate::line::put_line;
use rh_figure::limits::{LINE_COLUMNS, REPLY_COLUMNS};
use rh_lines::{Pen, Row};

/// Writes the number of a step and its line of the script.
pub fn print_step_line<P: Pen>(number: u32, line: &[u8], pen: &mut P)
    ensures { P.offered pen.new ≡ P.offered pen.old ++ (shown_line (step_line number line.now) ++ codes "\n") }
{
    let mut row = Row::new();
    row.decimal(number);
    row.text(b"  ");
    add_cut(&mut row, LINE_COLUMNS, line);
    put_line(row.as_slice(), pen);
}

/// Writes a line of a reply.
pub fn print_reply_line<P: Pen>(line: &[u8], pen: &mut P)
    ensures { P.offered pen.new ≡ P.offered pen.old ++ (shown_line (cut REPLY_COLUMNS line.now) ++ codes "\n") }
{
    let mut row = Row::new();
    add_cut(&mut row, REPLY_COLUMNS, line);
    put_line(row.as_slice(), pen);
}

/// Writes how many lines of a reply are left out.
pub fn print_more_lines<P: Pen>(count: u32, pen: &mut P)
    ensures { P.offered pen.new ≡ P.offered pen.old ++ (shown_line (more_lines count) ++ codes "\n") }
{
    let mut row = Row::new();
    row.text(b"  and ");
    row.decimal(count);
    row.text(b" lines more");
    put_line(row.as_slice(), pen);
}

/// Writes that memory stays as it was, and an empty line.
pub fn print_still<P: Pen>(pen: &mut P)
    ensures { P.offered pen.new ≡ P.offered pen.old ++ shown_lines (codes "  (memory stays)" ∷ [] ∷ []) }
{
    put_line(b"  (memory stays)", pen);
    put_line(b"", pen);
}

/// Adds a text, cut with two dots behind it where it is longer than `most` bytes.
pub fn add_cut(row: &mut Row, most: usize, text: &[u8])
    requires least { 2 ≤ most }
    requires room { length row.old + most ≤ ROW }
    ensures value { row.new ≡ row.old ++ cut most text.now }
    ensures few { length row.new ≤ length row.old + most }
{
    if text.len() <= most {
        row.text(text);
    } else {
        row.text(&text[..most - 2]);
        row.text(b"..");
    }
}
