//! Rows of the pool: 64 pages a row, each with the character of its owner.

ghost use Rattle.std.specs.Prelude.{◌≡◌, ◌≤◌, ◌<◌, ◌*◌, ◌++◌, codes, length, take};
ghost use Rattle.rh_defs.specs.declared.sizes.TheConstants.{MAX_PAGES};
ghost use Rattle.rh_figure.specs.Map.{shown_line};
ghost use Rattle.rh_figure.specs.Rows.{marks_row, marks_rows};
ghost use Rattle.rh_figure.specs.declared.limits.TheConstants.{MAP_CELLS};
ghost use Rattle.rh_map.specs.Written.{shown_lines};

use crate::line::put_line;
use crate::rows::row_front;
use crate::text::trimmed;
use rh_figure::limits::MAP_CELLS;
use rh_lines::{Pen, Row};

/// Writes the rows of the pool, of which each page has a character.
pub fn print_pool<P: Pen>(marks: &[u8], pen: &mut P)
    requires { length marks.now ≤ MAX_PAGES }
    ensures { P.offered pen.new ≡ P.offered pen.old ++ shown_lines (marks_rows marks.now) }
{
    for i in 0..(marks.len() + (MAP_CELLS - 1)) / MAP_CELLS {
        print_marks(marks, i, pen);
    }
}

/// Writes row i of the pool.
fn print_marks<P: Pen>(marks: &[u8], i: usize, pen: &mut P)
    requires few { length marks.now ≤ MAX_PAGES }
    requires within { MAP_CELLS * i < length marks.now }
    ensures { P.offered pen.new ≡ P.offered pen.old ++ (shown_line (marks_row marks.now i) ++ codes "\n") }
{
    let first = MAP_CELLS * i;
    let mut number = Row::new();
    number.decimal(first as u32);
    let mut row = row_front(b"", number.as_slice());
    row.text(front(&marks[first..], MAP_CELLS));
    put_line(trimmed(row.as_slice()), pen);
}

/// The first n bytes of a text, or all of a shorter one.
fn front(text: &[u8], n: usize) -> &[u8]
    ensures value { result.now ≡ take n text.now }
    ensures few { length result.now ≤ n }
{
    &text[..text.len().min(n)]
}
