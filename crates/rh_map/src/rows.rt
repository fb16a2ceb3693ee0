//! Rows of an area: each is a page, with its address, its number in the pool, and 64 characters of 64 bytes.

ghost use Rattle.std.specs.Prelude.{◌≡◌, ◌≤◌, ◌<◌, ◌+◌, ◌*◌, ◌^◌, ◌++◌, [], codes, length, map, min};
ghost use Rattle.std.specs.List.{range_with_len};
ghost use Rattle.rh_figure.specs.Rows.{area_row, area_rows, cell_mark as cell_mark_of, map_row, page_row, to_right};
ghost use Rattle.rh_figure.specs.Map.{shown_line};
ghost use Rattle.rh_figure.specs.Phrases.{pages_text};
ghost use Rattle.rh_figure.specs.declared.limits.TheConstants.{CELL_BYTES, MAP_CELLS, MOST_ROWS};
ghost use Rattle.rh_defs.specs.declared.sizes.TheConstants.{MAX_PAGES};
ghost use Rattle.rh_lines.specs.declared.row.TheConstants.{ROW};
ghost use Rattle.rh_map.specs.Written.{area_of, shown_lines};

use crate::cells::cell_mark;
use crate::line::put_line;
use crate::phrases::add_pages;
use crate::text::{add_to_right, trimmed};
use rh_defs::sizes::PAGE;
use rh_figure::Piece;
use rh_figure::limits::{CELL_BYTES, EDGE_ROWS, MAP_CELLS, MOST_ROWS};
use rh_lines::{Pen, Row};

/// The bytes of an area: its first address, the numbers of its pages in the pool from below, and what lies in it.
#[derive(Clone, Copy)]
pub struct AreaBytes<'a> {
    pub start: u32,
    pub pages: &'a [u16],
    pub pieces: &'a [Piece],
}

/// Adds the characters of a page of an area, which begins at an offset.
fn add_cells(row: &mut Row, pieces: &[Piece], at: usize)
    requires small { at < 2 ^ 32 }
    requires room { length row.old + MAP_CELLS ≤ ROW }
    ensures { row.new ≡ row.old ++ map (λ c. cell_mark_of pieces.now
        (at + CELL_BYTES * c)) (range_with_len 0 MAP_CELLS) }
{
    for cell in 0..MAP_CELLS {
        row.byte(cell_mark(pieces, at + CELL_BYTES * cell));
    }
}

/// The columns before the cells of a row.
pub(crate) fn row_front(at: &[u8], number: &[u8]) -> Row
    requires at { length at.now ≤ 11 }
    requires number { length number.now ≤ 11 }
    ensures value { result ≡ to_right 8 at.now ++ codes " " ++ to_right 4 number.now ++ codes " |" }
    ensures few { length result ≤ 25 }
{
    let mut row = Row::new();
    add_to_right(&mut row, 8, at);
    row.byte(b' ');
    add_to_right(&mut row, 4, number);
    row.text(b" |");
    row
}

/// Writes the row of page k of an area.
fn print_page<P: Pen>(area: &AreaBytes<'_>, k: usize, pen: &mut P)
    requires start { area.now.start < 2 ^ 31 }
    requires few { length area.now.pages.now ≤ MAX_PAGES }
    requires within { k < length area.now.pages.now }
    ensures { P.offered pen.new ≡ P.offered pen.old
        ++ (shown_line (page_row (area_of area.now.start area.now.pages.now area.now.pieces.now) k) ++ codes "\n") }
{
    let at = PAGE * k;
    let mut address = Row::new();
    address.address(area.start + at as u32);
    let mut number = Row::new();
    number.decimal(u32::from(area.pages[k]));
    let mut row = row_front(address.as_slice(), number.as_slice());
    add_cells(&mut row, area.pieces, at);
    put_line(trimmed(row.as_slice()), pen);
}

/// Writes the row that counts the pages between those shown.
fn print_between<P: Pen>(pages: u32, pen: &mut P)
    ensures { P.offered pen.new ≡ P.offered pen.old
        ++ (shown_line (map_row [] [] (pages_text pages ++ codes " between")) ++ codes "\n") }
{
    let mut row = row_front(b"", b"");
    add_pages(&mut row, pages);
    row.text(b" between");
    put_line(trimmed(row.as_slice()), pen);
}

/// Writes row i from below of an area, of which the rows between may be left out.
fn print_row<P: Pen>(area: &AreaBytes<'_>, i: usize, pen: &mut P)
    requires start { area.now.start < 2 ^ 31 }
    requires few { length area.now.pages.now ≤ MAX_PAGES }
    requires within { i < min (length area.now.pages.now) MOST_ROWS }
    ensures { P.offered pen.new ≡ P.offered pen.old
        ++ (shown_line (area_row (area_of area.now.start area.now.pages.now area.now.pieces.now)
        (length area.now.pages.now) i) ++ codes "\n") }
{
    let count = area.pages.len();
    if count <= MOST_ROWS || i < EDGE_ROWS {
        print_page(area, i, pen);
    } else if i == EDGE_ROWS {
        print_between((count - 2 * EDGE_ROWS) as u32, pen);
    } else {
        print_page(area, count + i - MOST_ROWS, pen);
    }
}

/// Writes the rows of an area, the highest first.
pub fn print_area<P: Pen>(area: &AreaBytes<'_>, pen: &mut P)
    requires start { area.now.start < 2 ^ 31 }
    requires few { length area.now.pages.now ≤ MAX_PAGES }
    ensures { P.offered pen.new ≡ P.offered pen.old
        ++ shown_lines (area_rows (area_of area.now.start area.now.pages.now area.now.pieces.now)) }
{
    let mut i = area.pages.len().min(MOST_ROWS);
    while i > 0 {
        i -= 1;
        print_row(area, i, pen);
    }
}
