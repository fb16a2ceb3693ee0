//! The pool of pages: squares with numbers, tints and tags.

ghost use Rattle.std.specs.Prelude.{◌≡◌, ◌≤◌, ◌<◌, ◌+◌, ◌*◌, ◌^◌, ◌++◌, codes, length};
ghost use Rattle.std.specs.List.{flat_map, range_with_len};
ghost use Rattle.rh_defs.specs.declared.sizes.TheConstants.{MAX_PAGES};
ghost use Rattle.rh_elements.specs.declared.boxes.TheConstants.{LONGEST_CLASS};
ghost use Rattle.rh_lines.specs.declared.row.TheConstants.{ROW};
ghost use Rattle.rh_sheet.specs.Markup.{box_text, words_text};
ghost use Rattle.rh_sheet.specs.Pool.{cell_x as x_of_cell, cell_y as y_of_cell, free_text, grid_box, grid_text};
ghost use Rattle.rh_sheet.specs.Pool.{number_text, numbered as numbered_of, numbered_text, pool_side, rest_row_text};
ghost use Rattle.rh_sheet.specs.Pool.{some_squares, square_way, squares_begin};
ghost use Rattle.rh_sheet.specs.Pool.{squares_text, tag_text, whole_rows_text};
ghost use Rattle.rh_sheet.specs.declared.sizes.TheConstants.{NUMBERED, POOL_NOTE_Y};

use crate::attributes::add_text_attribute;
use crate::boxes::{Extent, print_box, print_words};
use crate::escape::put_between;
use crate::markup::add_point;
use rh_lines::{Pen, Row};
use rh_sheet::sizes::{
    CELL, LEFT, NUMBER_BASELINE, NUMBER_INDENT, NUMBERED, POOL_COLUMNS, POOL_NAME_Y, POOL_NOTE_Y,
    ROW_WIDTH, TAG_BASELINE,
};

// ---- squares

/// Where the square of page k begins, from the left.
fn cell_x(k: u32) -> u32
    ensures value { result ≡ x_of_cell k }
    ensures few { result ≤ 1150 }
{
    LEFT + CELL * (k % POOL_COLUMNS)
}

/// Where the square of page k begins, from above.
fn cell_y(k: u32) -> u32
    requires { k < 2 ^ 16 }
    ensures value { result ≡ y_of_cell k }
    ensures few { result ≤ 2 ^ 16 }
{
    CELL * (k / POOL_COLUMNS)
}

/// The way round the square of page k.
fn square_row(k: u32) -> Row
    requires { k < 2 ^ 16 }
    ensures { result ≡ square_way k }
{
    let mut row = Row::new();
    add_point(&mut row, b"M", cell_x(k) + 1, cell_y(k) + 1);
    row.text(b"h30v30h-30z");
    row
}

/// Writes the way round the square of page k.
fn print_square<P: Pen>(k: u16, pen: &mut P)
    ensures { P.offered pen.new ≡ P.offered pen.old ++ square_way k }
{
    pen.put(square_row(u32::from(k)).as_slice());
}

/// Writes the ways round the squares of some pages.
fn print_ways<P: Pen>(pages: &[u16], pen: &mut P)
    ensures { P.offered pen.new ≡ P.offered pen.old ++ flat_map square_way pages.now }
{
    for page in pages {
        print_square(*page, pen);
    }
}

/// Writes the beginning of squares.
fn print_squares_begin<P: Pen>(class: &[u8], pen: &mut P)
    requires { length class.now ≤ LONGEST_CLASS }
    ensures { P.offered pen.new ≡ P.offered pen.old ++ squares_begin class.now }
{
    let mut row = Row::new();
    row.text(b"<path");
    add_text_attribute(&mut row, b"class", class);
    row.text(b" d=\"");
    pen.put(row.as_slice());
}

/// Writes the squares of some pages, if there are any, with a tip.
pub fn print_squares<P: Pen>(class: &[u8], pages: &[u16], tip: &[u8], pen: &mut P)
    requires { length class.now ≤ LONGEST_CLASS }
    ensures { P.offered pen.new ≡ P.offered pen.old ++ squares_text class.now pages.now tip.now }
{
    if pages.is_empty() {
        return;
    }
    print_some_squares(class, pages, tip, pen);
}

/// Writes the squares of some pages, with a tip.
fn print_some_squares<P: Pen>(class: &[u8], pages: &[u16], tip: &[u8], pen: &mut P)
    requires { length class.now ≤ LONGEST_CLASS }
    ensures { P.offered pen.new ≡ P.offered pen.old ++ some_squares class.now pages.now tip.now }
{
    print_squares_begin(class, pen);
    print_ways(pages, pen);
    put_between(b"\"><title>", tip, b"</title></path>\n", pen);
}

// ---- the grid

/// Writes a part of the grid.
fn print_grid_box<P: Pen>(y: u32, width: u32, height: u32, pen: &mut P)
    ensures { P.offered pen.new ≡ P.offered pen.old ++ box_text (grid_box y width height) }
{
    print_box(
        b"cells",
        Extent {
            x: LEFT,
            y,
            width,
            height,
        },
        b"",
        pen,
    );
}

/// Writes the whole rows of n pages, if there are any.
fn print_whole_rows<P: Pen>(n: u32, pen: &mut P)
    requires { n ≤ MAX_PAGES }
    ensures { P.offered pen.new ≡ P.offered pen.old ++ whole_rows_text n }
{
    if n >= POOL_COLUMNS {
        print_grid_box(0, ROW_WIDTH, CELL * (n / POOL_COLUMNS), pen);
    }
}

/// Writes the rest of n pages, if there is one.
fn print_rest_row<P: Pen>(n: u32, pen: &mut P)
    requires { n ≤ MAX_PAGES }
    ensures { P.offered pen.new ≡ P.offered pen.old ++ rest_row_text n }
{
    if n % POOL_COLUMNS != 0 {
        print_grid_box(
            CELL * (n / POOL_COLUMNS),
            CELL * (n % POOL_COLUMNS),
            CELL,
            pen,
        );
    }
}

/// Writes the number of page k in its square.
fn print_number<P: Pen>(k: u32, pen: &mut P)
    requires { k ≤ MAX_PAGES }
    ensures { P.offered pen.new ≡ P.offered pen.old ++ number_text k }
{
    let mut text = Row::new();
    text.decimal(k);
    print_words(
        b"num",
        cell_x(k) + NUMBER_INDENT,
        cell_y(k) + NUMBER_BASELINE,
        text.as_slice(),
        pen,
    );
}

/// Writes n squares, some with numbers.
pub fn print_grid<P: Pen>(n: u32, pen: &mut P)
    requires { n ≤ MAX_PAGES }
    ensures { P.offered pen.new ≡ P.offered pen.old ++ grid_text n }
{
    pen.put(b"<g id=\"grid\">\n");
    print_whole_rows(n, pen);
    print_rest_row(n, pen);
    print_numbers(numbered(n), pen);
    pen.put(b"</g>\n");
}

/// How many of n pages have numbers.
fn numbered(n: u32) -> u32
    requires { n ≤ MAX_PAGES }
    ensures value { result ≡ numbered_of n }
    ensures few { NUMBERED * result ≤ MAX_PAGES + 3 }
{
    (n + (NUMBERED - 1)) / NUMBERED
}

/// Writes the first n numbers of pages that are written.
fn print_numbers<P: Pen>(n: u32, pen: &mut P)
    requires { NUMBERED * n ≤ MAX_PAGES + 3 }
    ensures { P.offered pen.new ≡ P.offered pen.old ++ flat_map numbered_text (range_with_len 0 n) }
{
    for k in 0..n {
        print_number(NUMBERED * k, pen);
    }
}

// ---- tags, and what stands at the left

/// Writes a tag in the squares of some pages.
pub fn print_tags<P: Pen>(tag: &[u8], pages: &[u16], pen: &mut P)
    ensures { P.offered pen.new ≡ P.offered pen.old ++ flat_map (tag_text tag.now) pages.now }
{
    for page in pages {
        print_tag(tag, *page, pen);
    }
}

/// Writes a tag in the square of page k.
fn print_tag<P: Pen>(tag: &[u8], k: u16, pen: &mut P)
    ensures { P.offered pen.new ≡ P.offered pen.old ++ tag_text tag.now k }
{
    let page = u32::from(k);
    print_words(
        b"tag",
        cell_x(page) + CELL / 2,
        cell_y(page) + TAG_BASELINE,
        tag,
        pen,
    );
}

/// Adds how many pages of so many are free.
fn add_free(row: &mut Row, free: u32, pages: u32)
    requires { length row.old + 31 ≤ ROW }
    ensures value { row.new ≡ row.old ++ free_text free pages }
    ensures few { length row.new ≤ length row.old + 31 }
{
    row.decimal(free);
    row.text(b" of ");
    row.decimal(pages);
    row.text(b" free");
}

/// Writes the name of the pool and how much of it is free.
pub fn print_pool_side<P: Pen>(free: u32, pages: u32, pen: &mut P)
    ensures { P.offered pen.new ≡ P.offered pen.old ++ pool_side free pages }
{
    print_words(b"side", 0, POOL_NAME_Y, b"Pool", pen);
    print_free(free, pages, pen);
}

/// Writes how many pages of so many are free.
fn print_free<P: Pen>(free: u32, pages: u32, pen: &mut P)
    ensures { P.offered pen.new ≡ P.offered pen.old ++ words_text (codes "small") 0 POOL_NOTE_Y (free_text free pages) }
{
    let mut note = Row::new();
    add_free(&mut note, free, pages);
    print_words(b"small", 0, POOL_NOTE_Y, note.as_slice(), pen);
}
