//! The arrow of a slide.

ghost use Rattle.std.specs.Prelude.{◌≡◌, ◌≤◌, ◌<◌, ◌+◌, ◌/◌, ◌^◌, [], ◌∷◌, ◌++◌, length};
ghost use Rattle.rh_elements.specs.DrawArrows.{change_of};
ghost use Rattle.rh_sheet.specs.Arrows.{arc_way as way_of_arc, arrow_text, arrow_way as way_of_arrow};
ghost use Rattle.rh_sheet.specs.Arrows.{block_place as place_of_block, bow_way as way_of_bow};
ghost use Rattle.rh_sheet.specs.Arrows.{ghost_way as way_of_ghost, place_x as x_of_place, slide_arrow};

use crate::frames::{row_of, row_y};
use crate::markup::{add_point, add_stretch, print_path};
use rh_defs::sizes::{PAGE, SLOT_START};
use rh_lines::{Pen, Row};
use rh_sheet::Frame;
use rh_sheet::sizes::{
    ARC_RISE, ARROW_INDENT, BOW, GHOST_EDGE, GHOST_WIDTH, HEADER_BYTES, LEFT, ROW_HEIGHT,
    UNIT_BYTES,
};

/// A flex block that slid: its address before, and its address now.
#[derive(Clone, Copy)]
pub struct Slide {
    pub from: u32,
    pub to: u32,
}

/// The place in its slot at which a block with the address begins, with its header.
fn block_place(address: u32) -> usize
    ensures value { result ≡ place_of_block address }
    ensures few { result < 2 ^ 32 }
{
    (address.saturating_sub(HEADER_BYTES) as usize).saturating_sub(SLOT_START)
}

/// How far from the left a place of an area is in its row.
fn place_x(place: usize) -> u32
    ensures value { result ≡ x_of_place place }
    ensures few { result ≤ 1174 }
    ensures some { 150 ≤ result }
{
    LEFT + (place % PAGE / UNIT_BYTES) as u32
}

/// A frame round the place where a block began, in a row at a height.
fn ghost_way(x: u32, y: u32) -> Row
    requires x { x ≤ 1174 }
    requires y { y ≤ 800 }
    ensures value { result ≡ way_of_ghost x y }
    ensures few { length result ≤ 100 }
{
    let mut way = Row::new();
    add_point(
        &mut way,
        b"M",
        x.saturating_sub(GHOST_EDGE),
        y.saturating_sub(GHOST_EDGE),
    );
    add_stretch(&mut way, b"h", GHOST_WIDTH);
    add_stretch(&mut way, b"v", ROW_HEIGHT + 2 * GHOST_EDGE);
    add_stretch(&mut way, b"h-", GHOST_WIDTH);
    way.byte(b'z');
    way
}

/// An arc above a row at a height.
fn arc_way(x0: u32, x1: u32, y: u32) -> Row
    requires x { x0 + x1 ≤ 2348 }
    ensures value { result ≡ way_of_arc x0 x1 y }
    ensures few { length result ≤ 100 }
{
    let high = y.saturating_sub(ARC_RISE);
    let mut way = Row::new();
    add_point(&mut way, b"M", x0 + 2, y);
    add_point(&mut way, b"C", x0 + 2, high);
    add_point(&mut way, b" ", x1 + 2, high);
    add_point(&mut way, b" ", x1 + 2, y);
    way
}

/// A bow on the right from one row to another.
fn bow_way(x0: u32, y0: u32, x1: u32, y1: u32) -> Row
    requires x { x0 + x1 ≤ 2348 }
    ensures value { result ≡ way_of_bow x0 y0 x1 y1 }
    ensures few { length result ≤ 100 }
{
    let far = x0.max(x1) + BOW;
    let mut way = Row::new();
    add_point(&mut way, b"M", x0 + ARROW_INDENT, y0);
    add_point(&mut way, b"C", far, y0);
    add_point(&mut way, b" ", far, y1);
    add_point(&mut way, b" ", x1 + ARROW_INDENT, y1);
    way
}

/// The way from a place in row r to a place in row s.
fn arrow_way(frame: Frame, r: usize, x0: u32, s: usize, x1: u32) -> Row
    requires { x0 + x1 ≤ 2348 }
    ensures value { result ≡ way_of_arrow frame r x0 s x1 }
    ensures few { length result ≤ 100 }
{
    if r == s {
        return arc_way(x0, x1, row_y(frame, r).saturating_sub(2));
    }
    bow_way(
        x0,
        row_y(frame, r) + ROW_HEIGHT / 2,
        x1,
        row_y(frame, s) + ROW_HEIGHT / 2,
    )
}

/// Writes the frame and the arrow, each upon an edge of its own.
fn print_arrow<P: Pen>(frame: &Row, way: &Row, pen: &mut P)
    requires frame { length frame.now ≤ 100 }
    requires way { length way.now ≤ 100 }
    ensures { P.offered pen.new ≡ P.offered pen.old ++ arrow_text frame.now way.now }
{
    print_path(b"casing", frame, pen);
    print_path(b"ghost", frame, pen);
    print_path(b"casing", way, pen);
    print_path(b"slide", way, pen);
}

/// Writes the arrow of the first of some slides, where both its places have a row.
pub fn print_slide_arrow<P: Pen>(frame: Frame, first: Slide, pen: &mut P)
    ensures { P.offered pen.new ≡ P.offered pen.old ++ slide_arrow frame (change_of first ∷ []) }
{
    let (from, to) = (block_place(first.from), block_place(first.to));
    let Some(r) = row_of(frame.pages, from / PAGE) else {
        return;
    };
    let Some(s) = row_of(frame.pages, to / PAGE) else {
        return;
    };
    let (x0, x1) = (place_x(from), place_x(to));
    let way = arrow_way(frame, r, x0, s, x1);
    print_arrow(&ghost_way(x0, row_y(frame, r)), &way, pen);
}
