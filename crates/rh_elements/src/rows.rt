//! The rows of an area: a page each.

ghost use Rattle.std.specs.Prelude.{◌≡◌, ◌≤◌, ◌<◌, ◌+◌, ◌*◌, ◌/◌, ◌^◌, nat_lt, if◌then◌else◌, ◌++◌, length, codes};
ghost use Rattle.std.specs.Fmt.{decimal};
ghost use Rattle.rh_defs.specs.Pieces.{page_size};
ghost use Rattle.rh_defs.specs.Text.{address};
ghost use Rattle.rh_defs.specs.declared.sizes.TheConstants.{MAX_PAGES};
ghost use Rattle.rh_elements.specs.DrawPieces.{AreDrawable};
ghost use Rattle.rh_elements.specs.DrawRows.{plot_of};
ghost use Rattle.rh_elements.specs.Tints.{tint_class};
ghost use Rattle.rh_sheet.specs.Frames.{shown_rows as shown_rows_of};
ghost use Rattle.rh_sheet.specs.Markup.{box_text, words_text};
ghost use Rattle.rh_sheet.specs.SheetRows.{addressed_text, chip_box, chip_text, gap_text, page_box, page_row_text};
ghost use Rattle.rh_sheet.specs.SheetRows.{row_text, rows_text};
ghost use Rattle.rh_sheet.specs.declared.sizes.TheConstants.{BASELINE, CHIP_LEFT, CHIP_WIDTH};

use crate::boxes::{Extent, print_box, print_words};
use crate::frames::{first_beside, page_in, row_y, shown_rows};
use crate::pieces::print_pieces;
use crate::tints::{Tint, add_tint};
use rh_defs::sizes::PAGE;
use rh_figure::Piece;
use rh_figure::limits::EDGE_ROWS;
use rh_lines::{Pen, Row};
use rh_map::add_pages;
use rh_sheet::Frame;
use rh_sheet::sizes::{BASELINE, CHIP_LEFT, CHIP_WIDTH, LEFT, ROW_HEIGHT, ROW_WIDTH};

/// An area as it is drawn: its first address, the numbers of its pages in the pool from below, what lies in it, and its
/// owner's tint.
#[derive(Clone, Copy)]
pub struct Plot<'a> {
    pub start: u32,
    pub pages: &'a [u16],
    pub pieces: &'a [Piece],
    pub tint: Tint,
}

/// Writes a rectangle as wide as a page.
fn print_page_box<P: Pen>(class: &[u8], y: u32, pen: &mut P)
    requires { length class.now ≤ 8 }
    ensures { P.offered pen.new ≡ P.offered pen.old ++ box_text (page_box class.now y) }
{
    let at = Extent {
        x: LEFT,
        y,
        width: ROW_WIDTH,
        height: ROW_HEIGHT,
    };
    print_box(class, at, b"", pen);
}

/// Writes where the number of a page stands, in its owner's tint.
fn print_chip_box<P: Pen>(tint: Tint, y: u32, pen: &mut P)
    ensures { P.offered pen.new ≡ P.offered pen.old ++ box_text (chip_box (tint_class tint) y) }
{
    let mut class = Row::new();
    class.text(b"chip ");
    add_tint(&mut class, tint);
    let at = Extent {
        x: CHIP_LEFT,
        y,
        width: CHIP_WIDTH,
        height: ROW_HEIGHT,
    };
    print_box(class.as_slice(), at, b"", pen);
}

/// Writes the number of a page.
fn print_chip_number<P: Pen>(y: u32, number: u16, pen: &mut P)
    requires { y ≤ 800 }
    ensures { P.offered pen.new ≡ P.offered pen.old
        ++ words_text (codes "chipn") (CHIP_LEFT + CHIP_WIDTH / 2) (y + BASELINE) (decimal number) }
{
    let mut text = Row::new();
    text.decimal(u32::from(number));
    print_words(
        b"chipn",
        CHIP_LEFT + CHIP_WIDTH / 2,
        y + BASELINE,
        text.as_slice(),
        pen,
    );
}

/// Writes the number of a page in the pool, in its owner's tint.
fn print_chip<P: Pen>(tint: Tint, y: u32, number: u16, pen: &mut P)
    requires { y ≤ 800 }
    ensures { P.offered pen.new ≡ P.offered pen.old ++ chip_text (tint_class tint) y number }
{
    print_chip_box(tint, y, pen);
    print_chip_number(y, number, pen);
}

/// Writes page k of an area, which it has, with all that lies in it.
fn print_page_row<P: Pen>(plot: &Plot<'_>, y: u32, low: usize, k: usize, pen: &mut P)
    requires start { plot.now.start < 2 ^ 30 }
    requires height { y ≤ 800 }
    requires few { length plot.now.pages.now ≤ MAX_PAGES }
    requires within { k < length plot.now.pages.now }
    requires pieces { AreDrawable plot.now.pieces.now }
    ensures { P.offered pen.new ≡ P.offered pen.old ++ page_row_text (plot_of plot.now) y low k }
{
    print_chip(plot.tint, y, plot.pages[k], pen);
    print_page_box(b"row", y, pen);
    print_pieces(plot.start, plot.tint, y, low, k, plot.pieces, pen);
}

/// Writes the address of page k of an area.
fn print_address<P: Pen>(start: u32, y: u32, k: usize, pen: &mut P)
    requires start { start < 2 ^ 30 }
    requires height { y ≤ 800 }
    requires page { k < MAX_PAGES }
    ensures { P.offered pen.new ≡ P.offered pen.old
        ++ words_text (codes "addr") 0 (y + BASELINE) (address (start + page_size * k)) }
{
    let mut text = Row::new();
    text.address(start + (PAGE * k) as u32);
    print_words(b"addr", 0, y + BASELINE, text.as_slice(), pen);
}

/// Writes page k of an area, or an empty row where it was given back.
fn print_page<P: Pen>(plot: &Plot<'_>, y: u32, low: usize, k: usize, pen: &mut P)
    requires start { plot.now.start < 2 ^ 30 }
    requires height { y ≤ 800 }
    requires few { length plot.now.pages.now ≤ MAX_PAGES }
    requires pieces { AreDrawable plot.now.pieces.now }
    ensures { P.offered pen.new ≡ P.offered pen.old
        ++ (if nat_lt k (length plot.now.pages.now) then page_row_text (plot_of plot.now) y low k
        else box_text (page_box (codes "gone") y)) }
{
    if k < plot.pages.len() {
        print_page_row(plot, y, low, k, pen);
    } else {
        print_page_box(b"gone", y, pen);
    }
}

/// Writes page k of an area by its address; one that was given back is an empty row.
fn print_addressed<P: Pen>(plot: &Plot<'_>, y: u32, low: usize, k: usize, pen: &mut P)
    requires start { plot.now.start < 2 ^ 30 }
    requires height { y ≤ 800 }
    requires few { length plot.now.pages.now ≤ MAX_PAGES }
    requires page { k < MAX_PAGES }
    requires pieces { AreDrawable plot.now.pieces.now }
    ensures { P.offered pen.new ≡ P.offered pen.old ++ addressed_text (plot_of plot.now) y low k }
{
    print_address(plot.start, y, k, pen);
    print_page(plot, y, low, k, pen);
}

/// Writes the row that counts the pages between the ends of n.
fn print_gap<P: Pen>(n: usize, y: u32, pen: &mut P)
    requires pages { n ≤ MAX_PAGES }
    requires height { y ≤ 800 }
    ensures { P.offered pen.new ≡ P.offered pen.old ++ gap_text n y }
{
    let mut text = Row::new();
    add_pages(&mut text, n.saturating_sub(2 * EDGE_ROWS) as u32);
    text.text(b" between");
    print_words(
        b"gap",
        LEFT + ROW_WIDTH / 2,
        y + BASELINE,
        text.as_slice(),
        pen,
    );
}

/// Writes row i from below of an area.
pub fn print_row<P: Pen>(frame: Frame, plot: &Plot<'_>, i: usize, pen: &mut P)
    requires start { plot.now.start < 2 ^ 30 }
    requires few { length plot.now.pages.now ≤ MAX_PAGES }
    requires frame { frame.pages ≤ MAX_PAGES }
    requires within { i < shown_rows_of frame.pages }
    requires pieces { AreDrawable plot.now.pieces.now }
    ensures { P.offered pen.new ≡ P.offered pen.old ++ row_text frame (plot_of plot.now) i }
{
    let y = row_y(frame, i);
    match page_in(frame.pages, i) {
        None => print_gap(frame.pages, y, pen),
        Some(k) => print_addressed(plot, y, first_beside(frame.pages, i), k, pen),
    }
}

/// Writes all rows of an area.
pub fn print_rows<P: Pen>(frame: Frame, plot: &Plot<'_>, pen: &mut P)
    requires start { plot.now.start < 2 ^ 30 }
    requires few { length plot.now.pages.now ≤ MAX_PAGES }
    requires frame { frame.pages ≤ MAX_PAGES }
    requires pieces { AreDrawable plot.now.pieces.now }
    ensures { P.offered pen.new ≡ P.offered pen.old ++ rows_text frame (plot_of plot.now) }
{
    for i in 0..shown_rows(frame.pages) {
        print_row(frame, plot, i, pen);
    }
}
