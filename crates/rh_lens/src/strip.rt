//! The strip above a lens: all pages of an area at true scale, with their addresses and numbers, and what lies in them.

ghost use Rattle.std.specs.Prelude.{◌≡◌, ◌≤◌, ◌<◌, ◌+◌, ◌*◌, ◌^◌, [], ◌∷◌, ◌++◌, length};
ghost use Rattle.std.specs.Fmt.{decimal};
ghost use Rattle.std.specs.List.{AllByRecursion, concat};
ghost use Rattle.rh_defs.specs.Text.{address as address_of};
ghost use Rattle.rh_defs.specs.declared.sizes.TheConstants.{MAX_PAGES, PAGE};
ghost use Rattle.rh_elements.specs.Tints.{tint_class};
ghost use Rattle.rh_lens.specs.LensWords.{fitting_words};
ghost use Rattle.rh_lens.specs.PlacedSpots.{LiesIn};
ghost use Rattle.rh_lens.specs.Strip.{page_choices, strip_page_text, strip_piece_text, strip_text};
ghost use Rattle.rh_lens.specs.Strip.{strip_width as width_of_bytes, strip_x as x_of_offset};
ghost use Rattle.rh_lens.specs.declared.sizes.TheConstants.{MOST_WIDTH};

use crate::room::{if_room, longer_or};
use crate::sizes::{STRIP, STRIP_EDGE, STRIP_LINE, STRIP_PART};
use crate::widths::is_free;
use rh_defs::sizes::PAGE;
use rh_elements::{Extent, Tint, add_tint, kind_class, print_box, print_words};
use rh_figure::Piece;
use rh_lines::{Pen, Row};

/// A strip of so many units over some pages.
#[derive(Clone, Copy)]
struct Scale {
    width: u32,
    pages: u32,
}

/// Where an offset stands.
fn strip_x(scale: Scale, at: usize) -> u32
    requires pages { 0 < scale.pages }
    requires width { scale.width ≤ MOST_WIDTH }
    requires within { at ≤ PAGE * scale.pages }
    ensures value { result ≡ x_of_offset scale.width scale.pages at }
    ensures few { result ≤ scale.width }
{
    (u64::from(scale.width) * at as u64 / (PAGE as u64 * u64::from(scale.pages))) as u32
}

/// How wide the bytes from one offset to another are.
fn strip_width(scale: Scale, low: usize, high: usize) -> u32
    requires pages { 0 < scale.pages }
    requires width { scale.width ≤ MOST_WIDTH }
    requires order { low ≤ high }
    requires within { high ≤ PAGE * scale.pages }
    ensures value { result ≡ width_of_bytes scale.width scale.pages low high }
    ensures few { result ≤ scale.width }
{
    strip_x(scale, high).saturating_sub(strip_x(scale, low))
}

/// An address, and the number of its page in the pool, in the longest form that has room.
fn page_words(width: u32, address: u32, number: u16) -> Row
    ensures { result ≡ fitting_words width (page_choices address number) }
{
    let mut short = Row::new();
    short.address(address);
    let middle = numbered(address, b" page ", number);
    let long = numbered(address, b" is page ", number);
    longer_or(width, long, longer_or(width, middle, if_room(width, short)))
}

/// An address, a word, and the number of a page.
fn numbered(address: u32, word: &[u8], number: u16) -> Row
    requires { length word.now ≤ 20 }
    ensures { result ≡ concat (address_of address ∷ word.now ∷ decimal number ∷ []) }
{
    let mut row = Row::new();
    row.address(address);
    row.text(word);
    row.decimal(u32::from(number));
    row
}

/// Writes page k of an area that begins at an address.
fn print_page<P: Pen>(start: u32, scale: Scale, tint: Tint, k: u32, number: u16, pen: &mut P)
    requires start { start < 2 ^ 30 }
    requires width { scale.width ≤ MOST_WIDTH }
    requires page { k < scale.pages }
    requires pages { scale.pages ≤ MAX_PAGES }
    ensures { P.offered pen.new ≡ P.offered pen.old
        ++ strip_page_text start scale.width scale.pages (tint_class tint) (k, number) }
{
    let (low, high) = (PAGE * k as usize, PAGE * (k as usize + 1));
    let x = strip_x(scale, low);
    let width = strip_width(scale, low, high);
    let mut class = Row::new();
    class.text(b"page ");
    add_tint(&mut class, tint);
    let at = Extent {
        x,
        y: 0,
        width,
        height: STRIP,
    };
    print_box(class.as_slice(), at, b"", pen);
    let words = page_words(width, start + low as u32, number);
    print_words(b"pagen", x + STRIP_EDGE, STRIP_LINE, words.as_slice(), pen);
}

/// Writes what lies in the pages of a piece, if it isn't free.
fn print_mark<P: Pen>(scale: Scale, piece: &Piece, pen: &mut P)
    requires width { scale.width ≤ MOST_WIDTH }
    requires pages { 0 < scale.pages }
    requires piece { piece.now.at + piece.now.size ≤ PAGE * scale.pages }
    ensures { P.offered pen.new ≡ P.offered pen.old ++ strip_piece_text scale.width scale.pages piece.now }
{
    if is_free(piece.kind) {
        return;
    }
    let mut class = Row::new();
    class.text(b"mark ");
    class.text(kind_class(piece.kind));
    let at = Extent {
        x: strip_x(scale, piece.at),
        y: STRIP - STRIP_PART,
        width: strip_width(scale, piece.at, piece.at + piece.size).max(1),
        height: STRIP_PART,
    };
    print_box(class.as_slice(), at, b"", pen);
}

/// Writes the strip of an area that begins at an address, by the numbers of its pages and its pieces.
pub fn print_strip<P: Pen>(
    start: u32,
    width: u32,
    tint: Tint,
    pages: &[u16],
    pieces: &[Piece],
    pen: &mut P,
)
    requires start { start < 2 ^ 30 }
    requires width { width ≤ MOST_WIDTH }
    requires some { 0 < length pages.now }
    requires few { length pages.now ≤ MAX_PAGES }
    requires pieces { AllByRecursion (LiesIn (length pages.now)) pieces.now }
    ensures { P.offered pen.new ≡ P.offered pen.old ++ strip_text start width (tint_class tint) pages.now pieces.now }
{
    let scale = Scale {
        width,
        pages: pages.len() as u32,
    };
    for k in 0..pages.len() {
        print_page(start, scale, tint, k as u32, pages[k], pen);
    }
    for piece in pieces {
        print_mark(scale, piece, pen);
    }
}
