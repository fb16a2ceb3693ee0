//! A part as it is drawn: its rectangle and header, its words, and cells for the bytes of a small block.

ghost use Rattle.std.specs.Prelude.{◌≡◌, ◌≤◌, ◌<◌, ◌+◌, ◌^◌, [], ◌∷◌, ◌++◌, length};
ghost use Rattle.std.specs.Fmt.{decimal};
ghost use Rattle.rh_elements.specs.DrawPieces.{IsDrawable};
ghost use Rattle.rh_elements.specs.Tints.{tint_class};
ghost use Rattle.rh_figure.specs.Phrases.{where_so};
ghost use Rattle.rh_figure.specs.declared.piece.Piece.{Piece};
ghost use Rattle.rh_lens.specs.Items.{Item};
ghost use Rattle.rh_lens.specs.LensParts.{break_text, byte_text, cell_letter as letter_of_byte, cells_text, group_text};
ghost use Rattle.rh_lens.specs.LensParts.{head_text, inside_text, key_of, part_box, part_lines_text, part_text};
ghost use Rattle.rh_lens.specs.PlacedSpots.{part_spot};
ghost use Rattle.rh_lens.specs.ToldInside.{IsTold, lines_of};
ghost use Rattle.rh_lens.specs.Widths.{has_cells as has_cells_of};
ghost use Rattle.rh_lens.specs.declared.sizes.TheConstants.{MOST_READ, MOST_SCALE, MOST_WIDTH};
ghost use Rattle.rh_lines.specs.declared.row.TheConstants.{ROW};
ghost use Rattle.rh_sheet.specs.Markup.{box_text};

use crate::contents::{Inside, Words};
use crate::sizes::{
    BREAK_EDGE, BREAK_GAP, BREAK_LEAN, BYTE, CELL_DIGITS, CELL_LETTER, CELL_MIDDLE, CELL_TOP,
    FIRST_LINE, LINE, LINE_EDGE, PART,
};
use crate::spots::Spot;
use crate::widths::{has_cells, header_width, is_broken};
use crate::words::item_words;
use rh_elements::{
    Extent, Tint, add_point, add_tip, classes_of, print_box, print_path, print_words,
};
use rh_figure::{Kind, Piece};
use rh_lines::{Pen, Row};

/// Parts of an area that begins at an address, with its tint, in rows of so many units at a scale; they begin so far
/// from the left of the figure, and end at a foot.
#[derive(Clone, Copy)]
pub struct Band {
    pub start: u32,
    pub tint: Tint,
    pub room: u32,
    pub scale: u32,
    pub left: u32,
    pub foot: u32,
}

/// Adds the name by which two pictures are compared, of a piece at an address.
fn add_key(row: &mut Row, kind: Kind, address: u32)
    requires { length row.old + 18 ≤ ROW }
    ensures value { row.new ≡ row.old ++ key_of kind address }
    ensures few { length row.new ≤ length row.old + 18 }
{
    match kind {
        Kind::AnchorWords => row.text(b"anchors"),
        Kind::Descriptor => row.text(b"descriptor"),
        Kind::Claimed { .. } => add_numbered(row, b"used", address),
        Kind::Posted { message } => add_numbered(row, b"message", message),
        Kind::FreeHole => add_numbered(row, b"hole", address),
        Kind::MoreSegments { .. } => row.text(b"more"),
        Kind::FreeTop => row.text(b"top"),
        Kind::FlexBlock { anchor, .. } => add_numbered(row, b"flex", anchor),
        Kind::Unused => row.text(b"unused"),
    }
}

/// Adds a word and a number.
fn add_numbered(row: &mut Row, word: &[u8], number: u32)
    requires { length row.old + length word.now + 11 ≤ ROW }
    ensures value { row.new ≡ row.old ++ (word.now ++ decimal number) }
    ensures few { length row.new ≤ length row.old + length word.now + 11 }
{
    row.text(word);
    row.decimal(number);
}

/// Writes the beginning of a part with a name.
pub fn print_group<P: Pen>(key: &[u8], pen: &mut P)
    requires { length key.now ≤ 20 }
    ensures { P.offered pen.new ≡ P.offered pen.old ++ group_text key.now }
{
    let mut row = Row::new();
    row.text(b"<g data-key=\"");
    row.text(key);
    row.text(b"\">\n");
    pen.put(row.as_slice());
}

/// The letter of a byte that has a sign of its own, else a point.
fn cell_letter(byte: u8) -> u8
    ensures { result ∷ [] ≡ letter_of_byte byte }
{
    if b' ' < byte && byte < 127 {
        byte
    } else {
        b'.'
    }
}

/// Writes the cell of a byte.
fn print_byte<P: Pen>(x: u32, y: u32, byte: u8, pen: &mut P)
    requires x { x < 2 ^ 28 }
    requires y { y < 2 ^ 28 }
    ensures { P.offered pen.new ≡ P.offered pen.old ++ byte_text x y byte }
{
    let at = Extent {
        x,
        y: y + CELL_TOP,
        width: BYTE,
        height: PART - CELL_TOP,
    };
    print_box(b"byte", at, b"", pen);
    let mut digits = Row::new();
    digits.hex_digits(&[byte]);
    print_words(
        b"digits",
        x + CELL_MIDDLE,
        y + CELL_DIGITS,
        digits.as_slice(),
        pen,
    );
    print_words(
        b"letter",
        x + CELL_MIDDLE,
        y + CELL_LETTER,
        &[cell_letter(byte)],
        pen,
    );
}

/// Writes the cells of a block's bytes.
fn print_cells<P: Pen>(x: u32, y: u32, bytes: &[u8], pen: &mut P)
    requires x { x < 2 ^ 20 }
    requires y { y < 2 ^ 28 }
    requires few { length bytes.now ≤ MOST_READ }
    ensures { P.offered pen.new ≡ P.offered pen.old ++ cells_text x y bytes.now }
{
    let mut at = x;
    for byte in bytes {
        print_byte(at, y, *byte, pen);
        at += BYTE;
    }
}

/// Writes the cells of a block's bytes in a part of so many units, if it has cells.
fn print_cells_inside<P: Pen>(x: u32, y: u32, width: u32, kind: Kind, inside: &Inside, pen: &mut P)
    requires x { x < 2 ^ 20 }
    requires y { y < 2 ^ 28 }
    ensures { (i : Item) (p : Piece) → IsTold inside.now p i → P.offered pen.new ≡ P.offered pen.old
        ++ where_so (has_cells_of width i kind) (cells_text x y i.bytes) }
{
    if !has_cells(width, kind, inside) {
        return;
    }
    print_cells(x, y, &inside.bytes, pen);
}

/// Writes the rectangle of a part whose upper left corner is given.
fn print_part_box<P: Pen>(band: &Band, x: u32, y: u32, spot: Spot, piece: &Piece, pen: &mut P)
    requires start { band.now.start < 2 ^ 30 }
    requires piece { IsDrawable piece.now }
    ensures { (i : Item) → i.piece ≡ piece.now → P.offered pen.new ≡ P.offered pen.old
        ++ box_text (part_box band.now.start (tint_class band.now.tint) x y (part_spot i spot)) }
{
    let mut class = Row::new();
    class.text(b"part ");
    class.text(classes_of(band.tint, piece.kind, piece.fresh).as_slice());
    let mut tip = Row::new();
    add_tip(
        &mut tip,
        piece.kind,
        band.start + piece.at as u32,
        piece.size as u32,
    );
    let at = Extent {
        x,
        y,
        width: spot.width,
        height: PART,
    };
    print_box(class.as_slice(), at, tip.as_slice(), pen);
}

/// Writes the header of a block of so many units, if it has one.
fn print_head<P: Pen>(x: u32, y: u32, head: u32, pen: &mut P)
    ensures { P.offered pen.new ≡ P.offered pen.old ++ head_text x y head }
{
    if head == 0 {
        return;
    }
    let at = Extent {
        x,
        y,
        width: head,
        height: PART,
    };
    print_box(b"word", at, b"", pen);
}

/// Writes two slanted strokes near the right end of a part, if it is broken.
fn print_break<P: Pen>(broken: bool, right: u32, y: u32, pen: &mut P)
    requires right { right < 2 ^ 28 }
    requires y { y < 2 ^ 28 }
    ensures { P.offered pen.new ≡ P.offered pen.old ++ where_so broken (break_text right y) }
{
    if !broken {
        return;
    }
    let left = right.saturating_sub(BREAK_EDGE);
    let mut way = Row::new();
    add_point(&mut way, b"M", left, y + PART);
    add_point(&mut way, b"L", left + BREAK_LEAN, y);
    add_point(&mut way, b"M", left + BREAK_GAP, y + PART);
    add_point(&mut way, b"L", left + BREAK_GAP + BREAK_LEAN, y);
    print_path(b"break", &way, pen);
}

/// Writes the words of a part whose upper left corner is given.
pub fn print_lines<P: Pen>(x: u32, y: u32, words: &Words, pen: &mut P)
    requires x { x < 2 ^ 28 }
    requires y { y < 2 ^ 28 }
    ensures { P.offered pen.new ≡ P.offered pen.old ++ part_lines_text x y (lines_of words.now) }
{
    let left = x + LINE_EDGE;
    let top = y + FIRST_LINE;
    print_words(b"name", left, top, words.first.as_slice(), pen);
    print_words(b"told", left, top + LINE, words.second.as_slice(), pen);
    print_words(b"told", left, top + 2 * LINE, words.third.as_slice(), pen);
}

/// Writes what stands in a part, broken or not, whose upper left corner is given.
fn print_inside<P: Pen>(
    band: &Band,
    broken: bool,
    x: u32,
    y: u32,
    spot: Spot,
    piece: &Piece,
    inside: &Inside,
    pen: &mut P,
)
    requires start { band.now.start < 2 ^ 30 }
    requires x { x < 2 ^ 16 }
    requires y { y < 2 ^ 27 }
    requires width { spot.width ≤ MOST_WIDTH }
    requires piece { IsDrawable piece.now }
    ensures { (i : Item) → IsTold inside.now piece.now i → P.offered pen.new ≡ P.offered pen.old
        ++ inside_text band.now.start broken x y (part_spot i spot) }
{
    let head = header_width(piece.kind);
    print_head(x, y, head, pen);
    print_cells_inside(x + head, y, spot.width, piece.kind, inside, pen);
    let words = item_words(band.start, broken, spot.width, piece, inside);
    print_lines(x + head, y, &words, pen);
}

/// Writes a part whose upper left corner is given.
pub fn print_part<P: Pen>(
    band: &Band,
    x: u32,
    y: u32,
    spot: Spot,
    piece: &Piece,
    inside: &Inside,
    pen: &mut P,
)
    requires start { band.now.start < 2 ^ 30 }
    requires scale { band.now.scale ≤ MOST_SCALE }
    requires x { x < 2 ^ 16 }
    requires y { y < 2 ^ 27 }
    requires width { spot.width ≤ MOST_WIDTH }
    requires piece { IsDrawable piece.now }
    ensures { (i : Item) → IsTold inside.now piece.now i → P.offered pen.new ≡ P.offered pen.old
        ++ part_text band.now.start (tint_class band.now.tint) band.now.room band.now.scale x y (part_spot i spot) }
{
    let mut key = Row::new();
    add_key(&mut key, piece.kind, band.start + piece.at as u32);
    print_group(key.as_slice(), pen);
    print_part_box(band, x, y, spot, piece, pen);
    let broken = is_broken(band.room, band.scale, piece, inside);
    print_inside(band, broken, x, y, spot, piece, inside, pen);
    print_break(broken, x + spot.width, y, pen);
    pen.put(b"</g>\n");
}
