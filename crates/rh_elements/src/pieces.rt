//! The pieces of an area in the rows of its pages.

ghost use Rattle.std.specs.Prelude.{◌≡◌, ◌≤◌, ◌<◌, ◌+◌, ◌*◌, ◌^◌, ◌==◌, ◌&&◌, not, [], ◌∷◌, ◌++◌, length, codes};
ghost use Rattle.std.specs.Fmt.{decimal};
ghost use Rattle.std.specs.List.{concat};
ghost use Rattle.rh_defs.specs.Text.{address as address_of};
ghost use Rattle.rh_defs.specs.declared.sizes.TheConstants.{PAGE};
ghost use Rattle.rh_elements.specs.DrawPieces.{AreDrawable, IsDrawable};
ghost use Rattle.rh_elements.specs.Tints.{tint_class};
ghost use Rattle.rh_lines.specs.declared.row.TheConstants.{ROW};
ghost use Rattle.rh_figure.specs.Phrases.{where_so};
ghost use Rattle.rh_sheet.specs.declared.sizes.TheConstants.{ROW_WIDTH, SHORT_EDGE, UNIT_BYTES};
ghost use Rattle.rh_sheet.specs.Markup.{box_text};
ghost use Rattle.rh_sheet.specs.SheetPieces.{first_page as first_page_of, fitting as fitting_label};
ghost use Rattle.rh_sheet.specs.SheetPieces.{has_room as has_room_for, is_labelled_below as is_labelled_below_of};
ghost use Rattle.rh_sheet.specs.SheetPieces.{high_in as high_byte_in, is_tinted as is_tinted_kind};
ghost use Rattle.rh_sheet.specs.SheetPieces.{kind_class as class_of_kind, label_of, low_in as low_byte_in, piece_box};
ghost use Rattle.rh_sheet.specs.SheetPieces.{piece_classes, piece_label, piece_text, piece_width as width_of_piece};
ghost use Rattle.rh_sheet.specs.SheetPieces.{piece_x as x_of_piece, pieces_text, short_label_of, sized_at, tip_of};

use crate::boxes::{Extent, print_box, print_words};
use crate::tints::{Tint, add_tint};
use rh_defs::sizes::{FLEX_HEADER, PAGE, WORD};
use rh_figure::{Kind, Piece};
use rh_lines::{Pen, Row};
use rh_map::add_size;
use rh_sheet::sizes::{
    BASELINE, LABEL_EDGE, LABEL_UNITS, LEFT, ROW_HEIGHT, SHORT_EDGE, UNIT_BYTES,
};

// ---- words

/// The class of a kind of piece.
pub fn kind_class(kind: Kind) -> &'static [u8]
    ensures value { result.now ≡ class_of_kind kind }
    ensures few { length result.now ≤ 7 }
{
    match kind {
        Kind::AnchorWords => b"anchors",
        Kind::Descriptor => b"head",
        Kind::Claimed { .. } | Kind::Posted { .. } => b"used",
        Kind::FreeHole => b"hole",
        Kind::MoreSegments { .. } => b"many",
        Kind::FreeTop => b"top",
        Kind::FlexBlock { .. } => b"flex",
        Kind::Unused => b"spare",
    }
}

/// Whether a piece has its owner's tint.
fn is_tinted(kind: Kind) -> bool
    ensures { result ≡ is_tinted_kind kind }
{
    matches!(
        kind,
        Kind::Claimed { .. } | Kind::Posted { .. } | Kind::FlexBlock { .. }
    )
}

/// Adds what stands in a piece of so many bytes, where it has room.
fn add_label(row: &mut Row, kind: Kind, size: u32)
    requires { length row.old + 20 ≤ ROW }
    ensures value { row.new ≡ row.old ++ label_of kind size }
    ensures few { length row.new ≤ length row.old + 20 }
{
    match kind {
        Kind::AnchorWords | Kind::Descriptor => {}
        Kind::Claimed { size: bytes } => add_size(row, bytes),
        Kind::Posted { message } => add_counted(row, b"message ", message, b""),
        Kind::FreeHole => add_counted(row, b"hole of ", size, b""),
        Kind::MoreSegments { count } => add_counted(row, b"", count, b" more"),
        Kind::FreeTop => add_counted(row, b"", size, b" free"),
        Kind::FlexBlock { anchor, .. } => add_counted(row, b"anchor ", anchor, b""),
        Kind::Unused => add_counted(row, b"", size, b" unused"),
    }
}

/// Adds a number between two words.
fn add_counted(row: &mut Row, before: &[u8], number: u32, behind: &[u8])
    requires { length row.old + length before.now + length behind.now + 11 ≤ ROW }
    ensures value { row.new ≡ row.old ++ (before.now ++ (decimal number ++ behind.now)) }
    ensures few { length row.new ≤ length row.old + length before.now + length behind.now + 11 }
{
    row.text(before);
    row.decimal(number);
    row.text(behind);
}

/// Adds what stands in a piece of so many bytes where it has less room.
fn add_short_label(row: &mut Row, kind: Kind, size: u32)
    requires { length row.old + 11 ≤ ROW }
    ensures value { row.new ≡ row.old ++ short_label_of kind size }
    ensures few { length row.new ≤ length row.old + 11 }
{
    match kind {
        Kind::Claimed { size: bytes } => row.decimal(bytes),
        Kind::Posted { message } => row.decimal(message),
        Kind::FreeHole => row.decimal(size),
        Kind::FlexBlock { anchor, .. } => row.decimal(anchor),
        _ => {}
    }
}

/// Adds a thing at an address, and its size.
fn add_sized_at(row: &mut Row, what: &[u8], address: u32, size: u32)
    requires { length row.old + length what.now + 30 ≤ ROW }
    ensures value { row.new ≡ row.old ++ sized_at what.now address size }
    ensures few { length row.new ≤ length row.old + length what.now + 30 }
{
    row.text(what);
    row.address(address);
    row.text(b", ");
    add_size(row, size);
}

/// Adds a thing and its address.
fn add_at(row: &mut Row, what: &[u8], address: u32)
    requires { length row.old + length what.now + 11 ≤ ROW }
    ensures value { row.new ≡ row.old ++ (what.now ++ address_of address) }
    ensures few { length row.new ≤ length row.old + length what.now + 11 }
{
    row.text(what);
    row.address(address);
}

/// Adds a thing with a number, behind which a comma stands.
fn named(what: &[u8], number: u32) -> Row
    requires { length what.now ≤ 12 }
    ensures value { result ≡ concat (what.now ∷ decimal number ∷ codes ", " ∷ []) }
    ensures few { length result ≤ 25 }
{
    let mut row = Row::new();
    row.text(what);
    row.decimal(number);
    row.text(b", ");
    row
}

/// Adds what is told of a piece of so many bytes at an address.
pub fn add_tip(row: &mut Row, kind: Kind, address: u32, size: u32)
    requires small { address < 2 ^ 31 }
    requires room { length row.old + 55 ≤ ROW }
    ensures value { row.new ≡ row.old ++ tip_of kind address size }
    ensures few { length row.new ≤ length row.old + 55 }
{
    match kind {
        Kind::AnchorWords => add_at(row, b"64 anchor words, ", address),
        Kind::Descriptor => add_at(row, b"heap descriptor, ", address),
        Kind::Claimed { size: bytes } => add_sized_at(row, b"used ", address + WORD as u32, bytes),
        Kind::Posted { message } => {
            let what = named(b"message ", message);
            add_sized_at(
                row,
                what.as_slice(),
                address + WORD as u32,
                size.saturating_sub(WORD as u32),
            );
        }
        Kind::FreeHole => add_sized_at(row, b"hole ", address, size),
        Kind::MoreSegments { count } => add_counted(row, b"", count, b" more"),
        Kind::FreeTop => add_at(row, b"free, ", address),
        Kind::FlexBlock {
            anchor,
            size: bytes,
        } => {
            let what = named(b"flex block ", anchor);
            add_sized_at(row, what.as_slice(), address + FLEX_HEADER as u32, bytes);
        }
        Kind::Unused => add_at(row, b"unused, ", address),
    }
}

// ---- rows

/// The first byte of page k that a piece has, from the page's first one.
pub fn low_in(k: usize, piece: &Piece) -> usize
    requires { k < 2 ^ 20 }
    ensures { result ≡ low_byte_in k piece.now }
{
    piece.at.saturating_sub(PAGE * k)
}

/// The first byte of page k behind a piece.
pub fn high_in(k: usize, piece: &Piece) -> usize
    requires page { k < 2 ^ 20 }
    requires piece { IsDrawable piece.now }
    ensures value { result ≡ high_byte_in k piece.now }
    ensures few { result ≤ PAGE }
{
    (piece.at + piece.size).saturating_sub(PAGE * k).min(PAGE)
}

/// Whether a text of so many bytes has room in so many units, with an edge.
fn has_room(edge: u32, text: &Row, width: u32) -> bool
    requires text { length text.now ≤ 20 }
    requires edge { edge ≤ 8 }
    ensures { result ≡ has_room_for edge text.now width }
{
    LABEL_UNITS * text.as_slice().len() as u32 + edge <= width
}

/// The label that has room in a part of a piece of so many units.
pub fn fitting(kind: Kind, size: u32, width: u32) -> Row
    requires { width ≤ ROW_WIDTH }
    ensures value { result ≡ fitting_label kind size width }
    ensures few { length result ≤ 20 }
{
    let mut label = Row::new();
    add_label(&mut label, kind, size);
    if has_room(LABEL_EDGE, &label, width) {
        return label;
    }
    short_fitting(kind, size, width)
}

/// The short label, where the part is all of the piece and has room for it.
fn short_fitting(kind: Kind, size: u32, width: u32) -> Row
    requires { width ≤ ROW_WIDTH }
    ensures value { result ≡ where_so
        (UNIT_BYTES * width == size && has_room_for SHORT_EDGE (short_label_of kind size) width)
        (short_label_of kind size) }
    ensures few { length result ≤ 11 }
{
    let mut label = Row::new();
    add_short_label(&mut label, kind, size);
    if UNIT_BYTES as u32 * width == size && has_room(SHORT_EDGE, &label, width) {
        return label;
    }
    Row::new()
}

/// The classes of a piece.
pub fn classes_of(tint: Tint, kind: Kind, fresh: bool) -> Row
    ensures value { result ≡ piece_classes (tint_class tint) kind fresh }
    ensures few { length result ≤ 30 }
{
    let mut row = Row::new();
    row.text(kind_class(kind));
    if is_tinted(kind) {
        row.byte(b' ');
        add_tint(&mut row, tint);
    }
    if fresh {
        row.text(b" fresh");
    }
    row
}

/// How far from a row's left end a piece begins in the row of page k, where it has bytes there.
fn piece_x(k: usize, piece: &Piece) -> u32
    requires page { k < 2 ^ 20 }
    requires piece { IsDrawable piece.now }
    requires there { low_byte_in k piece.now < high_byte_in k piece.now }
    ensures value { result ≡ x_of_piece k piece.now }
    ensures few { result ≤ ROW_WIDTH }
{
    (low_in(k, piece) / UNIT_BYTES) as u32
}

/// How wide a piece is in the row of page k.
fn piece_width(k: usize, piece: &Piece) -> u32
    requires page { k < 2 ^ 20 }
    requires piece { IsDrawable piece.now }
    ensures value { result ≡ width_of_piece k piece.now }
    ensures few { result ≤ ROW_WIDTH }
{
    (high_in(k, piece).saturating_sub(low_in(k, piece)) / UNIT_BYTES) as u32
}

/// Writes the rectangle of a piece that has bytes in page k.
fn print_piece_box<P: Pen>(start: u32, tint: Tint, y: u32, k: usize, piece: &Piece, pen: &mut P)
    requires start { start < 2 ^ 30 }
    requires page { k < 2 ^ 20 }
    requires piece { IsDrawable piece.now }
    requires there { low_byte_in k piece.now < high_byte_in k piece.now }
    ensures { P.offered pen.new ≡ P.offered pen.old ++ box_text (piece_box start (tint_class tint) y k piece.now) }
{
    let class = classes_of(tint, piece.kind, piece.fresh);
    let mut tip = Row::new();
    add_tip(
        &mut tip,
        piece.kind,
        start + piece.at as u32,
        piece.size as u32,
    );
    let at = Extent {
        x: LEFT + piece_x(k, piece),
        y,
        width: piece_width(k, piece),
        height: ROW_HEIGHT,
    };
    print_box(class.as_slice(), at, tip.as_slice(), pen);
}

/// The lowest page from page low on in which a piece has bytes.
fn first_page(low: usize, piece: &Piece) -> usize
    ensures { result ≡ first_page_of low piece.now }
{
    low.max(piece.at / PAGE)
}

/// Whether the whole label of a piece has room in its part in the row of page k.
fn has_label(k: usize, piece: &Piece) -> bool
    requires page { k < 2 ^ 20 }
    requires piece { IsDrawable piece.now }
    ensures { result ≡ has_room_for LABEL_EDGE (label_of piece.now.kind piece.now.size) (width_of_piece k piece.now) }
{
    let mut label = Row::new();
    add_label(&mut label, piece.kind, piece.size as u32);
    has_room(LABEL_EDGE, &label, piece_width(k, piece))
}

/// Whether a row below that of page k, among those from page low on, has the label of a piece.
fn is_labelled_below(low: usize, k: usize, piece: &Piece) -> bool
    requires page { k < 2 ^ 20 }
    requires piece { IsDrawable piece.now }
    ensures { result ≡ is_labelled_below_of low k piece.now }
{
    let first = first_page(low, piece);
    first < k && (first + 1 < k || has_label(first, piece))
}

/// The label of a piece in the row of page k, where no row below has it.
fn label_in(low: usize, k: usize, piece: &Piece) -> Row
    requires page { k < 2 ^ 20 }
    requires piece { IsDrawable piece.now }
    ensures value { result ≡ where_so (not (is_labelled_below_of low k piece.now))
        (fitting_label piece.now.kind piece.now.size (width_of_piece k piece.now)) }
    ensures few { length result ≤ 20 }
{
    if is_labelled_below(low, k, piece) {
        return Row::new();
    }
    fitting(piece.kind, piece.size as u32, piece_width(k, piece))
}

/// Writes the label that the part of a piece in the row of page k has room for, where no row below has it.
fn print_label<P: Pen>(y: u32, low: usize, k: usize, piece: &Piece, pen: &mut P)
    requires height { y ≤ 800 }
    requires page { k < 2 ^ 20 }
    requires piece { IsDrawable piece.now }
    requires there { low_byte_in k piece.now < high_byte_in k piece.now }
    ensures { P.offered pen.new ≡ P.offered pen.old ++ piece_label y low k piece.now }
{
    let mut class = Row::new();
    class.text(b"lab ");
    class.text(kind_class(piece.kind));
    let label = label_in(low, k, piece);
    let x = LEFT + piece_x(k, piece) + piece_width(k, piece) / 2;
    print_words(class.as_slice(), x, y + BASELINE, label.as_slice(), pen);
}

/// Writes the part of a piece in the row of page k.
fn print_part<P: Pen>(
    start: u32,
    tint: Tint,
    y: u32,
    low: usize,
    k: usize,
    piece: &Piece,
    pen: &mut P,
)
    requires start { start < 2 ^ 30 }
    requires height { y ≤ 800 }
    requires page { k < 2 ^ 20 }
    requires piece { IsDrawable piece.now }
    requires there { low_byte_in k piece.now < high_byte_in k piece.now }
    ensures { P.offered pen.new ≡ P.offered pen.old
        ++ (box_text (piece_box start (tint_class tint) y k piece.now) ++ piece_label y low k piece.now) }
{
    print_piece_box(start, tint, y, k, piece, pen);
    print_label(y, low, k, piece, pen);
}

/// Writes a piece in the row of page k, which stands together with those from page low on, of an area that begins at an
/// address, at a height of the figure, if it has bytes there.
pub fn print_piece<P: Pen>(
    start: u32,
    tint: Tint,
    y: u32,
    low: usize,
    k: usize,
    piece: &Piece,
    pen: &mut P,
)
    requires start { start < 2 ^ 30 }
    requires height { y ≤ 800 }
    requires page { k < 2 ^ 17 }
    requires piece { IsDrawable piece.now }
    ensures { P.offered pen.new ≡ P.offered pen.old ++ piece_text start (tint_class tint) y low k piece.now }
{
    if low_in(k, piece) < high_in(k, piece) {
        print_part(start, tint, y, low, k, piece, pen);
    }
}

/// Writes all pieces that have bytes in page k, whose row stands together with those from page low on.
pub fn print_pieces<P: Pen>(
    start: u32,
    tint: Tint,
    y: u32,
    low: usize,
    k: usize,
    pieces: &[Piece],
    pen: &mut P,
)
    requires start { start < 2 ^ 30 }
    requires height { y ≤ 800 }
    requires page { k < 2 ^ 17 }
    requires pieces { AreDrawable pieces.now }
    ensures { P.offered pen.new ≡ P.offered pen.old ++ pieces_text start (tint_class tint) y low k pieces.now }
{
    for piece in pieces {
        print_piece(start, tint, y, low, k, piece, pen);
    }
}
