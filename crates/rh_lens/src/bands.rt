//! The parts of a band, one after the other.

ghost use Rattle.std.specs.Prelude.{◌≡◌, ◌≤◌, ◌<◌, ◌+◌, ◌^◌, ◌∷◌, ◌++◌, IfNone, IfSome, List, None, Some, length, max};
ghost use Rattle.rh_elements.specs.DrawPieces.{AreDrawable, IsDrawable};
ghost use Rattle.rh_elements.specs.Tints.{tint_class};
ghost use Rattle.rh_figure.specs.declared.piece.Piece.{Piece};
ghost use Rattle.rh_lens.specs.Items.{Item};
ghost use Rattle.rh_lens.specs.LensArrows.{is_block_of as is_block_of_anchor, spot_of_block as spot_of_anchor};
ghost use Rattle.rh_lens.specs.LensParts.{parts_text, sentence_of, sentences_of};
ghost use Rattle.rh_lens.specs.LensSpots.{rows_behind, rows_of, spots};
ghost use Rattle.rh_lens.specs.PlacedSpots.{AreTellable, IsBand, IsTellable, seen_items, part_spot};
ghost use Rattle.rh_lens.specs.Inner.Flows.{IsFlow, IsNextFlow, band_rest, flow_spots, sentences_left};
ghost use Rattle.rh_lens.specs.declared.sizes.TheConstants.{MOST_PIECES, MOST_SCALE, MOST_WIDTH};
ghost use Rattle.rh_sheet.specs.Markup.{escape};

use crate::contents::{Contents, Inside};
use crate::parts::{Band, print_part};
use crate::spots::{Flow, Spot, spot_y};
use rh_elements::{add_tip, put_escaped};
use rh_figure::{Kind, Piece};
use rh_lines::{Pen, Row};

/// How many rows the parts of some pieces have, of so many units each, at a scale.
pub fn count_rows<C: Contents>(contents: &C, pieces: &[Piece], room: u32, scale: u32) -> u32
    requires room { room ≤ MOST_WIDTH }
    requires scale { scale ≤ MOST_SCALE }
    requires pieces { AreTellable (C.has_piece contents.now) pieces.now }
    requires few { length pieces.now ≤ MOST_PIECES }
    ensures value { result ≡ rows_of (spots room scale (seen_items (C.item contents.now) pieces.now)) }
    ensures few { result ≤ MOST_PIECES + 1 }
{
    let mut inside = Inside::new();
    let mut flow = Flow::new(room, scale);
    let mut rows = 0;
    for piece in pieces {
        rows = rows_with(contents, piece, &mut flow, &mut inside, rows);
    }
    rows
}

/// How many rows there are with one more piece.
fn rows_with<C: Contents>(
    contents: &C,
    piece: &Piece,
    flow: &mut Flow,
    inside: &mut Inside,
    rows: u32,
) -> u32
    requires flow { IsFlow flow.old }
    requires piece { IsTellable (C.has_piece contents.now) piece.now }
    ensures flow { IsNextFlow flow.old flow.new }
    ensures value { (rest : List Piece) →
        rows_behind rows (flow_spots (C.item contents.now) flow.old (piece.now ∷ rest))
        ≡ rows_behind result (flow_spots (C.item contents.now) flow.new rest) }
    ensures few { result ≤ max rows (flow.new.row + 1) }
{
    if piece.size == 0 {
        return rows;
    }
    contents.tell(piece, inside);
    flow.take(piece, inside).row + 1
}

/// Writes the parts of some pieces.
pub fn print_band<C: Contents, P: Pen>(contents: &C, pieces: &[Piece], band: &Band, pen: &mut P)
    requires band { IsBand band.now }
    requires pieces { AreTellable (C.has_piece contents.now) pieces.now }
    requires few { length pieces.now ≤ MOST_PIECES }
    ensures { P.offered pen.new ≡ P.offered pen.old
        ++ parts_text band.now.start (tint_class band.now.tint) band.now.room band.now.scale band.now.left band.now.foot
        (spots band.now.room band.now.scale (seen_items (C.item contents.now) pieces.now)) }
{
    let mut inside = Inside::new();
    let mut flow = Flow::new(band.room, band.scale);
    for piece in pieces {
        print_next(contents, piece, band, &mut flow, &mut inside, pen);
    }
}

/// Writes the part of a piece behind those before it.
fn print_next<C: Contents, P: Pen>(
    contents: &C,
    piece: &Piece,
    band: &Band,
    flow: &mut Flow,
    inside: &mut Inside,
    pen: &mut P,
)
    requires band { IsBand band.now }
    requires flow { IsFlow flow.old }
    requires room { flow.old.room ≡ band.now.room }
    requires scale { flow.old.scale ≡ band.now.scale }
    requires piece { IsTellable (C.has_piece contents.now) piece.now }
    ensures flow { IsNextFlow flow.old flow.new }
    ensures text { (rest : List Piece) →
        P.offered pen.new ++ band_rest band.now (flow_spots (C.item contents.now) flow.new rest)
        ≡ P.offered pen.old ++ band_rest band.now (flow_spots (C.item contents.now) flow.old (piece.now ∷ rest)) }
{
    if piece.size == 0 {
        return;
    }
    contents.tell(piece, inside);
    let spot = flow.take(piece, inside);
    let y = spot_y(band.foot, spot.row);
    print_part(band, band.left + spot.x, y, spot, piece, inside, pen);
}

/// Where the flex block of an anchor stands among the parts of some pieces.
pub fn spot_of_block<C: Contents>(
    contents: &C,
    pieces: &[Piece],
    room: u32,
    scale: u32,
    anchor: u32,
) -> Option<Spot>
    requires room { room ≤ MOST_WIDTH }
    requires scale { scale ≤ MOST_SCALE }
    requires pieces { AreTellable (C.has_piece contents.now) pieces.now }
    requires few { length pieces.now ≤ MOST_PIECES }
    ensures some { IfSome result (λ s. (i : Item) × (spot_of_anchor anchor
        (spots room scale (seen_items (C.item contents.now) pieces.now)) ≡ Some (part_spot i s))) }
    ensures none { IfNone result (spot_of_anchor anchor
        (spots room scale (seen_items (C.item contents.now) pieces.now)) ≡ None) }
    ensures few { IfSome result (λ s. (s.x ≤ MOST_WIDTH) × (s.row ≤ MOST_PIECES)) }
{
    let mut inside = Inside::new();
    let mut flow = Flow::new(room, scale);
    for piece in pieces {
        if let Some(spot) = spot_if(contents, piece, anchor, &mut flow, &mut inside) {
            return Some(spot);
        }
    }
    None
}

/// Where a piece stands behind those before it, if it is the flex block of an anchor.
fn spot_if<C: Contents>(
    contents: &C,
    piece: &Piece,
    anchor: u32,
    flow: &mut Flow,
    inside: &mut Inside,
) -> Option<Spot>
    requires flow { IsFlow flow.old }
    requires piece { IsTellable (C.has_piece contents.now) piece.now }
    ensures flow { IsNextFlow flow.old flow.new }
    ensures some { IfSome result (λ s. (rest : List Piece) → spot_of_anchor anchor
        (flow_spots (C.item contents.now) flow.old (piece.now ∷ rest))
        ≡ Some (part_spot (C.item contents.now piece.now) s)) }
    ensures none { IfNone result ((rest : List Piece) → spot_of_anchor anchor (flow_spots (C.item contents.now) flow.old
        (piece.now ∷ rest)) ≡ spot_of_anchor anchor (flow_spots (C.item contents.now) flow.new rest)) }
    ensures few { IfSome result (λ s. (s.x ≤ MOST_WIDTH) × (s.row ≤ flow.old.row + 1)) }
{
    if piece.size == 0 {
        return None;
    }
    contents.tell(piece, inside);
    let spot = flow.take(piece, inside);
    if is_block_of(anchor, piece.kind) {
        Some(spot)
    } else {
        None
    }
}

/// Whether a piece is the flex block of an anchor.
fn is_block_of(anchor: u32, kind: Kind) -> bool
    ensures { result ≡ is_block_of_anchor anchor kind }
{
    match kind {
        Kind::FlexBlock { anchor: other, .. } => other == anchor,
        _ => false,
    }
}

/// Writes a piece of an area that begins at an address, as it is read out.
fn put_sentence<P: Pen>(start: u32, piece: &Piece, pen: &mut P)
    requires start { start < 2 ^ 30 }
    requires piece { IsDrawable piece.now }
    ensures { (i : Item) → i.piece ≡ piece.now → P.offered pen.new ≡ P.offered pen.old ++ escape (sentence_of start i) }
{
    let mut row = Row::new();
    add_tip(
        &mut row,
        piece.kind,
        start + piece.at as u32,
        piece.size as u32,
    );
    row.text(b". ");
    put_escaped(row.as_slice(), pen);
}

/// Writes a piece of an area that begins at an address, as it is read out, behind those before it.
fn put_next_sentence<P: Pen>(start: u32, piece: &Piece, pen: &mut P)
    requires start { start < 2 ^ 30 }
    requires piece { IsDrawable piece.now }
    ensures { (item : Piece → Item) → ((p : Piece) → (item p).piece ≡ p) → (rest : List Piece) →
        P.offered pen.new ++ sentences_left start item rest
        ≡ P.offered pen.old ++ sentences_left start item (piece.now ∷ rest) }
{
    if piece.size == 0 {
        return;
    }
    put_sentence(start, piece, pen);
}

/// Writes pieces of an area that begins at an address, as they are read out.
pub fn put_sentences<P: Pen>(start: u32, pieces: &[Piece], pen: &mut P)
    requires start { start < 2 ^ 30 }
    requires pieces { AreDrawable pieces.now }
    ensures { (item : Piece → Item) → ((p : Piece) → (item p).piece ≡ p) → P.offered pen.new ≡ P.offered pen.old
        ++ escape (sentences_of start (seen_items item pieces.now)) }
{
    for piece in pieces {
        put_next_sentence(start, piece, pen);
    }
}
