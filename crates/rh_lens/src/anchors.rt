//! The anchors of a slot, and the arrows from them to their blocks.

ghost use Rattle.std.specs.Prelude.{◌≡◌, ◌≤◌, ◌<◌, ◌+◌, ◌^◌, ◌++◌, Some, length};
ghost use Rattle.rh_defs.specs.Slot.{anchor_count};
ghost use Rattle.rh_elements.specs.declared.boxes.TheConstants.{LONGEST_CLASS};
ghost use Rattle.rh_lens.specs.Anchors.{anchor_choices, anchor_height as height_of_anchor, anchor_x as x_of_anchor};
ghost use Rattle.rh_lens.specs.Anchors.{anchor_y as y_of_anchor, anchors_height as height_of_anchors};
ghost use Rattle.rh_lens.specs.Anchors.{are_many as are_many_anchors, heap_left as left_of_heap, address_held};
ghost use Rattle.rh_lens.specs.Items.{Item};
ghost use Rattle.rh_lens.specs.Lens.{anchor_class as class_of_anchor, anchor_place_text, anchor_text, anchors_text};
ghost use Rattle.rh_lens.specs.LensArrows.{anchor_arrow, arrow_class as class_of_arrow, arrow_to, arrows_text};
ghost use Rattle.rh_lens.specs.LensArrows.{bend as bend_of, has_arrow as has_arrow_of, leading_way as way_from};
ghost use Rattle.rh_lens.specs.LensSpots.{spots};
ghost use Rattle.rh_lens.specs.PartWords.{Choices, fitted_words};
ghost use Rattle.rh_lens.specs.PlacedSpots.{AreTellable, seen_items, part_spot};
ghost use Rattle.rh_lens.specs.ToldInside.{lines_of};
ghost use Rattle.rh_lens.specs.declared.sizes.TheConstants.{ANCHOR_WIDTH, ARROWS, MOST_PIECES};
ghost use Rattle.rh_lens.specs.declared.sizes.TheConstants.{MOST_SCALE, MOST_WIDTH, PART};
ghost use Rattle.rh_lines.specs.declared.row.TheConstants.{ROW};

use crate::bands::spot_of_block;
use crate::contents::{Contents, Words};
use crate::parts::{Band, print_group, print_lines};
use crate::sizes::{
    ANCHOR_LINE, ANCHOR_WIDTH, ANCHORS_ACROSS, ARROW_GAP, ARROWS, FLEX_HEAD, GAP, LEAST_BEND, PART,
    ROW_GAP, SIDE_GAP,
};
use crate::spots::{Spot, spot_y};
use crate::words::fixed_words;
use rh_elements::{Extent, add_point, print_box, print_path};
use rh_figure::Piece;
use rh_lines::{Pen, Row};

/// An anchor that is shown: its number, the address that it holds, if it leads to a block, and whether the command gave
/// it another one.
#[derive(Clone, Copy, Default)]
pub struct ShownAnchor {
    pub number: u32,
    pub held: Option<u32>,
    pub is_moved: bool,
}

// ---- places

/// Whether so many anchors have a line each.
fn are_many(count: u32) -> bool
    ensures { result ≡ are_many_anchors count }
{
    ANCHORS_ACROSS < count
}

/// How high each of so many anchors is.
fn anchor_height(count: u32) -> u32
    ensures value { result ≡ height_of_anchor count }
    ensures few { result ≤ PART }
    ensures some { 0 < result }
{
    if are_many(count) { ANCHOR_LINE } else { PART }
}

/// How high so many anchors are together.
pub fn anchors_height(count: u32) -> u32
    requires { count ≤ anchor_count }
    ensures value { result ≡ height_of_anchors count }
    ensures few { result ≤ 2000 }
{
    let rows = count.max(1).div_ceil(ANCHORS_ACROSS);
    ((anchor_height(count) + ROW_GAP) * rows).saturating_sub(ROW_GAP)
}

/// How far from the left the C heap begins, beside so many anchors.
pub fn heap_left(count: u32) -> u32
    ensures value { result ≡ left_of_heap count }
    ensures few { result ≤ 224 }
{
    (ANCHOR_WIDTH + GAP) * ANCHORS_ACROSS.min(count.max(1)) + SIDE_GAP
}

/// How far from the left anchor i of those that are shown is.
fn anchor_x(i: u32) -> u32
    ensures value { result ≡ x_of_anchor i }
    ensures few { result ≤ 144 }
{
    (ANCHOR_WIDTH + GAP) * (i % ANCHORS_ACROSS)
}

/// The upper edge of anchor i of so many, which begin at a height.
fn anchor_y(top: u32, count: u32, i: u32) -> u32
    requires top { top < 2 ^ 26 }
    requires i { i ≤ anchor_count }
    ensures value { result ≡ y_of_anchor top count i }
    ensures few { result < 2 ^ 27 }
{
    top + (anchor_height(count) + ROW_GAP) * (i / ANCHORS_ACROSS)
}

// ---- anchors

/// Adds the address that an anchor holds, or 0.
fn add_held(row: &mut Row, held: Option<u32>)
    requires { length row.old + 11 ≤ ROW }
    ensures value { row.new ≡ row.old ++ address_held held }
    ensures few { length row.new ≤ length row.old + 11 }
{
    match held {
        Some(address) => row.address(address),
        None => row.byte(b'0'),
    }
}

/// The words of an anchor of so many.
fn anchor_words(count: u32, anchor: &ShownAnchor) -> Words
    ensures { lines_of result ≡ fitted_words ANCHOR_WIDTH (anchor_choices count anchor.now) }
{
    let mut held = Row::new();
    add_held(&mut held, anchor.held);
    let mut name = Row::new();
    if are_many(count) {
        name.decimal(anchor.number);
        name.byte(b' ');
        name.text(held.as_slice());
        return fixed_words(ANCHOR_WIDTH, name.as_slice(), b"", b"");
    }
    name.text(b"anchor ");
    name.decimal(anchor.number);
    fixed_words(ANCHOR_WIDTH, name.as_slice(), held.as_slice(), b"")
}

/// Writes the place of an anchor, by its name, its class, its upper left corner and its words.
fn print_place<P: Pen>(
    key: &[u8],
    class: &[u8],
    x: u32,
    y: u32,
    height: u32,
    words: &Words,
    pen: &mut P,
)
    requires key { length key.now ≤ 20 }
    requires class { length class.now ≤ LONGEST_CLASS }
    requires x { x < 2 ^ 28 }
    requires y { y < 2 ^ 28 }
    ensures { (c : Choices) → lines_of words.now ≡ fitted_words ANCHOR_WIDTH c →
        P.offered pen.new ≡ P.offered pen.old ++ anchor_place_text key.now class.now x y height c }
{
    print_group(key, pen);
    let at = Extent {
        x,
        y,
        width: ANCHOR_WIDTH,
        height,
    };
    print_box(class, at, b"", pen);
    print_lines(x, y, words, pen);
    pen.put(b"</g>\n");
}

/// The classes of an anchor.
fn anchor_class(anchor: &ShownAnchor) -> &'static [u8]
    ensures value { result.now ≡ class_of_anchor anchor.now }
    ensures few { length result.now ≤ 22 }
{
    match (anchor.held.is_some(), anchor.is_moved) {
        (true, false) => b"part anchor",
        (true, true) => b"part anchor fresh",
        (false, false) => b"part anchor none",
        (false, true) => b"part anchor none fresh",
    }
}

/// Writes anchor i of so many, which begin at a height.
fn print_anchor<P: Pen>(top: u32, count: u32, i: u32, anchor: &ShownAnchor, pen: &mut P)
    requires top { top < 2 ^ 26 }
    requires i { i ≤ anchor_count }
    ensures { P.offered pen.new ≡ P.offered pen.old ++ anchor_text top count (i, anchor.now) }
{
    let mut key = Row::new();
    key.text(b"anchor");
    key.decimal(anchor.number);
    let words = anchor_words(count, anchor);
    let x = anchor_x(i);
    let y = anchor_y(top, count, i);
    print_place(
        key.as_slice(),
        anchor_class(anchor),
        x,
        y,
        anchor_height(count),
        &words,
        pen,
    );
}

/// Writes the anchors, which begin at a height, or that none leads to a block.
pub fn print_anchors<P: Pen>(top: u32, anchors: &[ShownAnchor], pen: &mut P)
    requires top { top < 2 ^ 26 }
    requires few { length anchors.now ≤ anchor_count }
    ensures { P.offered pen.new ≡ P.offered pen.old ++ anchors_text top anchors.now }
{
    if anchors.is_empty() {
        let words = fixed_words(ANCHOR_WIDTH, b"anchors", b"all 0", b"");
        print_place(b"anchors", b"part anchor none", 0, top, PART, &words, pen);
        return;
    }
    let count = anchors.len() as u32;
    for i in 0..anchors.len() {
        print_anchor(top, count, i as u32, &anchors[i], pen);
    }
}

// ---- arrows

/// Whether an anchor of so many has an arrow, if it leads to a block.
fn has_arrow(count: u32, anchor: &ShownAnchor) -> bool
    ensures { result ≡ has_arrow_of count anchor.now }
{
    !are_many(count) || anchor.is_moved
}

/// The classes of the arrow of an anchor.
fn arrow_class(anchor: &ShownAnchor) -> &'static [u8]
    ensures value { result.now ≡ class_of_arrow anchor.now }
    ensures few { length result.now ≤ 11 }
{
    match anchor.is_moved {
        true => b"leads fresh",
        false => b"leads",
    }
}

/// How far an arrow bends over so many units.
fn bend(over: u32) -> u32
    ensures value { result ≡ bend_of over }
    ensures few { result ≤ ARROWS }
{
    7 * ARROWS.min(LEAST_BEND.max(over)) / 10
}

/// The way from a point up to another one.
fn leading_way(x0: u32, y0: u32, x1: u32, y1: u32, b: u32) -> Row
    requires y { y1 + b < 2 ^ 32 }
    ensures value { result ≡ way_from x0 y0 x1 y1 b }
    ensures few { length result ≤ 100 }
{
    let mut way = Row::new();
    add_point(&mut way, b"M", x0, y0);
    add_point(&mut way, b"C", x0, y0.saturating_sub(b));
    add_point(&mut way, b" ", x1, y1 + b);
    add_point(&mut way, b" ", x1, y1);
    way
}

/// Writes the arrow from anchor i of so many, which begin at a height, to a block of a band that ends at a foot.
fn print_arrow<P: Pen>(
    class: &[u8],
    top: u32,
    foot: u32,
    count: u32,
    i: u32,
    spot: Spot,
    pen: &mut P,
)
    requires class { length class.now ≤ LONGEST_CLASS }
    requires top { top < 2 ^ 26 }
    requires foot { foot < 2 ^ 26 }
    requires i { i ≤ anchor_count }
    requires spot { (spot.x ≤ MOST_WIDTH) × (spot.row ≤ MOST_PIECES) }
    ensures { (j : Item) → P.offered pen.new ≡ P.offered pen.old
        ++ arrow_to class.now top foot count i (Some (part_spot j spot)) }
{
    let y0 = anchor_y(top, count, i);
    let y1 = spot_y(foot, spot.row) + PART + ARROW_GAP;
    let way = leading_way(
        anchor_x(i) + ANCHOR_WIDTH / 2,
        y0,
        spot.x + FLEX_HEAD,
        y1,
        bend(y0.saturating_sub(foot)),
    );
    print_path(class, &way, pen);
}

/// Writes the arrows from anchors, which begin at a height, to the parts of some pieces. Of many anchors those alone
/// have one that hold another address than before.
pub fn print_arrows<C: Contents, P: Pen>(
    contents: &C,
    pieces: &[Piece],
    band: &Band,
    top: u32,
    anchors: &[ShownAnchor],
    pen: &mut P,
)
    requires room { band.now.room ≤ MOST_WIDTH }
    requires scale { band.now.scale ≤ MOST_SCALE }
    requires top { top < 2 ^ 26 }
    requires foot { band.now.foot < 2 ^ 26 }
    requires pieces { AreTellable (C.has_piece contents.now) pieces.now }
    requires few { length pieces.now ≤ MOST_PIECES }
    requires anchors { length anchors.now ≤ anchor_count }
    ensures { P.offered pen.new ≡ P.offered pen.old ++ arrows_text top band.now.foot (length anchors.now) anchors.now
        (spots band.now.room band.now.scale (seen_items (C.item contents.now) pieces.now)) }
{
    let count = anchors.len() as u32;
    for i in 0..anchors.len() {
        print_anchor_arrow(
            contents,
            pieces,
            band,
            top,
            count,
            i as u32,
            &anchors[i],
            pen,
        );
    }
}

/// Writes the arrow of anchor i of so many, if it has one.
fn print_anchor_arrow<C: Contents, P: Pen>(
    contents: &C,
    pieces: &[Piece],
    band: &Band,
    top: u32,
    count: u32,
    i: u32,
    anchor: &ShownAnchor,
    pen: &mut P,
)
    requires room { band.now.room ≤ MOST_WIDTH }
    requires scale { band.now.scale ≤ MOST_SCALE }
    requires top { top < 2 ^ 26 }
    requires foot { band.now.foot < 2 ^ 26 }
    requires pieces { AreTellable (C.has_piece contents.now) pieces.now }
    requires few { length pieces.now ≤ MOST_PIECES }
    requires i { i ≤ anchor_count }
    ensures { P.offered pen.new ≡ P.offered pen.old ++ anchor_arrow top band.now.foot count
        (spots band.now.room band.now.scale (seen_items (C.item contents.now) pieces.now)) (i, anchor.now) }
{
    if !has_arrow(count, anchor) {
        return;
    }
    if let Some(spot) = spot_of_block(contents, pieces, band.room, band.scale, anchor.number) {
        print_arrow(arrow_class(anchor), top, band.foot, count, i, spot, pen);
    }
}
