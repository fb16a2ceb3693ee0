//! How wide parts are.

ghost use Rattle.std.specs.Prelude.{◌≡◌, ◌≤◌, ◌+◌, ◌*◌, ◌^◌, ◌==◌, ℕ, if◌then◌else◌, length, max, not};
ghost use Rattle.std.specs.Bool.{OnTrue};
ghost use Rattle.rh_elements.specs.DrawPieces.{IsDrawable};
ghost use Rattle.rh_figure.specs.declared.piece.Kind.TheVariants.{Claimed, FlexBlock};
ghost use Rattle.rh_figure.specs.declared.piece.Piece.{Piece};
ghost use Rattle.rh_lens.specs.Items.{Item};
ghost use Rattle.rh_lens.specs.ToldInside.{IsTold, lines_of};
ghost use Rattle.rh_lens.specs.Widths.{between as between_widths, cells_width, has_cells as has_cells_of};
ghost use Rattle.rh_lens.specs.Widths.{are_several as are_several_segments, can_be_cut as can_kind_be_cut};
ghost use Rattle.rh_lens.specs.Widths.{is_cut as is_cut_part, is_free as is_free_kind, wants_cells as wants_cells_of};
ghost use Rattle.rh_lens.specs.Widths.{header_width as header_of_kind, is_broken as is_broken_part};
ghost use Rattle.rh_lens.specs.Widths.{is_small as is_small_size};
ghost use Rattle.rh_lens.specs.Widths.{least_of as least_of_part, longest as longest_of, most_of as most_for};
ghost use Rattle.rh_lens.specs.Widths.{part_width as width_of_part, scaled as scaled_by, told_size as told_size_of};
ghost use Rattle.rh_lens.specs.Widths.{wished as wished_width};
ghost use Rattle.rh_lens.specs.declared.sizes.TheConstants.{BUFFER_HEAD, EDGE, FLEX_HEAD, FLEX_LEAST, LETTER};
ghost use Rattle.rh_lens.specs.declared.sizes.TheConstants.{MESSAGE_LEAST, MOST_CELLS, MOST_LETTERS, MOST_SCALE};
ghost use Rattle.rh_map.specs.MapCards.{use_text};

use crate::byte_words::are_zeros;
use crate::contents::{Inside, Words};
use crate::sizes::{
    BLOCK_LEAST, BROKEN, BUFFER_HEAD, BUFFER_LEAST, BYTE, CELLS_EDGE, DESCRIPTOR_WIDTH, EDGE,
    FLEX_HEAD, FLEX_LEAST, FREE_LEAST, FREE_MOST, LETTER, MESSAGE_LEAST, MOST_CELLS, MOST_LETTERS,
    MOST_WHOLE, SCALE_BYTES,
};
use rh_figure::{Kind, Piece};
use rh_map::Usage;

/// How wide a part is in a row of so many units, at a scale of so many units for 8 bytes.
pub fn part_width(room: u32, scale: u32, piece: &Piece, inside: &Inside) -> u32
    requires piece { IsDrawable piece.now }
    requires scale { scale ≤ MOST_SCALE }
    ensures value { (i : Item) → IsTold inside.now piece.now i → result ≡ width_of_part room scale i }
    ensures few { result ≤ room }
{
    room.min(wished(room, scale, piece, inside))
}

/// How wide a part would be in a row that has room for it.
fn wished(room: u32, scale: u32, piece: &Piece, inside: &Inside) -> u32
    requires piece { IsDrawable piece.now }
    requires scale { scale ≤ MOST_SCALE }
    ensures { (i : Item) → IsTold inside.now piece.now i → result
        ≡ wished_width room scale i piece.now.kind piece.now.size }
{
    let wide = scaled(scale, piece.size);
    match piece.kind {
        Kind::AnchorWords | Kind::MoreSegments { .. } => FREE_LEAST,
        Kind::Descriptor => DESCRIPTOR_WIDTH,
        Kind::FreeTop | Kind::Unused => between(FREE_LEAST, FREE_MOST, wide),
        Kind::FlexBlock { anchor, size } => flex_width(room, anchor, size, wide),
        Kind::Claimed { size } => block_width(room, size, wide, inside),
        Kind::Posted { .. } => between(
            message_least(&inside.message),
            most_of(room, piece.size),
            wide,
        ),
        Kind::FreeHole => between(BLOCK_LEAST, most_of(room, piece.size), wide),
    }
}

/// How wide the flex block of an anchor, of so many bytes, would be.
fn flex_width(room: u32, anchor: u32, size: u32, wide: u64) -> u32
    ensures { (i : Item) → result ≡ (if has_cells_of room i (FlexBlock anchor size)
        then max FLEX_LEAST (cells_width (FlexBlock anchor size))
        else between_widths FLEX_LEAST (most_for room size) wide) }
{
    if has_flex_cells(room, size) {
        FLEX_LEAST.max(FLEX_HEAD + BYTE * size + CELLS_EDGE)
    } else {
        between(FLEX_LEAST, most_of(room, size as usize), wide)
    }
}

/// How wide a heap block of so many bytes would be.
fn block_width(room: u32, size: u32, wide: u64, inside: &Inside) -> u32
    ensures { (i : Item) (p : Piece) → IsTold inside.now p i → result ≡ (
        if has_cells_of room i (Claimed size) then max (least_of_part i (Claimed size)) (cells_width (Claimed size))
        else between_widths (least_of_part i (Claimed size)) (most_for room size) wide) }
{
    if has_buffer_cells(room, size, inside) {
        return BUFFER_LEAST.max(BUFFER_HEAD + BYTE * size + CELLS_EDGE);
    }
    let least = if is_used(inside.usage) {
        BUFFER_LEAST
    } else {
        BLOCK_LEAST
    };
    between(least, most_of(room, size as usize), wide)
}

/// Whether a transfer uses a block.
pub fn is_used(usage: Usage) -> bool
    ensures { result ≡ not (length (use_text usage) == 0) }
{
    !matches!(usage, Usage::Unused)
}

/// Whether the bytes of a flex block of so many have cells in so many units.
fn has_flex_cells(width: u32, size: u32) -> bool
    ensures value { (i : Item) (k : ℕ) → result ≡ has_cells_of width i (FlexBlock k size) }
    ensures few { OnTrue result (size ≤ MOST_CELLS) }
{
    is_small(size) && FLEX_HEAD + BYTE * size + CELLS_EDGE <= width
}

/// Whether the bytes of a heap block of so many are told one by one.
fn wants_cells(size: u32, inside: &Inside) -> bool
    ensures value { (i : Item) (p : Piece) → IsTold inside.now p i → result ≡ wants_cells_of i (Claimed size) }
    ensures few { OnTrue result (size ≤ MOST_CELLS) }
{
    is_used(inside.usage) && is_small(size) && !are_zeros(&inside.bytes)
}

/// Whether the bytes of a heap block of so many have cells in so many units.
fn has_buffer_cells(width: u32, size: u32, inside: &Inside) -> bool
    ensures value { (i : Item) (p : Piece) → IsTold inside.now p i → result ≡ has_cells_of width i (Claimed size) }
    ensures few { OnTrue result (size ≤ MOST_CELLS) }
{
    wants_cells(size, inside) && BUFFER_HEAD + BYTE * size + CELLS_EDGE <= width
}

/// Whether the bytes of a part of so many units have cells.
pub fn has_cells(width: u32, kind: Kind, inside: &Inside) -> bool
    ensures { (i : Item) (p : Piece) → IsTold inside.now p i → result ≡ has_cells_of width i kind }
{
    match kind {
        Kind::FlexBlock { size, .. } => has_flex_cells(width, size),
        Kind::Claimed { size } => has_buffer_cells(width, size, inside),
        _ => false,
    }
}

/// The units before a part's bytes.
pub fn header_width(kind: Kind) -> u32
    ensures value { result ≡ header_of_kind kind }
    ensures few { result ≤ FLEX_HEAD }
{
    match kind {
        Kind::FlexBlock { .. } => FLEX_HEAD,
        Kind::Claimed { .. } | Kind::Posted { .. } => BUFFER_HEAD,
        _ => 0,
    }
}

/// Whether a part is drawn broken: it would be wider than it may.
pub fn is_broken(room: u32, scale: u32, piece: &Piece, inside: &Inside) -> bool
    requires piece { IsDrawable piece.now }
    requires scale { scale ≤ MOST_SCALE }
    ensures { (i : Item) → IsTold inside.now piece.now i → result
        ≡ is_broken_part room scale i piece.now.kind piece.now.size }
{
    let wide = scaled(scale, piece.size);
    let (several, free) = (are_several(piece.kind), is_free(piece.kind));
    let (block, cut) = (can_be_cut(piece.kind), is_cut(room, wide, piece, inside));
    several || (free && u64::from(FREE_MOST) < wide) || (block && cut)
}

/// Whether a piece is free.
pub fn is_free(kind: Kind) -> bool
    ensures { result ≡ is_free_kind kind }
{
    matches!(kind, Kind::FreeTop | Kind::Unused)
}

/// Whether a piece is segments that aren't drawn one by one.
fn are_several(kind: Kind) -> bool
    ensures { result ≡ are_several_segments kind }
{
    matches!(kind, Kind::MoreSegments { .. })
}

/// Whether a piece may have at most so much of its row.
fn can_be_cut(kind: Kind) -> bool
    ensures { result ≡ can_kind_be_cut kind }
{
    match kind {
        Kind::Claimed { .. } | Kind::Posted { .. } | Kind::FreeHole | Kind::FlexBlock { .. } => {
            true
        }
        _ => false,
    }
}

/// Whether a part of bytes that want so many units has less room, and no cells.
fn is_cut(room: u32, wide: u64, piece: &Piece, inside: &Inside) -> bool
    ensures { (i : Item) → IsTold inside.now piece.now i → result
        ≡ is_cut_part room wide i piece.now.kind piece.now.size }
{
    let has_cells = has_cells(room, piece.kind, inside);
    let most = most_of(room, told_size(piece.kind, piece.size));
    !has_cells && u64::from(most) < wide
}

/// The number of bytes by which the most of a part is told.
fn told_size(kind: Kind, whole: usize) -> usize
    ensures { result ≡ told_size_of kind whole }
{
    match kind {
        Kind::FlexBlock { size, .. } | Kind::Claimed { size } => size as usize,
        _ => whole,
    }
}

/// A number of bytes at a scale.
fn scaled(scale: u32, size: usize) -> u64
    requires size { size ≤ 2 ^ 30 }
    requires scale { scale ≤ MOST_SCALE }
    ensures { result ≡ scaled_by scale size }
{
    size as u64 * u64::from(scale) / SCALE_BYTES as u64
}

/// So many units between a least and a most: what is too wide is broken.
fn between(least: u32, most: u32, wide: u64) -> u32
    ensures { result ≡ between_widths least most wide }
{
    if u64::from(most) < wide {
        BROKEN.min(most)
    } else {
        least.max(wide as u32)
    }
}

/// The most that a block of so many bytes may have of its row.
fn most_of(room: u32, size: usize) -> u32
    ensures { result ≡ most_for room size }
{
    if size <= MOST_WHOLE { room } else { room / 2 }
}

/// Whether a block of so many bytes has a cell for each.
fn is_small(size: u32) -> bool
    ensures { result ≡ is_small_size size }
{
    0 < size && size as usize <= MOST_CELLS
}

/// The least width of a message with these lines.
fn message_least(lines: &Words) -> u32
    ensures { result ≡ max MESSAGE_LEAST (LETTER * longest_of (lines_of lines.now) + EDGE + BUFFER_HEAD) }
{
    MESSAGE_LEAST.max(LETTER * longest(lines) + EDGE + BUFFER_HEAD)
}

/// How many letters the longest of some lines has, as far as they make a part wider.
fn longest(lines: &Words) -> u32
    ensures value { result ≡ longest_of (lines_of lines.now) }
    ensures few { result ≤ MOST_LETTERS }
{
    let rest = lines
        .second
        .as_slice()
        .len()
        .max(lines.third.as_slice().len());
    lines.first.as_slice().len().max(rest).min(MOST_LETTERS) as u32
}
