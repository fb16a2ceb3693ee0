//! The words of a part.

ghost use Rattle.std.specs.Prelude.{◌≡◌, ◌≤◌, ◌<◌, ◌^◌, ◌||◌, [], ◌∷◌, ◌++◌, codes, if◌then◌else◌, length, nat_lt};
ghost use Rattle.std.specs.Fmt.{decimal};
ghost use Rattle.std.specs.List.{concat};
ghost use Rattle.rh_defs.specs.Text.{address as address_of};
ghost use Rattle.rh_elements.specs.DrawPieces.{IsDrawable};
ghost use Rattle.rh_figure.specs.Phrases.{size_text};
ghost use Rattle.rh_figure.specs.declared.piece.Kind.TheVariants.{Claimed, FlexBlock};
ghost use Rattle.rh_figure.specs.declared.piece.Piece.{Piece};
ghost use Rattle.rh_lens.specs.ByteWords.{byte_choices};
ghost use Rattle.rh_lens.specs.Items.{Item};
ghost use Rattle.rh_lens.specs.LensWords.{fitting_words, size_choices};
ghost use Rattle.rh_lens.specs.PartWords.{as_they_are, before_mark as before_mark_of, block_choices, choices_of};
ghost use Rattle.rh_lens.specs.PartWords.{fitted_words, flex_choices, lines_of_block};
ghost use Rattle.rh_lens.specs.PartWords.{item_words as words_of_item, sized_choices};
ghost use Rattle.rh_lens.specs.ToldInside.{IsTold, lines_of};
ghost use Rattle.rh_lens.specs.Widths.{has_cells as has_cells_of};
ghost use Rattle.rh_lens.specs.declared.sizes.TheConstants.{BYTES_LEAST, MOST_WIDTH};
ghost use Rattle.rh_map.specs.MapCards.{use_text};

use crate::byte_words::byte_words;
use crate::contents::{Inside, Words};
use crate::room::{fixed, if_room, longer_or, size_words};
use crate::sizes::{BREAK_EDGE, BYTES_LEAST};
use crate::widths::{has_cells, header_width, is_used};
use rh_defs::sizes::{FLEX_HEADER, WORD};
use rh_figure::{Kind, Piece};
use rh_lines::Row;
use rh_map::{CardBlock, Usage, block_size as card_size};

/// What the mark of a broken part leaves of so many units.
fn before_mark(broken: bool, width: u32) -> u32
    ensures { result ≡ before_mark_of broken width }
{
    if broken {
        width.saturating_sub(BREAK_EDGE)
    } else {
        width
    }
}

/// The words of a part of so many units, broken or not, of an area that begins at an address.
pub fn item_words(start: u32, broken: bool, width: u32, piece: &Piece, inside: &Inside) -> Words
    requires start { start < 2 ^ 30 }
    requires width { width ≤ MOST_WIDTH }
    requires piece { IsDrawable piece.now }
    ensures { (i : Item) → IsTold inside.now piece.now i → lines_of result ≡ words_of_item start broken width i }
{
    let room = before_mark(broken, width).saturating_sub(header_width(piece.kind));
    words_at(start + piece.at as u32, width, room, piece, inside)
}

/// The words of a part of so many units, at an address, of which some are left for words.
fn words_at(at: u32, width: u32, room: u32, piece: &Piece, inside: &Inside) -> Words
    requires at { at < 2 ^ 31 }
    requires room { room ≤ MOST_WIDTH }
    requires piece { IsDrawable piece.now }
    ensures { (i : Item) → IsTold inside.now piece.now i → lines_of result
        ≡ fitted_words room (choices_of i piece.now.kind at width room) }
{
    let size = piece.size as u32;
    match piece.kind {
        Kind::AnchorWords => fixed_words(room, b"anchors", b"", b""),
        Kind::Descriptor => fixed_words(room, b"Heap", b"16 B", b""),
        Kind::Claimed { size: bytes } => block_words(at + WORD as u32, width, room, bytes, inside),
        Kind::Posted { .. } => fixed_words(
            room,
            inside.message.first.as_slice(),
            inside.message.second.as_slice(),
            inside.message.third.as_slice(),
        ),
        Kind::FreeHole => sized_words(room, b"hole", size),
        Kind::MoreSegments { count } => more_words(room, count, size),
        Kind::FreeTop => sized_words(room, b"free on top", size),
        Kind::FlexBlock {
            anchor,
            size: bytes,
        } => flex_words(at + FLEX_HEADER as u32, width, room, anchor, bytes, inside),
        Kind::Unused => sized_words(room, b"unused", size),
    }
}

/// The words of a heap's block at an address.
fn block_words(at: u32, width: u32, room: u32, size: u32, inside: &Inside) -> Words
    requires { room ≤ MOST_WIDTH }
    ensures { (i : Item) (p : Piece) → IsTold inside.now p i → lines_of result ≡ fitted_words room (
        lines_of_block (block_choices i.used_by at) (has_cells_of width i (Claimed size)) width room size i.bytes) }
{
    let kind = Kind::Claimed { size };
    Words {
        first: block_name(room, inside.usage, at),
        second: block_size(width, room, size, kind, inside),
        third: block_bytes(width, room, size, kind, inside),
    }
}

/// The words of the flex block of an anchor at an address.
fn flex_words(at: u32, width: u32, room: u32, anchor: u32, size: u32, inside: &Inside) -> Words
    requires { room ≤ MOST_WIDTH }
    ensures { (i : Item) (p : Piece) → IsTold inside.now p i → lines_of result ≡ fitted_words room (
        lines_of_block (flex_choices i.used_by anchor size at) (has_cells_of width i (FlexBlock anchor size)) width room
        size i.bytes) }
{
    let kind = Kind::FlexBlock { anchor, size };
    Words {
        first: flex_name(room, inside.usage, anchor, size, at),
        second: block_size(width, room, size, kind, inside),
        third: block_bytes(width, room, size, kind, inside),
    }
}

/// Lines with no shorter form, where they have room.
pub fn fixed_words(room: u32, first: &[u8], second: &[u8], third: &[u8]) -> Words
    requires { room ≤ MOST_WIDTH }
    ensures { lines_of result ≡ fitted_words room (as_they_are first.now second.now third.now) }
{
    Words {
        first: fixed(room, first),
        second: fixed(room, second),
        third: fixed(room, third),
    }
}

/// What a thing is, and how many bytes it has.
fn sized_words(room: u32, what: &[u8], size: u32) -> Words
    requires { room ≤ MOST_WIDTH }
    ensures { lines_of result ≡ fitted_words room (sized_choices what.now size) }
{
    Words {
        first: fixed(room, what),
        second: size_words(room, size),
        third: Row::new(),
    }
}

/// How many segments aren't drawn one by one, and how many bytes they have.
fn more_words(room: u32, count: u32, size: u32) -> Words
    requires { room ≤ MOST_WIDTH }
    ensures { lines_of result ≡ fitted_words room (sized_choices (decimal count ++ codes " more") size) }
{
    let mut what = Row::new();
    what.decimal(count);
    what.text(b" more");
    sized_words(room, what.as_slice(), size)
}

/// The name of a heap's block: one that a transfer uses is its buffer.
fn block_name(room: u32, usage: Usage, address: u32) -> Row
    ensures { result ≡ fitting_words room (block_choices (use_text usage) address) }
{
    let mut short = Row::new();
    short.address(address);
    let short = if_room(room, short);
    if !is_used(usage) {
        return short;
    }
    let mut long = Row::new();
    long.text(b"buffer ");
    long.address(address);
    longer_or(room, long, short)
}

/// The name of a flex block.
fn flex_name(room: u32, usage: Usage, anchor: u32, size: u32, address: u32) -> Row
    ensures { result ≡ fitting_words room (flex_choices (use_text usage) anchor size address) }
{
    let used = block_line(anchor, size, address, usage);
    let sized = block_line(anchor, size, address, Usage::Unused);
    let mut counted = anchor_place(anchor, address);
    counted.byte(b' ');
    counted.decimal(size);
    counted.text(b" B");
    let placed = anchor_place(anchor, address);
    let mut number = Row::new();
    number.decimal(anchor);
    let short = longer_or(room, placed, if_room(room, number));
    longer_or(
        room,
        used,
        longer_or(room, sized, longer_or(room, counted, short)),
    )
}

/// An anchor, and the address of its block.
fn anchor_place(anchor: u32, address: u32) -> Row
    ensures value { result ≡ concat (decimal anchor ∷ codes " " ∷ address_of address ∷ []) }
    ensures few { length result ≤ 23 }
{
    let mut row = Row::new();
    row.decimal(anchor);
    row.byte(b' ');
    row.address(address);
    row
}

/// An anchor, its block's address and size, and the transfer that uses it.
fn block_line(anchor: u32, size: u32, address: u32, usage: Usage) -> Row
    ensures { result ≡ concat (decimal anchor ∷ codes " " ∷ address_of address ∷ codes " " ∷ size_text size
        ∷ use_text usage ∷ []) }
{
    let block = CardBlock {
        address,
        size,
        front: b"",
        usage,
        fresh: false,
    };
    let mut row = anchor_place(anchor, address);
    row.byte(b' ');
    row.text(card_size(&block).as_slice());
    row
}

/// The size of a block in a part of so many units, where no cells have its bytes.
fn block_size(width: u32, room: u32, size: u32, kind: Kind, inside: &Inside) -> Row
    ensures { (i : Item) (p : Piece) → IsTold inside.now p i → result
        ≡ fitting_words room (if has_cells_of width i kind then [] else size_choices size) }
{
    if has_cells(width, kind, inside) {
        return Row::new();
    }
    size_words(room, size)
}

/// The bytes of a block in a part of so many units, where no cells have them.
fn block_bytes(width: u32, room: u32, size: u32, kind: Kind, inside: &Inside) -> Row
    requires { room ≤ MOST_WIDTH }
    ensures { (i : Item) (p : Piece) → IsTold inside.now p i → result ≡ fitting_words room
        (if has_cells_of width i kind || nat_lt width BYTES_LEAST then [] else byte_choices room size i.bytes) }
{
    if has_cells(width, kind, inside) || width < BYTES_LEAST {
        return Row::new();
    }
    byte_words(room, size, &inside.bytes)
}
