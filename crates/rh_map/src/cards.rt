//! Cards of blocks and holes: what may be too small for its scale, written out.

ghost use Rattle.std.specs.Prelude.{◌≡◌, ◌≤◌, ◌<◌, ◌+◌, ℕ, List, [], ◌∷◌, ◌++◌, ◌==◌, codes, length, if◌then◌else◌};
ghost use Rattle.std.specs.List.{concat};
ghost use Rattle.std.specs.Fmt.{decimal};
ghost use Rattle.rh_defs.specs.Text.{address as address_of};
ghost use Rattle.rh_figure.specs.Cards.{flex_card, hole_card, more_card, used_card};
ghost use Rattle.rh_figure.specs.Map.{card_line, shown_line};
ghost use Rattle.rh_figure.specs.Phrases.{size_text};
ghost use Rattle.rh_figure.specs.declared.limits.TheConstants.{CARD_BYTES};
ghost use Rattle.rh_lines.specs.declared.row.TheConstants.{ROW};
ghost use Rattle.rh_map.specs.MapCards.{front_text, use_text, IsFrontOf};
ghost use Rattle.rh_map.specs.Inner.TextLines.{behind_comma, texts_line};

use crate::line::put_line;
use crate::phrases::add_size;
use rh_defs::{Anchor, Ref};
use rh_figure::limits::CARD_BYTES;
use rh_lines::{Pen, Row};

/// The transfer that uses a block, if one does: it sends the block, or receives into it.
#[derive(Clone, Copy)]
pub enum Usage {
    Unused,
    Out(Ref),
    In(Ref),
}

/// A block as its card has it: its address, size, first bytes, the transfer that uses it, and whether the command has
/// changed it.
#[derive(Clone, Copy)]
pub struct CardBlock<'a> {
    pub address: u32,
    pub size: u32,
    pub front: &'a [u8],
    pub usage: Usage,
    pub fresh: bool,
}

/// Writes the card of a flex block.
pub fn print_flex_card<P: Pen>(anchor: Anchor, block: &CardBlock<'_>, pen: &mut P)
    requires { length block.now.front.now ≤ CARD_BYTES }
    ensures { (bytes : List ℕ) → IsFrontOf block.now.size block.now.front.now bytes
        → P.offered pen.new ≡ P.offered pen.old
        ++ (shown_line (card_line (flex_card block.now.address anchor bytes (use_text block.now.usage) block.now.fresh))
        ++ codes "\n") }
{
    print_block(&flex_name(anchor, block.address), block, pen);
}

/// A flex block's anchor and address.
pub fn flex_name(anchor: Anchor, address: u32) -> Row
    ensures value { result ≡ concat (codes "anchor " ∷ decimal anchor ∷ codes " " ∷ address_of address ∷ []) }
    ensures few { length result ≤ 40 }
    ensures some { 0 < length result }
{
    let mut name = Row::new();
    name.text(b"anchor ");
    name.decimal(u32::from(anchor.0));
    name.byte(b' ');
    name.address(address);
    name
}

/// Writes the card of a block of a heap.
pub fn print_used_card<P: Pen>(block: &CardBlock<'_>, pen: &mut P)
    requires { length block.now.front.now ≤ CARD_BYTES }
    ensures { (bytes : List ℕ) → IsFrontOf block.now.size block.now.front.now bytes
        → P.offered pen.new ≡ P.offered pen.old
        ++ (shown_line (card_line (used_card block.now.address bytes (use_text block.now.usage) block.now.fresh))
        ++ codes "\n") }
{
    print_block(&used_name(block.usage, block.address), block, pen);
}

/// What a block of a heap is called, and its address.
pub fn used_name(usage: Usage, address: u32) -> Row
    ensures value { result ≡ (if length (use_text usage) == 0 then codes "used " else codes "buffer ")
        ++ address_of address }
    ensures few { length result ≤ 40 }
    ensures some { 0 < length result }
{
    let mut name = Row::new();
    name.text(block_word(usage));
    name.address(address);
    name
}

/// What a block of a heap is called.
fn block_word(usage: Usage) -> &'static [u8]
    ensures value { result.now ≡ (if length (use_text usage) == 0 then codes "used " else codes "buffer ") }
    ensures few { length result.now ≤ 7 }
    ensures some { 0 < length result.now }
{
    match usage {
        Usage::Unused => b"used ",
        Usage::Out(_) | Usage::In(_) => b"buffer ",
    }
}

/// Writes the card of a hole.
pub fn print_hole_card<P: Pen>(address: u32, size: u32, fresh: bool, pen: &mut P)
    ensures { P.offered pen.new ≡ P.offered pen.old
        ++ (shown_line (card_line (hole_card address size fresh)) ++ codes "\n") }
{
    let mut bytes = Row::new();
    add_size(&mut bytes, size);
    print_card(&hole_name(address), &bytes, &Row::new(), fresh, pen);
}

/// A hole's address.
pub fn hole_name(address: u32) -> Row
    ensures value { result ≡ codes "hole " ++ address_of address }
    ensures few { length result ≤ 40 }
    ensures some { 0 < length result }
{
    let mut name = Row::new();
    name.text(b"hole ");
    name.address(address);
    name
}

/// Writes the card that counts those left out.
pub fn print_more_card<P: Pen>(count: u32, pen: &mut P)
    ensures { P.offered pen.new ≡ P.offered pen.old ++ (shown_line (card_line (more_card count)) ++ codes "\n") }
{
    print_card(&others_name(count), &Row::new(), &Row::new(), false, pen);
}

/// How many are left out.
pub fn others_name(count: u32) -> Row
    ensures value { result ≡ decimal count ++ codes " more" }
    ensures few { length result ≤ 40 }
    ensures some { 0 < length result }
{
    let mut name = Row::new();
    name.decimal(count);
    name.text(b" more");
    name
}

/// Writes the line of a block's card behind its name.
fn print_block<P: Pen>(name: &Row, block: &CardBlock<'_>, pen: &mut P)
    requires some { 0 < length name.now }
    requires short { length name.now ≤ 40 }
    requires front { length block.now.front.now ≤ CARD_BYTES }
    ensures { P.offered pen.new ≡ P.offered pen.old
        ++ (shown_line (texts_line name.now (size_text block.now.size ++ use_text block.now.usage)
        (front_text block.now.size block.now.front.now) block.now.fresh) ++ codes "\n") }
{
    let size = block_size(block);
    let bytes = block_bytes(block);
    print_card(name, &size, &bytes, block.fresh, pen);
}

/// The size of a block, and the transfer that uses it.
pub fn block_size(block: &CardBlock<'_>) -> Row
    ensures value { result ≡ size_text block.now.size ++ use_text block.now.usage }
    ensures few { length result ≤ 40 }
{
    let mut size = Row::new();
    add_size(&mut size, block.size);
    add_usage(&mut size, block.usage);
    size
}

/// The first bytes of a block.
pub fn block_bytes(block: &CardBlock<'_>) -> Row
    requires { length block.now.front.now ≤ CARD_BYTES }
    ensures value { result ≡ front_text block.now.size block.now.front.now }
    ensures few { length result ≤ 20 }
{
    let mut bytes = Row::new();
    add_front(&mut bytes, block.size, block.front);
    bytes
}

/// Adds the transfer that uses a block.
fn add_usage(row: &mut Row, usage: Usage)
    requires { length row.old + 20 ≤ ROW }
    ensures value { row.new ≡ row.old ++ use_text usage }
    ensures few { length row.new ≤ length row.old + 20 }
{
    match usage {
        Usage::Unused => {}
        Usage::Out(id) => {
            row.text(b", out ");
            row.decimal(id.0);
        }
        Usage::In(id) => {
            row.text(b", in ");
            row.decimal(id.0);
        }
    }
}

/// Adds the first bytes of a block of so many.
fn add_front(row: &mut Row, size: u32, front: &[u8])
    requires front { length front.now ≤ CARD_BYTES }
    requires room { length row.old + 20 ≤ ROW }
    ensures value { row.new ≡ row.old ++ front_text size front.now }
    ensures few { length row.new ≤ length row.old + 20 }
{
    row.hex_digits(front);
    if size as usize > CARD_BYTES {
        row.text(b"..");
    }
}

/// Writes the line of a card.
pub(crate) fn print_card<P: Pen>(first: &Row, second: &Row, third: &Row, fresh: bool, pen: &mut P)
    requires short { length first.now + length second.now + length third.now ≤ 200 }
    ensures { P.offered pen.new ≡ P.offered pen.old
        ++ (shown_line (texts_line first.now second.now third.now fresh) ++ codes "\n") }
{
    let mut row = Row::new();
    row.text(if fresh { b"  * " } else { b"    " });
    row.text(first.as_slice());
    add_behind_comma(&mut row, second.as_slice());
    add_behind_comma(&mut row, third.as_slice());
    put_line(row.as_slice(), pen);
}

/// Adds a text behind a comma, if it isn't empty.
fn add_behind_comma(row: &mut Row, text: &[u8])
    requires { length row.old + length text.now + 2 ≤ ROW }
    ensures value { row.new ≡ row.old ++ behind_comma text.now }
    ensures few { length row.new ≤ length row.old + length text.now + 2 }
{
    if !text.is_empty() {
        row.text(b", ");
        row.text(text);
    }
}
