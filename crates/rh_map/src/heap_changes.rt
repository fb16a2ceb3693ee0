//! What a command has changed of a heap.

ghost use Rattle.std.specs.Prelude.{◌≡◌, ◌≤◌, ◌<◌, ◌+◌, ◌^◌, ◌==◌, [], ◌∷◌, ◌++◌, if◌then◌else◌, IfSome, codes, length};
ghost use Rattle.std.specs.List.{concat};
ghost use Rattle.std.specs.Fmt.{decimal};
ghost use Rattle.rh_defs.specs.Text.{address as address_of};
ghost use Rattle.rh_figure.specs.HeapChanges.{buffer_line, claimed_line, grown_line, heap_block, hole_line};
ghost use Rattle.rh_figure.specs.HeapChanges.{moved_block_line, segment_place_text};
ghost use Rattle.rh_figure.specs.HeapChanges.{released_line, room_text, stayed_line, top_line};
ghost use Rattle.rh_figure.specs.HeapSegments.{item_end};
ghost use Rattle.rh_lines.specs.declared.row.TheConstants.{ROW};

use crate::phrases::add_size;
use rh_defs::sizes::WORD;
use rh_defs::{Handle, Name, Ref, SegmentItem};
use rh_lines::Row;

/// That the C heap of a task had so many bytes, and has more now.
pub fn heap_grown(name: &Name, had: u32, has: u32) -> Row
    ensures value { result ≡ grown_line name.now had has }
    ensures few { length result ≤ 200 }
{
    let mut row = Row::new();
    row.text(b"The C heap of ");
    row.text(name.as_bytes());
    row.text(b" grows from ");
    row.decimal(had);
    row.text(b" to ");
    add_size(&mut row, has);
    row
}

/// That a task claimed a buffer for the transfer with the id, by the segment behind it.
pub fn buffer_claimed(address: u32, id: Ref, size: u32, behind: Option<SegmentItem>) -> Row
    requires small { size < 2 ^ 25 }
    requires near { IfSome behind (λ i. item_end i < 2 ^ 25) }
    ensures value { result ≡ buffer_line address id size behind }
    ensures few { length result ≤ 200 }
{
    let mut row = Row::new();
    row.text(b"Buffer ");
    row.address(address);
    row.text(b" of transfer ");
    row.decimal(id.0);
    row.text(b" is new: ");
    add_size(&mut row, size);
    add_room(&mut row, size, behind);
    row
}

/// That a block of a heap was claimed, by the segment behind it.
pub fn heap_block_claimed(handle: Handle, address: u32, size: u32, next: Option<SegmentItem>) -> Row
    requires small { size < 2 ^ 25 }
    requires near { IfSome next (λ i. item_end i < 2 ^ 25) }
    ensures value { result ≡ claimed_line handle address size next }
    ensures few { length result ≤ 200 }
{
    let mut row = Row::new();
    add_block(&mut row, handle, address);
    row.text(b" is new: ");
    add_size(&mut row, size);
    add_room(&mut row, size, next);
    row
}

/// That a block of so many bytes of a heap was released.
pub fn heap_block_released(handle: Handle, address: u32, size: u32) -> Row
    ensures value { result ≡ released_line handle address size }
    ensures few { length result ≤ 200 }
{
    let mut row = Row::new();
    add_block(&mut row, handle, address);
    row.text(b" of ");
    add_size(&mut row, size);
    row.text(b" is released");
    row
}

/// That a block of so many bytes of a heap has another number of them now, and lies where it lay.
pub fn heap_block_resized(handle: Handle, address: u32, had: u32, has: u32) -> Row
    ensures value { result ≡ stayed_line handle address had has }
    ensures few { length result ≤ 200 }
{
    let mut row = Row::new();
    add_block(&mut row, handle, address);
    row.text(b" had ");
    add_size(&mut row, had);
    row.text(b", now ");
    row.decimal(has);
    row
}

/// That a block of a heap has moved, by the segment behind it.
pub fn heap_block_moved(
    handle: Handle,
    from: u32,
    to: u32,
    size: u32,
    next: Option<SegmentItem>,
) -> Row
    ensures value { result ≡ moved_block_line handle from to size next }
    ensures few { length result ≤ 200 }
{
    let mut row = Row::new();
    add_block(&mut row, handle, from);
    row.text(b" moves to ");
    row.address(to);
    row.text(b": ");
    add_size(&mut row, size);
    add_place(&mut row, next);
    row
}

/// That a hole is left where a block of so many bytes was.
pub fn hole_left(had: u32, size: u32) -> Row
    ensures value { result ≡ hole_line had size }
    ensures few { length result ≤ 200 }
{
    let mut row = Row::new();
    row.text(b"Where it was, a hole of ");
    row.decimal(size);
    row.text(b" is left");
    add_joined(&mut row, had, size);
    row
}

/// That the top has so many bytes, with those of a block.
pub fn top_left(size: u32) -> Row
    ensures value { result ≡ top_line size }
    ensures few { length result ≤ 200 }
{
    let mut row = Row::new();
    row.text(b"Where it was is part of the top now, which has ");
    add_size(&mut row, size);
    row
}

/// Adds whether a hole is longer than a block of so many bytes was with its word.
fn add_joined(row: &mut Row, had: u32, size: u32)
    requires { length row.old + 40 ≤ ROW }
    ensures value { row.new ≡ row.old ++ (if size == had + 4 then [] else codes ": it joins what was free beside it") }
    ensures few { length row.new ≤ length row.old + 40 }
{
    if !is_alone(had, size) {
        row.text(b": it joins what was free beside it");
    }
}

/// Whether a hole is as long as a block of so many bytes was with its word.
fn is_alone(had: u32, size: u32) -> bool
    ensures { result ≡ (size == had + 4) }
{
    u64::from(size) == u64::from(had) + WORD as u64
}

/// Adds a block's address, and whose heap it is of.
fn add_block(row: &mut Row, handle: Handle, address: u32)
    requires { length row.old + 30 ≤ ROW }
    ensures value { row.new ≡ row.old ++ heap_block handle address }
    ensures few { length row.new ≤ length row.old + 30 }
{
    if handle.0 == 0 {
        row.text(b"Module block ");
    } else {
        row.text(b"Heap block ");
    }
    row.address(address);
}

/// Adds the hole that a new block was put into.
fn add_room(row: &mut Row, size: u32, next: Option<SegmentItem>)
    requires room { length row.old + 60 ≤ ROW }
    requires small { size < 2 ^ 25 }
    requires near { IfSome next (λ i. item_end i < 2 ^ 25) }
    ensures value { row.new ≡ row.old ++ room_text size next }
    ensures few { length row.new ≤ length row.old + 60 }
{
    match next {
        None => row.text(b", on top"),
        Some(SegmentItem::Hole { size: left, .. }) => add_rest(row, size, left),
        Some(SegmentItem::Used { .. }) => add_filled(row, size),
    }
}

/// Adds the hole that a new block was put into, of which so many bytes are left.
fn add_rest(row: &mut Row, size: u32, left: u32)
    requires room { length row.old + 60 ≤ ROW }
    requires small { size + left < 2 ^ 31 }
    ensures value { row.new ≡ row.old ++ concat (codes ", in the hole of " ∷ decimal (size + 4 + left) ∷ codes ": "
        ∷ decimal left ∷ codes " are left" ∷ []) }
    ensures few { length row.new ≤ length row.old + 60 }
{
    row.text(b", in the hole of ");
    row.decimal(size + WORD as u32 + left);
    row.text(b": ");
    row.decimal(left);
    row.text(b" are left");
}

/// Adds the hole that a new block fills.
fn add_filled(row: &mut Row, size: u32)
    requires room { length row.old + 60 ≤ ROW }
    requires small { size < 2 ^ 31 }
    ensures value { row.new ≡ row.old
        ++ concat (codes ", in the hole of " ∷ decimal (size + 4) ∷ codes ", which it fills" ∷ []) }
    ensures few { length row.new ≤ length row.old + 60 }
{
    row.text(b", in the hole of ");
    row.decimal(size + WORD as u32);
    row.text(b", which it fills");
}

/// Adds whether a block that moved lies on top.
fn add_place(row: &mut Row, next: Option<SegmentItem>)
    requires { length row.old + 8 ≤ ROW }
    ensures value { row.new ≡ row.old ++ segment_place_text next }
    ensures few { length row.new ≤ length row.old + 8 }
{
    if next.is_none() {
        row.text(b", on top");
    }
}
