//! Rows about a slot in a store of its own.

ghost use Rattle.std.specs.Prelude.{◌<◌};
ghost use Rattle.rh_defs.specs.Memory.{open_below};
ghost use Rattle.rh_slot.specs.SlotArea.{IsSlotIn};
ghost use Rattle.rh_defs.specs.declared.sizes.TheConstants.{ANCHORS, MAX_AREAS};

use crate::answer::{placed, shown, tell};
use crate::heaps::with_another;
use crate::row::Row;
use arrayvec::ArrayVec;
use rh_defs::sizes::{ANCHORS, SEGMENTS_AT_ONCE};
use rh_defs::{Anchor, BlockItem};
use rh_heap::Segment;
use rh_slot::{Slot, free_anchor, put_from, write_at, write_from};
use rh_store::{Paged, Store, Words};
use std::alloc::Global;
use std::io;

/// Makes the calls of the rows over a store that has no slot yet.
pub(crate) fn rows<R: Print + AllocGlobal, S: Store + Drop>(
    rt: &R,
    store: S,
    rows: &str,
) -> io::Result<()>
    requires { open_below (S.memory store).area MAX_AREAS < MAX_AREAS }
{
    let mut store = store;
    let Ok(mut slot) = Slot::start(&mut store) else {
        return tell(rt, "start", None);
    };
    for line in rows.lines() {
        let answer = call(rt.alloc(), &mut store, &mut slot, &Row::new(line));
        tell(rt, line, answer)?;
    }
    slot.end(&mut store);
    let free = store.free_pages();
    println!(rt; "free pages at the end: {free}")
}

/// What the call of a row answers.
fn call<S: Store>(alloc: Global, store: &mut S, slot: &mut Slot, row: &Row<'_>) -> Option<String>
    requires { IsSlotIn (S.memory store.old) slot.old }
    ensures { IsSlotIn (S.memory store.new) slot.new }
{
    match row.word(0)? {
        "budge" => shown(alloc, slot.set_budge(row.word(1)? == "on")),
        "claim" | "release" | "resize" => change_heap(alloc, store, *slot, row),
        "alloc" | "free" | "extend" | "mid" | "put" => change_flex(alloc, store, *slot, row),
        "put_words" | "write_word" => change_from(alloc, store, *slot, row),
        "write" => write(alloc, store, *slot, row),
        word => ask(alloc, store, *slot, word, row),
    }
}

/// Calls on blocks of the C heap.
fn change_heap<S: Store>(alloc: Global, store: &mut S, slot: Slot, row: &Row<'_>) -> Option<String>
    requires { IsSlotIn (S.memory store.old) slot }
    ensures { IsSlotIn (S.memory store.new) slot }
{
    match row.word(0)? {
        "claim" => placed(alloc, slot.claim(store, row.number(1)?)),
        "release" => shown(alloc, slot.release(store, row.size(1)?)),
        "resize" => {
            let (address, delta) = (row.size(1)?, row.delta(2)?);
            placed(alloc, slot.resize(store, address, delta))
        }
        _ => None,
    }
}

/// Calls on flex blocks.
fn change_flex<S: Store>(alloc: Global, store: &mut S, slot: Slot, row: &Row<'_>) -> Option<String>
    requires { IsSlotIn (S.memory store.old) slot }
    ensures { IsSlotIn (S.memory store.new) slot }
{
    let anchor = row.anchor(1)?;
    match row.word(0)? {
        "alloc" => placed(alloc, slot.alloc(store, anchor, row.number(2)?)),
        "free" => shown(alloc, slot.free(store, anchor)),
        "extend" => shown(alloc, slot.extend(store, anchor, row.number(2)?)),
        "mid" => {
            let (offset, by) = (row.size(2)?, row.delta(3)?);
            shown(alloc, slot.mid(store, anchor, offset, by))
        }
        "put" => {
            let (offset, from) = (row.size(2)?, row.bytes(3)?);
            shown(alloc, slot.put(store, anchor, offset, from))
        }
        _ => None,
    }
}

/// Copies of the first anchor words: two into a block, the second to an address that a block holds.
fn change_from<S: Store>(alloc: Global, store: &mut S, slot: Slot, row: &Row<'_>) -> Option<String>
    requires { IsSlotIn (S.memory store.old) slot }
    ensures { IsSlotIn (S.memory store.new) slot }
{
    let area = slot.area;
    if store.len(area) < 8 {
        return None;
    }
    if row.word(0)? == "put_words" {
        let (anchor, offset) = (row.anchor(1)?, row.size(2)?);
        return shown(alloc, put_from(store, slot, anchor, offset, area, 0, 8));
    }
    let address = row.size(1)?;
    if address < 0x8008 || !slot.inside(store, address, 4) {
        return None;
    }
    write_from(store, slot, address, 4, area, 4, 4);
    shown(alloc, true)
}

/// Writes bytes at an address, where a block has them all.
fn write<S: Store>(alloc: Global, store: &mut S, slot: Slot, row: &Row<'_>) -> Option<String>
    requires { IsSlotIn (S.memory store.old) slot }
    ensures { IsSlotIn (S.memory store.new) slot }
{
    let (address, from) = (row.size(1)?, row.bytes(2)?);
    if !slot.inside(store, address, from.len()) {
        return None;
    }
    write_at(store, slot, address, from);
    shown(alloc, true)
}

/// What a question about the C heap answers.
fn ask<S: Store>(alloc: Global, store: &S, slot: Slot, word: &str, row: &Row<'_>) -> Option<String>
    requires { IsSlotIn (S.memory store.now) slot }
{
    match word {
        "take_pages" => shown(alloc, slot.take_pages(store, row.number(1)?)),
        "can_alloc" => shown(alloc, slot.can_alloc(store, row.anchor(1)?, row.number(2)?)),
        "block_size" => shown(alloc, slot.block_size(store, row.size(1)?)),
        "segment" => shown(alloc, slot.segment(store, row.size(1)?)),
        "segments" => shown(alloc, segments(store, slot, row.size(1)?)),
        "describe" => shown(alloc, slot.describe(store)),
        "inside" => shown(alloc, slot.inside(store, row.size(1)?, row.size(2)?)),
        "free_pages" => shown(alloc, store.free_pages()),
        _ => ask_flex(alloc, store, slot, word, row),
    }
}

/// What the slot puts into a list that held another segment before.
fn segments<S: Words>(store: &S, slot: Slot, place: usize) -> ArrayVec<Segment, SEGMENTS_AT_ONCE>
    requires { IsSlotIn (S.memory store.now) slot }
{
    let mut segments = with_another();
    slot.segments_from(store, place, &mut segments);
    segments
}

/// What a question about flex blocks answers.
fn ask_flex<S: Paged>(
    alloc: Global,
    store: &S,
    slot: Slot,
    word: &str,
    row: &Row<'_>,
) -> Option<String>
    requires { IsSlotIn (S.memory store.now) slot }
{
    match word {
        "size" => shown(alloc, slot.size(store, row.anchor(1)?)),
        "address" => placed(alloc, slot.address(store, row.anchor(1)?)),
        "free_anchor" => shown(alloc, free_anchor(store, slot)),
        "count" => shown(alloc, slot.count(store)),
        "block" => shown(alloc, slot.block(store, row.size(1)?)),
        "list" => shown(alloc, listed(store, slot)),
        "walk" => shown(alloc, walked(store, slot)),
        "read" => read(alloc, store, slot, row),
        "word" => word_at(alloc, store, slot, row.size(1)?),
        "bytes" => bytes_at(alloc, store, slot, row.size(1)?),
        _ => None,
    }
}

/// A list that held another block before, as the slot leaves it.
fn listed<S: Paged>(store: &S, slot: Slot) -> ArrayVec<BlockItem, ANCHORS>
    requires { IsSlotIn (S.memory store.now) slot }
{
    let mut items = ArrayVec::new();
    items.push(BlockItem {
        anchor: Anchor(9),
        address: 0x9040,
        size: 1,
    });
    slot.list(store, &mut items);
    items
}

/// The first four answers of one walk over the flex blocks.
fn walked<S: Paged>(store: &S, slot: Slot) -> [Option<BlockItem>; 4]
    requires { IsSlotIn (S.memory store.now) slot }
{
    let mut walk = slot.blocks(store);
    let first = slot.next_block(store, &mut walk);
    let second = slot.next_block(store, &mut walk);
    let third = slot.next_block(store, &mut walk);
    let fourth = slot.next_block(store, &mut walk);
    [first, second, third, fourth]
}

/// So many bytes of a block from an offset on, read into bytes that are 1, and those after the call.
fn read<S: Paged>(alloc: Global, store: &S, slot: Slot, row: &Row<'_>) -> Option<String>
    requires { IsSlotIn (S.memory store.now) slot }
{
    let (anchor, offset, n) = (row.anchor(1)?, row.size(2)?, row.size(3)?);
    if n > 16 {
        return None;
    }
    let mut bytes = vec![in alloc; 1; n].ok()?;
    let done = slot.read(store, anchor, offset, &mut bytes);
    format!(in alloc; "{done:?} {bytes:?}").ok()
}

/// The word at a place of the slot's area, if the area has it.
fn word_at<S: Paged>(alloc: Global, store: &S, slot: Slot, place: usize) -> Option<String>
    requires { IsSlotIn (S.memory store.now) slot }
{
    let len = store.len(slot.area);
    if len < 4 || len - 4 < place {
        return None;
    }
    let word = store.word(slot.area, place);
    format!(in alloc; "&{word:x}").ok()
}

/// The 16 bytes from a place of the slot's area on, if the area has them.
fn bytes_at<S: Paged>(alloc: Global, store: &S, slot: Slot, place: usize) -> Option<String>
    requires { IsSlotIn (S.memory store.now) slot }
{
    let len = store.len(slot.area);
    if len < 16 || len - 16 < place {
        return None;
    }
    let mut bytes = [0; 16];
    store.copy_out(slot.area, place, &mut bytes);
    shown(alloc, bytes)
}
