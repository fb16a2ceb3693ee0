//! Rows about a slot in bytes that are lent.

ghost use Rattle.rh_lent_slot.specs.Slots.{IsSlotBytes};

use crate::answer::{placed, shown, tell};
use crate::row::Row;
use arrayvec::ArrayVec;
use rh_defs::sizes::ANCHORS;
use rh_defs::{Anchor, BlockItem, Refusal};
use rh_lent_slot::LentSlot;
use rh_slot::LONGEST_SLOT;
use rh_store::bytes::copy_from;
use std::alloc::Global;
use std::io;

/// The bytes of a page.
const PAGE: usize = 4096;

/// Makes the calls of the rows on a new slot in so many bytes, of which none was 0.
pub(crate) fn rows<R: Print + AllocGlobal>(rt: &R, length: usize, rows: &str) -> io::Result<()> {
    if length > LONGEST_SLOT {
        return tell(rt, "start", None);
    }
    let mut bytes = vec![in rt.alloc(); 9; length]?;
    let mut kept = bytes.clone()?;
    let mut slot = match LentSlot::start(&mut bytes) {
        Ok(slot) => slot,
        Err(refusal) => return told_refusal(rt, refusal, &bytes, &kept),
    };
    for line in rows.lines() {
        let row = Row::new(line);
        let answer = call_or_compare(rt.alloc(), &mut bytes, &mut slot, &mut kept, &row);
        tell(rt, line, answer)?;
    }
    Ok(())
}

/// Prints why there is no slot, and whether the bytes are as they were.
fn told_refusal<R: Print>(rt: &R, refusal: Refusal, bytes: &[u8], before: &[u8]) -> io::Result<()> {
    let same = bytes == before;
    println!(rt; "start = {refusal:?}, with the bytes as they were: {same}")
}

/// What a row answers: `keep` keeps a copy of the bytes, `same` tells whether they are as they were then, and the other
/// rows are calls.
fn call_or_compare(
    alloc: Global,
    bytes: &mut [u8],
    slot: &mut LentSlot,
    kept: &mut [u8],
    row: &Row<'_>,
) -> Option<String>
    requires { IsSlotBytes bytes.old slot.old }
    ensures { IsSlotBytes bytes.new slot.new }
{
    match row.word(0)? {
        "keep" => {
            if kept.len() != bytes.len() {
                return None;
            }
            copy_from(bytes, 0, kept);
            shown(alloc, ())
        }
        "same" => shown(alloc, *bytes == *kept),
        _ => call(alloc, bytes, slot, row),
    }
}

/// What the call of a row answers.
fn call(alloc: Global, bytes: &mut [u8], slot: &mut LentSlot, row: &Row<'_>) -> Option<String>
    requires { IsSlotBytes bytes.old slot.old }
    ensures { IsSlotBytes bytes.new slot.new }
{
    match row.word(0)? {
        "budge" => shown(alloc, slot.set_budge(row.word(1)? == "on")),
        "claim" => placed(alloc, slot.claim(bytes, row.number(1)?)),
        "release" => shown(alloc, slot.release(bytes, row.size(1)?)),
        "resize" => {
            let (address, delta) = (row.size(1)?, row.delta(2)?);
            placed(alloc, slot.resize(bytes, address, delta))
        }
        "write" => {
            let (address, from) = (row.size(1)?, row.bytes(2)?);
            shown(alloc, slot.write(bytes, address, from))
        }
        "alloc" | "free" | "extend" | "mid" | "put" => change_flex(alloc, bytes, slot, row),
        word => ask(alloc, bytes, *slot, word, row),
    }
}

/// Calls on flex blocks.
fn change_flex(
    alloc: Global,
    bytes: &mut [u8],
    slot: &mut LentSlot,
    row: &Row<'_>,
) -> Option<String>
    requires { IsSlotBytes bytes.old slot.old }
    ensures { IsSlotBytes bytes.new slot.new }
{
    let anchor = row.anchor(1)?;
    match row.word(0)? {
        "alloc" => placed(alloc, slot.alloc(bytes, anchor, row.number(2)?)),
        "free" => shown(alloc, slot.free(bytes, anchor)),
        "extend" => shown(alloc, slot.extend(bytes, anchor, row.number(2)?)),
        "mid" => {
            let (offset, by) = (row.size(2)?, row.delta(3)?);
            shown(alloc, slot.mid(bytes, anchor, offset, by))
        }
        "put" => {
            let (offset, from) = (row.size(2)?, row.bytes(3)?);
            shown(alloc, slot.put(bytes, anchor, offset, from))
        }
        _ => None,
    }
}

/// What a question about the C heap answers.
fn ask(alloc: Global, bytes: &[u8], slot: LentSlot, word: &str, row: &Row<'_>) -> Option<String>
    requires { IsSlotBytes bytes.now slot }
{
    match word {
        "take_pages" => shown(alloc, slot.take_pages(bytes, row.number(1)?)),
        "block_size" => shown(alloc, slot.block_size(bytes, row.size(1)?)),
        "segment" => shown(alloc, slot.segment(bytes, row.size(1)?)),
        "segments" => shown(alloc, slot.segments_from(bytes, row.size(1)?)),
        "describe" => shown(alloc, slot.describe(bytes)),
        "inside" => shown(alloc, slot.inside(bytes, row.size(1)?, row.size(2)?)),
        "free_pages" => shown(alloc, (bytes.len() / PAGE).saturating_sub(slot.pages)),
        _ => ask_flex(alloc, bytes, slot, word, row),
    }
}

/// What a question about flex blocks answers.
fn ask_flex(
    alloc: Global,
    bytes: &[u8],
    slot: LentSlot,
    word: &str,
    row: &Row<'_>,
) -> Option<String>
    requires { IsSlotBytes bytes.now slot }
{
    match word {
        "size" => shown(alloc, slot.size(bytes, row.anchor(1)?)),
        "address" => placed(alloc, slot.address(bytes, row.anchor(1)?)),
        "free_anchor" => shown(alloc, slot.free_anchor(bytes)),
        "count" => shown(alloc, slot.count(bytes)),
        "block" => shown(alloc, slot.block(bytes, row.size(1)?)),
        "list" => shown(alloc, listed(bytes, slot)),
        "walk" => shown(alloc, walked(bytes, slot)),
        "slot" => shown(alloc, slot),
        "slides" => shown(alloc, slot.slides),
        "read" => read(alloc, bytes, slot, row),
        "word" => word_at(alloc, bytes, row.size(1)?),
        "bytes" => bytes_at(alloc, bytes, row.size(1)?),
        _ => None,
    }
}

/// A list that held another block before, as the slot leaves it.
fn listed(bytes: &[u8], slot: LentSlot) -> ArrayVec<BlockItem, ANCHORS>
    requires { IsSlotBytes bytes.now slot }
{
    let mut items = ArrayVec::new();
    items.push(BlockItem {
        anchor: Anchor(9),
        address: 0x9040,
        size: 1,
    });
    slot.list(bytes, &mut items);
    items
}

/// The first four answers of one walk over the flex blocks.
fn walked(bytes: &[u8], slot: LentSlot) -> [Option<BlockItem>; 4]
    requires { IsSlotBytes bytes.now slot }
{
    let mut walk = slot.blocks(bytes);
    let first = slot.next_block(bytes, &mut walk);
    let second = slot.next_block(bytes, &mut walk);
    let third = slot.next_block(bytes, &mut walk);
    let fourth = slot.next_block(bytes, &mut walk);
    [first, second, third, fourth]
}

/// So many bytes of a block from an offset on, read into bytes that are 1, and those after the call.
fn read(alloc: Global, bytes: &[u8], slot: LentSlot, row: &Row<'_>) -> Option<String>
    requires { IsSlotBytes bytes.now slot }
{
    let (anchor, offset, n) = (row.anchor(1)?, row.size(2)?, row.size(3)?);
    if n > 16 {
        return None;
    }
    let mut found = vec![in alloc; 1; n].ok()?;
    let done = slot.read(bytes, anchor, offset, &mut found);
    format!(in alloc; "{done:?} {found:?}").ok()
}

/// The word at a place, if it is there.
fn word_at(alloc: Global, bytes: &[u8], place: usize) -> Option<String> {
    if bytes.len() < 4 || bytes.len() - 4 < place {
        return None;
    }
    let mut word = [0; 4];
    copy_from(bytes, place, &mut word);
    let word = u32::from_le_bytes(word);
    format!(in alloc; "&{word:x}").ok()
}

/// The 16 bytes from a place on, if they are there.
fn bytes_at(alloc: Global, bytes: &[u8], place: usize) -> Option<String> {
    if bytes.len() < 16 || bytes.len() - 16 < place {
        return None;
    }
    let mut found = [0; 16];
    copy_from(bytes, place, &mut found);
    shown(alloc, found)
}
