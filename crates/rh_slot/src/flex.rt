//! One flex block: where it is, and how it comes, changes and goes.
ghost use Rattle.std.specs.Prelude.{◌≡◌, ◌+◌, ◌<◌, ◌^◌, ◌≤◌, length, ◌↔◌, IsTrue, ◌*◌, MatchOption};
ghost use Rattle.rh_defs.specs.Chain.{outcome_of, no_answer, result_or};
ghost use Rattle.rh_defs.specs.Pieces.{Split, moved};
ghost use Rattle.rh_defs.specs.Slot.{Flex, slot_extend, slot_mid, slot_put, slot_read, taken_out, slot_alloc};
ghost use Rattle.rh_defs.specs.Slot.{slot_free, IsFree, slot_size, slot_address};
ghost use Rattle.rh_slot.specs.SlotArea.{IsSlotIn, slot_in};
ghost use Rattle.rh_slot.specs.SlotCalls.{LeavesSlotIn};
ghost use Rattle.rh_slot.specs.Inner.FoundBlocks.{FoundFlex, FoundAt, splice};

use crate::area::{clear, grow_to, read, room_for, slide, trim, write, write_bytes};
use crate::row::shift;
use crate::slot::Slot;
use rh_defs::sizes::{ANCHORS, FLEX_HEADER, SLOT_START, WORD, flex_weight, moved, pages_for};
use rh_defs::{Anchor, Refusal};
use rh_store::{Pages, Words, WordsMut};

/// Where a flex block's header stands in the slot's area, and how many bytes the block has.
#[derive(Clone, Copy)]
pub(crate) struct FlexSpot {
    pub place: usize,
    pub size: usize,
}

/// A change of a block's bytes: how many before an offset are taken out, and how many zeros are then put in.
#[derive(Clone, Copy)]
struct Change {
    offset: usize,
    out: usize,
    put: usize,
}

/// Where an anchor's word stands in the slot's area.
fn word_place(anchor: Anchor) -> usize
    ensures { result ≡ WORD * anchor }
{
    WORD * anchor.0 as usize
}

/// Whether `n` bytes from an offset on lie in a block of `size` bytes.
pub(crate) fn fits(size: usize, offset: usize, n: usize) -> bool
    ensures { IsTrue result ↔ (offset + n ≤ size) }
{
    offset <= size && n <= size - offset
}

/// How many bytes are taken out where a block changes by a signed amount.
fn taken_out(by: i32) -> usize
    ensures value { result ≡ taken_out by }
    ensures bound { result ≤ 2 ^ 31 }
{
    if by < 0 {
        by.unsigned_abs() as usize
    } else {
        0
    }
}

/// How many zeros are put in where a block changes by a signed amount.
fn put_in(by: i32) -> usize
    ensures value { result ≡ moved 0 by }
    ensures bound { result < 2 ^ 31 }
{
    moved(0, by)
}

impl Slot {
    /// The anchor's block, or `None` where it has none.
    pub(crate) fn locate<S: Words>(self, store: &S, anchor: Anchor) -> Option<FlexSpot>
        requires slot { IsSlotIn (S.memory store.now) self }
        requires anchor { anchor < ANCHORS }
        ensures { MatchOption result (IsFree anchor (slot_in (S.memory store.now) self).blocks)
            (λ spot. FoundFlex anchor (slot_in (S.memory store.now) self) spot.place spot.size) }
    {
        let address = read(store, self.area, word_place(anchor));
        if address == 0 {
            return None;
        }
        let place = address - SLOT_START - FLEX_HEADER;
        let size = read(store, self.area, place + WORD);
        Some(FlexSpot { place, size })
    }

    /// How many bytes the anchor's block has. Refused (`NoBlock`) where it has none. (flex_size.)
    pub fn size<S: Words>(self, store: &S, anchor: Anchor) -> Result<usize, Refusal>
        requires slot { IsSlotIn (S.memory store.now) self }
        requires anchor { anchor < ANCHORS }
        ensures { result ≡ slot_size anchor (slot_in (S.memory store.now) self) }
    {
        let Some(spot) = self.locate(store, anchor) else {
            return Err(Refusal::NoBlock);
        };
        Ok(spot.size)
    }

    /// The address of the block's first byte, from &8000 on, as the anchor word holds it. Refused (`NoBlock`) where
    /// the anchor has none.
    pub fn address<S: Words>(self, store: &S, anchor: Anchor) -> Result<usize, Refusal>
        requires slot { IsSlotIn (S.memory store.now) self }
        requires anchor { anchor < ANCHORS }
        ensures { result ≡ slot_address anchor (slot_in (S.memory store.now) self) }
    {
        let Some(spot) = self.locate(store, anchor) else {
            return Err(Refusal::NoBlock);
        };
        Ok(SLOT_START + spot.place + FLEX_HEADER)
    }

    /// Whether a block of `n` zeros would be put on top. Refused as `alloc` is, and nothing changes.
    pub fn can_alloc<S: Pages>(self, store: &S, anchor: Anchor, n: u32) -> Result<(), Refusal>
        requires slot { IsSlotIn (S.memory store.now) self }
        requires anchor { anchor < ANCHORS }
        ensures { result ≡ outcome_of (slot_alloc (S.memory store.now).free anchor n
            (slot_in (S.memory store.now) self)) }
    {
        if let Some(_) = self.locate(store, anchor) {
            return Err(Refusal::AnchorInUse);
        }
        let top = self.top(store);
        let more = pages_for(top + flex_weight(n as usize)).saturating_sub(pages_for(top));
        if more > store.free_pages() {
            return Err(Refusal::NoRoom);
        }
        Ok(())
    }

    /// Puts a block of `n` zeros on top and answers its address, from &8000 on. Refused: `AnchorInUse` where the
    /// anchor has a block, `NoRoom` where too few pages are free. (flex_alloc.)
    pub fn alloc<S: Pages>(self, store: &mut S, anchor: Anchor, n: u32) -> Result<usize, Refusal>
        requires slot { IsSlotIn (S.memory store.old) self }
        requires anchor { anchor < ANCHORS }
        ensures { LeavesSlotIn (S.memory store.old) (S.memory store.new) self
            (slot_alloc (S.memory store.old).free anchor n (slot_in (S.memory store.old) self)) result }
    {
        if let Some(_) = self.locate(store, anchor) {
            return Err(Refusal::AnchorInUse);
        }
        let size = n as usize;
        let top = self.top(store);
        let end = store.len(self.area);
        let Ok(()) = grow_to(store, self.area, top + flex_weight(size)) else {
            return Err(Refusal::NoRoom);
        };
        let word = word_place(anchor);
        write(store, self.area, top, SLOT_START + word);
        write(store, self.area, top + WORD, size);
        // Pages come as zeros: what stood in the area before is cleared alone.
        let used = size.min(end.saturating_sub(top + FLEX_HEADER));
        clear(store, self.area, top + FLEX_HEADER, used);
        write(store, self.area, word, SLOT_START + top + FLEX_HEADER);
        Ok(SLOT_START + top + FLEX_HEADER)
    }

    /// Takes the anchor's block away; those above it come down. Refused (`NoBlock`) where it has none. (flex_free.)
    pub fn free<S: Pages>(self, store: &mut S, anchor: Anchor) -> Result<(), Refusal>
        requires slot { IsSlotIn (S.memory store.old) self }
        requires anchor { anchor < ANCHORS }
        ensures { LeavesSlotIn (S.memory store.old) (S.memory store.new) self
            (no_answer (slot_free anchor (slot_in (S.memory store.old) self))) result }
    {
        let Some(spot) = self.locate(store, anchor) else {
            return Err(Refusal::NoBlock);
        };
        let from = spot.place + flex_weight(spot.size);
        let above = self.top_from(store, from) - from;
        shift(store, self.area, from, spot.place, above);
        write(store, self.area, word_place(anchor), 0);
        trim(store, self.area, spot.place + above);
        Ok(())
    }

    /// Takes bytes out of a block and puts zeros in. Refused (`NoRoom`) where too few pages are free.
    #[inline(always)]
    fn splice<S: Pages>(
        self,
        store: &mut S,
        anchor: Anchor,
        spot: FlexSpot,
        change: Change,
    ) -> Result<(), Refusal>
        requires slot { IsSlotIn (S.memory store.old) self }
        requires found { FoundFlex anchor (slot_in (S.memory store.old) self) spot.place spot.size }
        requires offset { change.offset ≤ spot.size }
        requires out { change.out ≤ change.offset }
        requires small { change.put < 2 ^ 32 }
        ensures { (cut : Split Flex) → FoundAt anchor (slot_in (S.memory store.old) self) spot.place spot.size cut
            → LeavesSlotIn (S.memory store.old) (S.memory store.new) self
            (no_answer (splice (S.memory store.old).free change.offset change.out change.put cut
            (slot_in (S.memory store.old) self))) result }
    {
        let from = spot.place + flex_weight(spot.size);
        let size = spot.size - change.out + change.put;
        let to = spot.place + flex_weight(size);
        let above = self.top_from(store, from) - from;
        let Ok(()) = room_for(store, self.area, to + above) else {
            return Err(Refusal::NoRoom);
        };
        let tail = spot.place + FLEX_HEADER + change.offset;
        let opened = tail - change.out;
        let n = spot.size - change.offset;
        // The bytes behind the offset come down before the blocks above move, and go up again after.
        slide(store, self.area, tail, opened, n);
        shift(store, self.area, from, to, above);
        write(store, self.area, spot.place + WORD, size);
        slide(store, self.area, opened, opened + change.put, n);
        clear(store, self.area, opened, change.put);
        trim(store, self.area, to + above);
        Ok(())
    }

    /// Cuts the anchor's block to `n` bytes, or gives it zeros up to `n`; those above it slide. Refused: `NoBlock`
    /// where the anchor has none, `NoRoom` where too few pages are free. (flex_extend.)
    pub fn extend<S: Pages>(self, store: &mut S, anchor: Anchor, n: u32) -> Result<(), Refusal>
        requires slot { IsSlotIn (S.memory store.old) self }
        requires anchor { anchor < ANCHORS }
        ensures { LeavesSlotIn (S.memory store.old) (S.memory store.new) self
            (no_answer (slot_extend (S.memory store.old).free anchor n (slot_in (S.memory store.old) self))) result }
    {
        let Some(spot) = self.locate(store, anchor) else {
            return Err(Refusal::NoBlock);
        };
        let size = n as usize;
        let change = Change {
            offset: spot.size,
            out: spot.size.saturating_sub(size),
            put: size.saturating_sub(spot.size),
        };
        self.splice(store, anchor, spot, change)
    }

    /// Puts `by` zeros into the anchor's block at an offset, or where `by` is below 0 takes out as many bytes before
    /// it; blocks above slide. Refused: `NoBlock` where the anchor has none, `BadRange` where the offset is above the
    /// size or fewer bytes are before it, `NoRoom` where too few pages are free. (flex_midextend.)
    pub fn mid<S: Pages>(
        self,
        store: &mut S,
        anchor: Anchor,
        offset: usize,
        by: i32,
    ) -> Result<(), Refusal>
        requires slot { IsSlotIn (S.memory store.old) self }
        requires anchor { anchor < ANCHORS }
        ensures { LeavesSlotIn (S.memory store.old) (S.memory store.new) self
            (no_answer (slot_mid (S.memory store.old).free anchor offset by
            (slot_in (S.memory store.old) self))) result }
    {
        let Some(spot) = self.locate(store, anchor) else {
            return Err(Refusal::NoBlock);
        };
        let out = taken_out(by);
        if spot.size < offset {
            return Err(Refusal::BadRange);
        }
        if offset < out {
            return Err(Refusal::BadRange);
        }
        let change = Change {
            offset,
            out,
            put: put_in(by),
        };
        self.splice(store, anchor, spot, change)
    }

    /// Writes bytes into the anchor's block, from an offset on. Refused: `NoBlock` where the anchor has none,
    /// `BadRange` where the bytes would go beyond the block's end.
    pub fn put<S: WordsMut>(
        self,
        store: &mut S,
        anchor: Anchor,
        offset: usize,
        from: &[u8],
    ) -> Result<(), Refusal>
        requires slot { IsSlotIn (S.memory store.old) self }
        requires anchor { anchor < ANCHORS }
        ensures { LeavesSlotIn (S.memory store.old) (S.memory store.new) self
            (no_answer (slot_put anchor offset from.now (slot_in (S.memory store.old) self))) result }
    {
        let Some(spot) = self.locate(store, anchor) else {
            return Err(Refusal::NoBlock);
        };
        if !fits(spot.size, offset, from.len()) {
            return Err(Refusal::BadRange);
        }
        write_bytes(store, self.area, spot.place + FLEX_HEADER + offset, from);
        Ok(())
    }

    /// Fills a buffer that was lent with bytes of the anchor's block, from an offset on. Refused, and the buffer left
    /// as it is: `NoBlock` where the anchor has none, `BadRange` where the bytes would go beyond the block's end.
    pub fn read<S: Words>(
        self,
        store: &S,
        anchor: Anchor,
        offset: usize,
        to: &mut [u8],
    ) -> Result<(), Refusal>
        requires slot { IsSlotIn (S.memory store.now) self }
        requires anchor { anchor < ANCHORS }
        ensures answer { result ≡ outcome_of (slot_read anchor offset (length to.old)
            (slot_in (S.memory store.now) self)) }
        ensures bytes { to.new ≡ result_or to.old (slot_read anchor offset (length to.old)
            (slot_in (S.memory store.now) self)) }
    {
        let Some(spot) = self.locate(store, anchor) else {
            return Err(Refusal::NoBlock);
        };
        if !fits(spot.size, offset, to.len()) {
            return Err(Refusal::BadRange);
        }
        store.copy_out(self.area, spot.place + FLEX_HEADER + offset, to);
        Ok(())
    }
}
