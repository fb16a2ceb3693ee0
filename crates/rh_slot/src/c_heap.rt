//! The C heap of a slot. Where it is too short it gets longer, and the flex blocks slide up.
ghost use Rattle.std.specs.Prelude.{◌≡◌, ◌+◌, ◌-◌, ◌<◌, ok_or, OnErr, ◌^◌, ◌↔◌, ◌&&◌, not, nat_lt, OnOk, IsErr};
ghost use Rattle.std.specs.Prelude.{IsErrOf};
ghost use Rattle.std.specs.Option.{option_map};
ghost use Rattle.rh_defs.specs.Memory.{OnlyArea};
ghost use Rattle.rh_defs.specs.Chain.{no_answer};
ghost use Rattle.rh_defs.specs.Heap.{block_size, largest, free_bytes, segment_at};
ghost use Rattle.rh_defs.specs.Pieces.{pages_for};
ghost use Rattle.rh_defs.specs.Slot.{heap_start, slot_claim, slot_release, slot_resize, slot_take_pages};
ghost use Rattle.rh_heap.specs.Listed.{segments_from};
ghost use Rattle.rh_heap.specs.Segments.{piece};
ghost use Rattle.rh_slot.specs.SlotArea.{IsSlotIn, SpellsSlotIn, slot_in};
ghost use Rattle.rh_slot.specs.SlotCalls.{LeavesSlotIn};
ghost use Rattle.rh_slot.specs.Inner.CHeap.{after_growth, lengthened};

use crate::area::grow_to;
use crate::row::shift;
use crate::slot::Slot;
use arrayvec::ArrayVec;
use rh_defs::Refusal;
use rh_defs::sizes::{C_HEAP_PLACE, C_HEAP_START, PAGE, SEGMENTS_AT_ONCE, flex_weight, pages_for};
use rh_heap::{Segment, Span};
use rh_store::{Paged, Pages, Words};

impl Slot {
    /// Where the C heap stands.
    pub(crate) fn span(self) -> Span
        ensures { result ≡ record { area = self.area; at = C_HEAP_PLACE } }
    {
        Span {
            area: self.area,
            at: C_HEAP_PLACE,
        }
    }

    /// Whether the C heap is short of bytes and may not grow.
    fn is_stuck(self, shortage: usize) -> bool
        ensures { result ≡ (nat_lt 0 shortage && not self.budge) }
    {
        0 < shortage && !self.budge
    }

    /// Makes the C heap longer by a shortage, in whole pages. All flex blocks slide up. Refused (`NoRoom`) where too
    /// few pages are free.
    fn lengthen<S: Pages>(self, store: &mut S, shortage: usize) -> Result<(), Refusal>
        requires slot { IsSlotIn (S.memory store.old) self }
        requires small { shortage < 2 ^ 34 }
        ensures spells { OnOk result (SpellsSlotIn (S.memory store.new) self
            (lengthened shortage (slot_in (S.memory store.old) self))) }
        ensures only { OnOk result (OnlyArea (S.memory store.old) (S.memory store.new) self.area.0) }
        ensures refused { IsErr result ↔ ((S.memory store.old).free < pages_for shortage) }
        ensures reason { IsErr result → IsErrOf result Refusal.NoRoom }
        ensures err { OnErr result (S.memory store.new ≡ S.memory store.old) }
    {
        let from = self.flex_place(store);
        let top = self.top(store);
        let more = pages_for(shortage) * PAGE;
        let Ok(()) = grow_to(store, self.area, top + more) else {
            return Err(Refusal::NoRoom);
        };
        shift(store, self.area, from, from + more, top - from);
        // The end moves up, so it stays above the last block of the heap.
        rh_heap::extend_heap(store, self.span(), more as i32).unwrap();
        Ok(())
    }

    /// Makes room for a shortage of the C heap, 0 for none. Refused: `NoBudge` where budging is off, `NoRoom`.
    fn make_room<S: Pages>(self, store: &mut S, shortage: usize) -> Result<(), Refusal>
        requires slot { IsSlotIn (S.memory store.old) self }
        requires small { shortage < 2 ^ 34 }
        ensures answer { result ≡ after_growth (S.memory store.old).free shortage (slot_in
            (S.memory store.old) self) tt }
        ensures spells { OnOk result (SpellsSlotIn (S.memory store.new) self
            (lengthened shortage (slot_in (S.memory store.old) self))) }
        ensures only { OnlyArea (S.memory store.old) (S.memory store.new) self.area.0 }
        ensures err { OnErr result (S.memory store.new ≡ S.memory store.old) }
    {
        if shortage == 0 {
            return Ok(());
        }
        if self.is_stuck(shortage) {
            return Err(Refusal::NoBudge);
        }
        self.lengthen(store, shortage)
    }

    /// Claims a block where the heap as it is refused one: it is too short and gets longer first, or refuses again.
    fn claim_growing<S: Pages>(self, store: &mut S, n: u32) -> Result<usize, Refusal>
        requires slot { IsSlotIn (S.memory store.old) self }
        ensures { LeavesSlotIn (S.memory store.old) (S.memory store.new) self
            (slot_claim (S.memory store.old).free n (slot_in (S.memory store.old) self)) result }
    {
        let shortage = rh_heap::need(store, self.span(), n)?;
        self.make_room(store, shortage)?;
        // The heap has room now.
        let address = rh_heap::claim(store, self.span(), n).unwrap();
        Ok(C_HEAP_START + address)
    }

    /// Claims a block of `n` bytes at least in the C heap, all 0, and answers its address, from &8100 on. A heap that
    /// is too short grows by whole pages, and the flex blocks slide up. Refused: `BadSize` for 0 bytes, `NoBudge`
    /// where the heap is too short and budging is off, `NoRoom` where too few pages are free. (OS_Heap 2.)
    pub fn claim<S: Pages>(self, store: &mut S, n: u32) -> Result<usize, Refusal>
        requires slot { IsSlotIn (S.memory store.old) self }
        ensures { LeavesSlotIn (S.memory store.old) (S.memory store.new) self
            (slot_claim (S.memory store.old).free n (slot_in (S.memory store.old) self)) result }
    {
        match rh_heap::claim(store, self.span(), n) {
            Ok(address) => Ok(C_HEAP_START + address),
            Err(_) => self.claim_growing(store, n),
        }
    }

    /// Releases the block of the C heap at an address. Refused (`NotABlock`) where none begins there. (OS_Heap 3.)
    pub fn release<S: Pages>(self, store: &mut S, address: usize) -> Result<(), Refusal>
        requires slot { IsSlotIn (S.memory store.old) self }
        ensures { LeavesSlotIn (S.memory store.old) (S.memory store.new) self
            (no_answer (slot_release address (slot_in (S.memory store.old) self))) result }
    {
        rh_heap::release(store, self.span(), address.saturating_sub(C_HEAP_START))?;
        Ok(())
    }

    /// Changes a block's size where the heap as it is refused it: it is too short and gets longer first, or refuses
    /// again.
    fn resize_growing<S: Pages>(
        self,
        store: &mut S,
        address: usize,
        delta: i32,
    ) -> Result<usize, Refusal>
        requires slot { IsSlotIn (S.memory store.old) self }
        ensures { LeavesSlotIn (S.memory store.old) (S.memory store.new) self
            (slot_resize (S.memory store.old).free address delta (slot_in (S.memory store.old) self)) result }
    {
        let place = address.saturating_sub(C_HEAP_START);
        let shortage = rh_heap::resize_need(store, self.span(), place, delta)?;
        self.make_room(store, shortage)?;
        // The heap has room now.
        let address = rh_heap::resize(store, self.span(), place, delta).unwrap();
        Ok(C_HEAP_START + address)
    }

    /// Gives the block of the C heap at an address `delta` bytes more, or fewer where `delta` is negative, and answers
    /// its address. A heap that is too short grows. Refused: `NotABlock`, `BadSize` where fewer than 1 byte would be
    /// left, `NoBudge`, `NoRoom`. (OS_Heap 4.)
    pub fn resize<S: Pages>(
        self,
        store: &mut S,
        address: usize,
        delta: i32,
    ) -> Result<usize, Refusal>
        requires slot { IsSlotIn (S.memory store.old) self }
        ensures { LeavesSlotIn (S.memory store.old) (S.memory store.new) self
            (slot_resize (S.memory store.old).free address delta (slot_in (S.memory store.old) self)) result }
    {
        let place = address.saturating_sub(C_HEAP_START);
        match rh_heap::resize(store, self.span(), place, delta) {
            Ok(address) => Ok(C_HEAP_START + address),
            Err(_) => self.resize_growing(store, address, delta),
        }
    }

    /// By how many pages a claim of `n` bytes and then a flex block of no bytes would make the slot longer. Refused:
    /// `BadSize` for 0 bytes, `NoBudge` where the C heap is too short and budging is off.
    pub fn take_pages<S: Paged>(self, store: &S, n: u32) -> Result<usize, Refusal>
        requires slot { IsSlotIn (S.memory store.now) self }
        ensures { result ≡ slot_take_pages n (slot_in (S.memory store.now) self) }
    {
        let shortage = rh_heap::need(store, self.span(), n)?;
        if self.is_stuck(shortage) {
            return Err(Refusal::NoBudge);
        }
        let top = self.top(store);
        Ok(pages_for(shortage) + pages_for(top + flex_weight(0)) - pages_for(top))
    }

    /// The bytes of the C heap's block at an address. Refused (`NotABlock`) where none begins there. (OS_Heap 6.)
    pub fn block_size<S: Words>(self, store: &S, address: usize) -> Result<usize, Refusal>
        requires slot { IsSlotIn (S.memory store.now) self }
        ensures { result ≡ ok_or (block_size (address - heap_start)
            (slot_in (S.memory store.now) self).heap) Refusal.NotABlock }
    {
        let size = rh_heap::block_size(store, self.span(), address.saturating_sub(C_HEAP_START))?;
        Ok(size)
    }

    /// The segment of the C heap that begins at a place, in bytes from the heap's first one.
    pub fn segment<S: Words>(self, store: &S, place: usize) -> Option<Segment>
        requires slot { IsSlotIn (S.memory store.now) self }
        ensures { result ≡ option_map piece (segment_at place (slot_in (S.memory store.now) self).heap) }
    {
        rh_heap::segment(store, self.span(), place)
    }

    /// Puts up to 64 segments of the C heap into a list, in place of what it held: in order of place, from the one that
    /// begins at `place` on; none where none begins there.
    pub fn segments_from<S: Words>(
        self,
        store: &S,
        place: usize,
        segments: &mut ArrayVec<Segment, SEGMENTS_AT_ONCE>,
    )
        requires slot { IsSlotIn (S.memory store.now) self }
        ensures { segments.new.items ≡ segments_from place (slot_in (S.memory store.now) self).heap }
    {
        rh_heap::segments_from(store, self.span(), place, segments);
    }

    /// The C heap's end in bytes, its largest free block, and the bytes of all its holes and its top. (OS_Heap 1.)
    pub fn describe<S: Words>(self, store: &S) -> (usize, usize, usize)
        requires slot { IsSlotIn (S.memory store.now) self }
        ensures end { result.0 ≡ (slot_in (S.memory store.now) self).heap.end }
        ensures largest { result.1 ≡ largest (slot_in (S.memory store.now) self).heap }
        ensures total { result.2 ≡ free_bytes (slot_in (S.memory store.now) self).heap }
    {
        let (largest, total) = rh_heap::describe(store, self.span());
        (rh_heap::end(store, self.span()), largest, total)
    }
}
