//! The C heap of a slot in lent bytes. Where it is too short it gets longer, and the flex blocks slide up.
ghost use Rattle.std.specs.Prelude.{◌≡◌, ◌-◌, ok_or};
ghost use Rattle.std.specs.Option.{option_map};
ghost use Rattle.rh_defs.specs.Chain.{no_answer};
ghost use Rattle.rh_defs.specs.Heap.{block_size, free_bytes, largest, segment_at};
ghost use Rattle.rh_defs.specs.Slot.{heap_start, slot_claim, slot_release, slot_resize, slot_take_pages};
ghost use Rattle.rh_lent_slot.specs.SlotSlides.{CountsSlides};
ghost use Rattle.rh_lent_slot.specs.Slots.{IsSlotBytes, LeavesSlot, free_in, lent_slot_in};
ghost use Rattle.rh_heap.specs.Listed.{segments_from};
ghost use Rattle.rh_heap.specs.Segments.{piece};

use crate::pages::LentPages;
use crate::pages_mut::LentPagesMut;
use crate::slides::slides_noted;
use crate::slot::LentSlot;
use arrayvec::ArrayVec;
use rh_defs::Refusal;
use rh_defs::sizes::SEGMENTS_AT_ONCE;
use rh_heap::Segment;
use rh_lent_heap::LENT;
use rh_slot::Slot;

impl LentSlot {
    /// Claims a block of `n` bytes at least in the C heap, all 0, and answers its address, from &8100 on. A heap that
    /// is too short grows by whole pages, and the flex blocks slide up. Refused: `BadSize` for 0 bytes, `NoBudge`
    /// where the heap is too short and budging is off, `NoRoom` where too few pages are free. (OS_Heap 2.)
    pub fn claim(&mut self, bytes: &mut [u8], n: u32) -> Result<usize, Refusal>
        requires { IsSlotBytes bytes.old self.old }
        ensures left { LeavesSlot bytes.old bytes.new self.old self.new
            (slot_claim (free_in bytes.old self.old) n (lent_slot_in bytes.old self.old)) result }
        ensures slides { CountsSlides bytes.old bytes.new self.old self.new }
    {
        let LentSlot { pages, budge, .. } = *self;
        let noted = self.note_lowest(bytes);
        let mut store = LentPagesMut { bytes, pages };
        let slot = Slot { area: LENT, budge };
        let result = slot.claim(&mut store, n);
        self.pages = store.pages;
        self.slides = slides_noted(self.slides, noted, &store);
        result
    }

    /// Releases the block of the C heap at an address. Refused (`NotABlock`) where none begins there. (OS_Heap 3.)
    pub fn release(&mut self, bytes: &mut [u8], address: usize) -> Result<(), Refusal>
        requires { IsSlotBytes bytes.old self.old }
        ensures left { LeavesSlot bytes.old bytes.new self.old self.new
            (no_answer (slot_release address (lent_slot_in bytes.old self.old))) result }
        ensures slides { self.new.slides ≡ self.old.slides }
    {
        let LentSlot { pages, budge, .. } = *self;
        let mut store = LentPagesMut { bytes, pages };
        let slot = Slot { area: LENT, budge };
        let result = slot.release(&mut store, address);
        self.pages = store.pages;
        result
    }

    /// Gives the block of the C heap at an address `delta` bytes more, or fewer where `delta` is negative, and answers
    /// its address. A heap that is too short grows. Refused: `NotABlock`, `BadSize` where fewer than 1 byte would be
    /// left, `NoBudge`, `NoRoom`. (OS_Heap 4.)
    pub fn resize(&mut self, bytes: &mut [u8], address: usize, delta: i32) -> Result<usize, Refusal>
        requires { IsSlotBytes bytes.old self.old }
        ensures left { LeavesSlot bytes.old bytes.new self.old self.new
            (slot_resize (free_in bytes.old self.old) address delta (lent_slot_in bytes.old self.old)) result }
        ensures slides { CountsSlides bytes.old bytes.new self.old self.new }
    {
        let LentSlot { pages, budge, .. } = *self;
        let noted = self.note_lowest(bytes);
        let mut store = LentPagesMut { bytes, pages };
        let slot = Slot { area: LENT, budge };
        let result = slot.resize(&mut store, address, delta);
        self.pages = store.pages;
        self.slides = slides_noted(self.slides, noted, &store);
        result
    }

    /// By how many pages a claim of `n` bytes and then a flex block of no bytes would make the slot longer. Refused:
    /// `BadSize` for 0 bytes, `NoBudge` where the C heap is too short and budging is off.
    pub fn take_pages(self, bytes: &[u8], n: u32) -> Result<usize, Refusal>
        requires { IsSlotBytes bytes.now self }
        ensures { result ≡ slot_take_pages n (lent_slot_in bytes.now self) }
    {
        let LentSlot { pages, budge, .. } = self;
        let store = LentPages { bytes, pages };
        let slot = Slot { area: LENT, budge };
        slot.take_pages(&store, n)
    }

    /// The bytes of the C heap's block at an address. Refused (`NotABlock`) where none begins there.
    /// (OS_Heap 6.)
    pub fn block_size(self, bytes: &[u8], address: usize) -> Result<usize, Refusal>
        requires { IsSlotBytes bytes.now self }
        ensures { result ≡ ok_or (block_size (address - heap_start) (lent_slot_in bytes.now self).heap)
            Refusal.NotABlock }
    {
        let LentSlot { pages, budge, .. } = self;
        let store = LentPages { bytes, pages };
        let slot = Slot { area: LENT, budge };
        slot.block_size(&store, address)
    }

    /// The segment of the C heap that begins at a place, in bytes from the heap's first one.
    pub fn segment(self, bytes: &[u8], place: usize) -> Option<Segment>
        requires { IsSlotBytes bytes.now self }
        ensures { result ≡ option_map piece (segment_at place (lent_slot_in bytes.now self).heap) }
    {
        let LentSlot { pages, budge, .. } = self;
        let store = LentPages { bytes, pages };
        let slot = Slot { area: LENT, budge };
        slot.segment(&store, place)
    }

    /// Up to 64 segments of the C heap in order of place, from the one that begins at `place` on; none where none
    /// begins there.
    pub fn segments_from(self, bytes: &[u8], place: usize) -> ArrayVec<Segment, SEGMENTS_AT_ONCE>
        requires { IsSlotBytes bytes.now self }
        ensures { result.items ≡ segments_from place (lent_slot_in bytes.now self).heap }
    {
        let LentSlot { pages, budge, .. } = self;
        let store = LentPages { bytes, pages };
        let slot = Slot { area: LENT, budge };
        let mut segments = ArrayVec::new();
        slot.segments_from(&store, place, &mut segments);
        segments
    }

    /// The C heap's end in bytes, its largest free block, and the bytes of all its holes and its top.
    /// (OS_Heap 1.)
    pub fn describe(self, bytes: &[u8]) -> (usize, usize, usize)
        requires { IsSlotBytes bytes.now self }
        ensures end { result.0 ≡ (lent_slot_in bytes.now self).heap.end }
        ensures largest { result.1 ≡ largest (lent_slot_in bytes.now self).heap }
        ensures free { result.2 ≡ free_bytes (lent_slot_in bytes.now self).heap }
    {
        let LentSlot { pages, budge, .. } = self;
        let store = LentPages { bytes, pages };
        let slot = Slot { area: LENT, budge };
        slot.describe(&store)
    }
}
