//! The flex blocks of a slot in lent bytes: how one comes, changes and goes, and what it holds.
ghost use Rattle.std.specs.Prelude.{◌≡◌, ◌<◌, length};
ghost use Rattle.rh_defs.specs.Chain.{no_answer, outcome_of, result_or};
ghost use Rattle.rh_defs.specs.Places.{free_anchor};
ghost use Rattle.rh_defs.specs.Slot.{slot_address, slot_alloc, slot_extend, slot_free, slot_mid};
ghost use Rattle.rh_defs.specs.Slot.{slot_put, slot_read, slot_size};
ghost use Rattle.rh_defs.specs.declared.sizes.TheConstants.{ANCHORS};
ghost use Rattle.rh_lent_slot.specs.SlotSlides.{CountsSlides};
ghost use Rattle.rh_lent_slot.specs.Slots.{IsSlotBytes, LeavesSlot, free_in, lent_slot_in};

use crate::pages::LentPages;
use crate::pages_mut::LentPagesMut;
use crate::slides::slides_noted;
use crate::slot::LentSlot;
use rh_defs::{Anchor, Refusal};
use rh_lent_heap::LENT;
use rh_slot::Slot;

impl LentSlot {
    /// How many bytes the anchor's block has. Refused (`NoBlock`) where it has none. (flex_size.)
    pub fn size(self, bytes: &[u8], anchor: Anchor) -> Result<usize, Refusal>
        requires slot { IsSlotBytes bytes.now self }
        requires anchor { anchor < ANCHORS }
        ensures { result ≡ slot_size anchor (lent_slot_in bytes.now self) }
    {
        let LentSlot { pages, budge, .. } = self;
        let store = LentPages { bytes, pages };
        let slot = Slot { area: LENT, budge };
        slot.size(&store, anchor)
    }

    /// The address of the block's first byte, from &8000 on, as the anchor word holds it. Refused (`NoBlock`) where
    /// the anchor has none.
    pub fn address(self, bytes: &[u8], anchor: Anchor) -> Result<usize, Refusal>
        requires slot { IsSlotBytes bytes.now self }
        requires anchor { anchor < ANCHORS }
        ensures { result ≡ slot_address anchor (lent_slot_in bytes.now self) }
    {
        let LentSlot { pages, budge, .. } = self;
        let store = LentPages { bytes, pages };
        let slot = Slot { area: LENT, budge };
        slot.address(&store, anchor)
    }

    /// The lowest anchor without a block, `None` where all have one.
    pub fn free_anchor(self, bytes: &[u8]) -> Option<Anchor>
        requires { IsSlotBytes bytes.now self }
        ensures { result ≡ free_anchor (lent_slot_in bytes.now self) }
    {
        let LentSlot { pages, budge, .. } = self;
        let store = LentPages { bytes, pages };
        let slot = Slot { area: LENT, budge };
        rh_slot::free_anchor(&store, slot)
    }

    /// Puts a block of `n` zeros on top and answers its address, from &8000 on. Refused: `AnchorInUse` where the
    /// anchor has a block, `NoRoom` where too few pages are free behind the slot. (flex_alloc.)
    pub fn alloc(&mut self, bytes: &mut [u8], anchor: Anchor, n: u32) -> Result<usize, Refusal>
        requires slot { IsSlotBytes bytes.old self.old }
        requires anchor { anchor < ANCHORS }
        ensures left { LeavesSlot bytes.old bytes.new self.old self.new
            (slot_alloc (free_in bytes.old self.old) anchor n (lent_slot_in bytes.old self.old)) result }
        ensures slides { self.new.slides ≡ self.old.slides }
    {
        let LentSlot { pages, budge, .. } = *self;
        let mut store = LentPagesMut { bytes, pages };
        let slot = Slot { area: LENT, budge };
        let result = slot.alloc(&mut store, anchor, n);
        self.pages = store.pages;
        result
    }

    /// Takes the anchor's block away; those above it come down. Refused (`NoBlock`) where it has none. (flex_free.)
    pub fn free(&mut self, bytes: &mut [u8], anchor: Anchor) -> Result<(), Refusal>
        requires slot { IsSlotBytes bytes.old self.old }
        requires anchor { anchor < ANCHORS }
        ensures left { LeavesSlot bytes.old bytes.new self.old self.new
            (no_answer (slot_free anchor (lent_slot_in bytes.old self.old))) result }
        ensures slides { CountsSlides bytes.old bytes.new self.old self.new }
    {
        let LentSlot { pages, budge, .. } = *self;
        let noted = self.note_above(bytes, anchor);
        let mut store = LentPagesMut { bytes, pages };
        let slot = Slot { area: LENT, budge };
        let result = slot.free(&mut store, anchor);
        self.pages = store.pages;
        self.slides = slides_noted(self.slides, noted, &store);
        result
    }

    /// Cuts the anchor's block to `n` bytes, or gives it zeros up to `n`; those above it slide. Refused: `NoBlock`
    /// where the anchor has none, `NoRoom` where too few pages are free. (flex_extend.)
    pub fn extend(&mut self, bytes: &mut [u8], anchor: Anchor, n: u32) -> Result<(), Refusal>
        requires slot { IsSlotBytes bytes.old self.old }
        requires anchor { anchor < ANCHORS }
        ensures left { LeavesSlot bytes.old bytes.new self.old self.new
            (no_answer (slot_extend (free_in bytes.old self.old) anchor n (lent_slot_in bytes.old self.old))) result }
        ensures slides { CountsSlides bytes.old bytes.new self.old self.new }
    {
        let LentSlot { pages, budge, .. } = *self;
        let noted = self.note_above(bytes, anchor);
        let mut store = LentPagesMut { bytes, pages };
        let slot = Slot { area: LENT, budge };
        let result = slot.extend(&mut store, anchor, n);
        self.pages = store.pages;
        self.slides = slides_noted(self.slides, noted, &store);
        result
    }

    /// Puts `by` zeros into the anchor's block at an offset, or where `by` is below 0 takes out as many bytes before
    /// it; blocks above slide. Refused: `NoBlock` where the anchor has none, `BadRange` where the offset is above the
    /// size or fewer bytes are before it, `NoRoom` where too few pages are free. (flex_midextend.)
    pub fn mid(
        &mut self,
        bytes: &mut [u8],
        anchor: Anchor,
        offset: usize,
        by: i32,
    ) -> Result<(), Refusal>
        requires slot { IsSlotBytes bytes.old self.old }
        requires anchor { anchor < ANCHORS }
        ensures left { LeavesSlot bytes.old bytes.new self.old self.new
            (no_answer (slot_mid (free_in bytes.old self.old) anchor offset by
            (lent_slot_in bytes.old self.old))) result }
        ensures slides { CountsSlides bytes.old bytes.new self.old self.new }
    {
        let LentSlot { pages, budge, .. } = *self;
        let noted = self.note_above(bytes, anchor);
        let mut store = LentPagesMut { bytes, pages };
        let slot = Slot { area: LENT, budge };
        let result = slot.mid(&mut store, anchor, offset, by);
        self.pages = store.pages;
        self.slides = slides_noted(self.slides, noted, &store);
        result
    }

    /// Writes bytes into the anchor's block, from an offset on. Refused: `NoBlock` where the anchor has none,
    /// `BadRange` where the bytes would go beyond the block's end.
    pub fn put(
        &mut self,
        bytes: &mut [u8],
        anchor: Anchor,
        offset: usize,
        from: &[u8],
    ) -> Result<(), Refusal>
        requires slot { IsSlotBytes bytes.old self.old }
        requires anchor { anchor < ANCHORS }
        ensures left { LeavesSlot bytes.old bytes.new self.old self.new
            (no_answer (slot_put anchor offset from.now (lent_slot_in bytes.old self.old))) result }
        ensures slides { self.new.slides ≡ self.old.slides }
    {
        let LentSlot { pages, budge, .. } = *self;
        let mut store = LentPagesMut { bytes, pages };
        let slot = Slot { area: LENT, budge };
        let result = slot.put(&mut store, anchor, offset, from);
        self.pages = store.pages;
        result
    }

    /// Fills a buffer with bytes of the anchor's block, from an offset on. Refused, and the buffer left as it is:
    /// `NoBlock` where the anchor has none, `BadRange` where the bytes would go beyond the block's end.
    pub fn read(
        self,
        bytes: &[u8],
        anchor: Anchor,
        offset: usize,
        to: &mut [u8],
    ) -> Result<(), Refusal>
        requires slot { IsSlotBytes bytes.now self }
        requires anchor { anchor < ANCHORS }
        ensures answer { result ≡ outcome_of (slot_read anchor offset (length to.old) (lent_slot_in bytes.now self)) }
        ensures buffer { to.new ≡ result_or to.old (slot_read anchor offset (length to.old)
            (lent_slot_in bytes.now self)) }
    {
        let LentSlot { pages, budge, .. } = self;
        let store = LentPages { bytes, pages };
        let slot = Slot { area: LENT, budge };
        slot.read(&store, anchor, offset, to)
    }
}
