//! Walks over the row of flex blocks of a slot in lent bytes.
ghost use Rattle.std.specs.Prelude.{◌≡◌, ◌+◌, length, slice_get, OnSome, IfNone};
ghost use Rattle.rh_defs.specs.Questions.{block_items};
ghost use Rattle.rh_lent_slot.specs.Slots.{IsSlotBytes, lent_slot_in};
ghost use Rattle.rh_slot.specs.Row.{WalksIn};

use crate::pages::LentPages;
use crate::slot::LentSlot;
use arrayvec::ArrayVec;
use rh_defs::BlockItem;
use rh_defs::sizes::ANCHORS;
use rh_lent_heap::LENT;
use rh_slot::{FlexWalk, Slot};

impl LentSlot {
    /// How many flex blocks the slot has.
    pub fn count(self, bytes: &[u8]) -> usize
        requires { IsSlotBytes bytes.now self }
        ensures { result ≡ length (lent_slot_in bytes.now self).blocks }
    {
        let LentSlot { pages, budge, .. } = self;
        let store = LentPages { bytes, pages };
        let slot = Slot { area: LENT, budge };
        slot.count(&store)
    }

    /// A walk that has passed none of the slot's flex blocks.
    pub fn blocks(self, bytes: &[u8]) -> FlexWalk
        requires { IsSlotBytes bytes.now self }
        ensures passed { result.passed ≡ 0 }
        ensures walk { WalksIn (lent_slot_in bytes.now self) result }
    {
        let LentSlot { pages, budge, .. } = self;
        let store = LentPages { bytes, pages };
        let slot = Slot { area: LENT, budge };
        slot.blocks(&store)
    }

    /// The next flex block of a walk: its anchor, address and size in bytes. `None` above the last one, where the walk
    /// stays.
    pub fn next_block(self, bytes: &[u8], walk: &mut FlexWalk) -> Option<BlockItem>
        requires slot { IsSlotBytes bytes.now self }
        requires walk { WalksIn (lent_slot_in bytes.now self) walk.old }
        ensures block { result ≡ slice_get (block_items (lent_slot_in bytes.now self)) walk.old.passed }
        ensures walk { WalksIn (lent_slot_in bytes.now self) walk.new }
        ensures passed { OnSome result (walk.new.passed ≡ walk.old.passed + 1) }
        ensures stays { IfNone result (walk.new ≡ walk.old) }
        ensures all { IfNone result (walk.new.passed ≡ length (lent_slot_in bytes.now self).blocks) }
    {
        let LentSlot { pages, budge, .. } = self;
        let store = LentPages { bytes, pages };
        let slot = Slot { area: LENT, budge };
        slot.next_block(&store, walk)
    }

    /// Puts all flex blocks from below into a list, in place of what it held: the anchor, address and size in bytes of
    /// each.
    pub fn list(self, bytes: &[u8], items: &mut ArrayVec<BlockItem, ANCHORS>)
        requires { IsSlotBytes bytes.now self }
        ensures { items.new.items ≡ block_items (lent_slot_in bytes.now self) }
    {
        let LentSlot { pages, budge, .. } = self;
        let store = LentPages { bytes, pages };
        let slot = Slot { area: LENT, budge };
        slot.list(&store, items);
    }

    /// Flex block `i` from below, from 0 on: its anchor, address and size in bytes.
    pub fn block(self, bytes: &[u8], i: usize) -> Option<BlockItem>
        requires { IsSlotBytes bytes.now self }
        ensures { result ≡ slice_get (block_items (lent_slot_in bytes.now self)) i }
    {
        let LentSlot { pages, budge, .. } = self;
        let store = LentPages { bytes, pages };
        let slot = Slot { area: LENT, budge };
        slot.block(&store, i)
    }
}
