//! Slots in bytes from anywhere: whether their first pages are one, so that the other calls may be made.
ghost use Rattle.std.specs.Prelude.{◌≡◌, ◌↔◌, ◌*◌, IsOk, IfOk};
ghost use Rattle.rh_defs.specs.declared.sizes.TheConstants.{PAGE};
ghost use Rattle.rh_lent_slot.specs.LentSlotChecks.{IsShortSlot, pages_fault_of};
ghost use Rattle.rh_lent_slot.specs.Slots.{lent_slot_in};
ghost use Rattle.rh_slot.specs.SlotChecks.{slot_fault_in, slot_summary};

use crate::slot::LentSlot;
use rh_defs::sizes::PAGE;
use rh_slot::{SlotFault, SlotSummary};

/// The most bytes that are lent: 1 GiB.
const MOST_LENT: usize = 0x4000_0000;

impl LentSlot {
    /// What a slot of these pages consists of, where the bytes, which may come from anywhere, have it. Then all other
    /// calls may be made. Else the first fault, as `rh_slot::check` answers it; it is `BadLength` too where the pages
    /// don't lie in the bytes, or the bytes are more than 1 GiB.
    pub fn check(self, bytes: &[u8]) -> Result<SlotSummary, SlotFault>
        ensures ok { IsOk result ↔ IsShortSlot bytes.now self }
        ensures sums { IfOk result (λ sums. sums ≡ slot_summary (PAGE * self.pages) (lent_slot_in bytes.now self)) }
        ensures fault { slot_fault_in result ≡ pages_fault_of bytes.now self }
    {
        let len = bytes.len();
        if MOST_LENT < len || len / PAGE < self.pages {
            return Err(SlotFault::BadLength);
        }
        rh_slot::check(&bytes[..PAGE * self.pages])
    }
}
