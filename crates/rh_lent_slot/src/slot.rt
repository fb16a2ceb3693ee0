//! A slot in lent bytes: what of it doesn't stand in them, how it begins, whether its blocks give way, and what lies
//! inside it.
ghost use Rattle.std.specs.Prelude.{◌≡◌, ◌/◌, ◌≤◌, List, ℕ, length, true, IfOk, OnErr};
ghost use Rattle.rh_defs.specs.Chain.{no_answer, outcome_of};
ghost use Rattle.rh_defs.specs.Slot.{holds, new_slot, slot_begin, slot_set_budge};
ghost use Rattle.rh_defs.specs.declared.sizes.TheConstants.{PAGE};
ghost use Rattle.rh_lent_slot.specs.Slots.{IsSlotBytes, LeavesSlot, lent_slot_in};
ghost use Rattle.rh_lent_slot.specs.Write.{slot_write};
ghost use Rattle.rh_store.specs.Limits.{area_limit};

use crate::pages::LentPages;
use crate::pages_mut::LentPagesMut;
use rh_defs::Refusal;
use rh_defs::sizes::{C_HEAP_LENGTH, C_HEAP_PLACE, PAGE, SLOT_START};
use rh_heap::Span;
use rh_lent_heap::LENT;
use rh_slot::Slot;
use rh_store::WordsMut;
use rh_store::bytes::zero_in;

/// Where the C heap stands.
const C_HEAP: Span = Span {
    area: LENT,
    at: C_HEAP_PLACE,
};

/// What of a slot in lent bytes doesn't stand in them: how many pages it has, from the first byte on, whether budging
/// is on, and how many calls have moved a block. Places of blocks that were asked for hold as long as this count does.
///
/// The whole pages behind the slot's are free. A call may take some of them for the slot, and says nothing of what
/// they hold then. Between calls they are the caller's. A slot ends where its bytes are used for something else.
#[repr(C)]
#[derive(Clone, Copy, Debug, PartialEq, Eq)]
pub struct LentSlot {
    pub pages: usize,
    pub budge: bool,
    pub slides: u32,
}

impl LentSlot {
    /// Makes the first page a slot with no block, budging on. Refused (`NoRoom`), and no byte changed, where the bytes
    /// are fewer than a page.
    pub fn start(bytes: &mut [u8]) -> Result<LentSlot, Refusal>
        requires { length bytes.old ≤ area_limit }
        ensures answer { outcome_of result ≡ outcome_of (slot_begin (length bytes.old / PAGE)) }
        ensures slot { IfOk result (λ slot. lent_slot_in bytes.new slot ≡ new_slot) }
        ensures spells { IfOk result (λ slot. IsSlotBytes bytes.new slot) }
        ensures budge { IfOk result (λ slot. slot.budge ≡ true) }
        ensures slides { IfOk result (λ slot. slot.slides ≡ 0) }
        ensures err { OnErr result (bytes.new ≡ bytes.old) }
    {
        if bytes.len() < PAGE {
            return Err(Refusal::NoRoom);
        }
        zero_in(bytes, 0, PAGE);
        let mut store = LentPagesMut { bytes, pages: 1 };
        rh_heap::init(&mut store, C_HEAP, C_HEAP_LENGTH);
        let pages = store.pages;
        Ok(LentSlot {
            pages,
            budge: true,
            slides: 0,
        })
    }

    /// Turns budging on or off, and answers whether it was on. (flex_set_budge.)
    pub fn set_budge(&mut self, on: bool) -> bool
        ensures slot { self.new ≡ record { pages = self.old.pages; budge = on; slides = self.old.slides } }
        ensures answer { result ≡ self.old.budge }
        ensures still { (b : List ℕ) → IsSlotBytes b self.old → IsSlotBytes b self.new }
        ensures spelled { (b : List ℕ) → (lent_slot_in b self.new, result) ≡ slot_set_budge on
            (lent_slot_in b self.old) }
    {
        let was = self.budge;
        self.budge = on;
        was
    }

    /// Whether the `n` bytes at an address lie whole in one block of the C heap or in one flex block. Any address and
    /// any `n` may be asked for.
    pub fn inside(self, bytes: &[u8], address: usize, n: usize) -> bool
        requires { IsSlotBytes bytes.now self }
        ensures { result ≡ holds address n (lent_slot_in bytes.now self) }
    {
        let LentSlot { pages, budge, .. } = self;
        let store = LentPages { bytes, pages };
        let slot = Slot { area: LENT, budge };
        slot.inside(&store, address, n)
    }

    /// Writes bytes at an address. Refused (`BadRange`) where no block of the slot holds as many bytes there.
    pub fn write(&mut self, bytes: &mut [u8], address: usize, from: &[u8]) -> Result<(), Refusal>
        requires { IsSlotBytes bytes.old self.old }
        ensures left { LeavesSlot bytes.old bytes.new self.old self.new
            (no_answer (slot_write address from.now (lent_slot_in bytes.old self.old))) result }
        ensures slides { self.new.slides ≡ self.old.slides }
    {
        let LentSlot { pages, budge, .. } = *self;
        let mut store = LentPagesMut { bytes, pages };
        let slot = Slot { area: LENT, budge };
        if !slot.inside(&store, address, from.len()) {
            return Err(Refusal::BadRange);
        }
        store.copy_in(LENT, address - SLOT_START, from);
        self.pages = store.pages;
        Ok(())
    }
}
