//! DataSaves that are taken: a buffer, an empty document and a fetch, whole or not at all.

ghost use Rattle.std.specs.Prelude.{◌≡◌, ◌<◌, ℕ, length, Ok, IsErr, is_ok};
ghost use Rattle.std.specs.Option.{MatchOption};
ghost use Rattle.rh_defs.specs.Desk.{Desk, Task, free_pages};
ghost use Rattle.rh_defs.specs.declared.reply.Outcome.TheVariants as outcome;
ghost use Rattle.rh_defs.specs.declared.transfer_action.TakeAction.TheVariants as take_action;
ghost use Rattle.rh_defs.specs.IncomingEvents.{accept as accept_on, is_deaf as is_deaf_on, take_with};
ghost use Rattle.rh_defs.specs.Order.{IsReordered};
ghost use Rattle.rh_defs.specs.Slot.{anchor_count, slot_claim};
ghost use Rattle.rh_tasks.specs.WorldPolls.{Becomes};
ghost use Rattle.rh_tasks.specs.Inner.PollSteps.{IsAt, CanTake, IsFreeAnchor, Claims, Handles, with_document};

use crate::module_area::MODULE;
use crate::named_files::NamedFiles;
use crate::world::World;
use rh_defs::{Anchor, Claim, Manner, Outcome, Ref, Refusal};
use rh_ram::{fetch_letter, first_fetch};
use rh_slot::free_anchor;
use rh_store::Store;

/// Whether a task in this manner takes no DataSave.
pub(crate) fn is_deaf(manner: Manner) -> bool
    ensures { result ≡ is_deaf_on manner }
{
    match manner {
        Manner::Deaf => true,
        Manner::Plain | Manner::File | Manner::Raw => false,
    }
}

impl<S: Store, F: NamedFiles> World<S, F> {
    /// Claims a buffer in the task's C heap: BadSize, NoBudge, NoRoom.
    fn claim_buffer(&mut self, i: usize, n: u32) -> Result<u32, Refusal>
        requires { i < length self.old.desk.tasks }
        ensures { (t : Task) → IsAt i t self.old.desk
            → Claims t.handle (slot_claim (free_pages self.old.desk) n t.slot) self.old self.new result }
    {
        let seat = &self.seats[i];
        let slot = seat.slot;
        let address = slot.claim(&mut self.store, n)?;
        Ok(address as u32)
    }

    /// Puts an empty document on top of the task's slot: AnchorInUse, NoRoom.
    fn alloc_document(&mut self, i: usize, anchor: Anchor) -> Result<(), Refusal>
        requires place { i < length self.old.desk.tasks }
        requires anchor { anchor < anchor_count }
        ensures { (t : Task) → IsAt i t self.old.desk
            → Becomes (with_document self.old.desk t anchor) self.old self.new result }
    {
        let seat = &self.seats[i];
        let slot = seat.slot;
        slot.alloc(&mut self.store, anchor, 0)?;
        Ok(())
    }

    /// Whether a buffer, an empty document and the fetch are all granted, where an anchor is free.
    fn has_room(&self, i: usize, a: &Claim) -> bool
        requires { i < length self.now.desk.tasks }
        ensures { (t : Task) (k : ℕ) → IsAt i t self.now.desk → IsFreeAnchor k t.slot
            → result ≡ is_ok (accept_on self.now.desk t a.now) }
    {
        let seat = &self.seats[i];
        let letter = fetch_letter(seat.handle, &first_fetch(a, 0, seat.buffer));
        let Ok(pages) = seat.slot.take_pages(&self.store, seat.buffer) else {
            return false;
        };
        let Ok(more) = self.queue.send_pages(&self.store, MODULE, &letter) else {
            return false;
        };
        let free = self.store.free_pages();
        pages <= free && more <= free - pages
    }

    /// A buffer, an empty document and a fetch for a DataSave. None, and nothing changed, where one of them isn't
    /// granted.
    fn accept(&mut self, i: usize, a: &Claim) -> Option<Ref>
        requires place { i < length self.old.desk.tasks }
        requires due { CanTake i (take_action.Claim a.now) self.old.desk }
        ensures { (t : Task) → IsAt i t self.old.desk
            → MatchOption result
            (IsErr (accept_on self.old.desk t a.now) × (self.new ≡ self.old))
            (λ fetch. (d : Desk)
            × ((accept_on self.old.desk t a.now ≡ Ok (d, outcome.Fetch fetch)) × IsReordered d self.new.desk)) }
    {
        let seat = &self.seats[i];
        let (handle, room) = (seat.handle, seat.buffer);
        let anchor = free_anchor(&self.store, seat.slot)?;
        if !self.has_room(i, a) {
            return None;
        }
        let buffer = self.claim_buffer(i, room).unwrap();
        self.alloc_document(i, anchor).unwrap();
        let letter = fetch_letter(handle, &first_fetch(a, buffer, room));
        let fetch = self.send_from(i, letter).unwrap();
        self.edit_taking(i, |records| records.fetching(a, anchor, buffer, fetch));
        Some(fetch)
    }

    /// Takes a DataSave, where all is granted.
    pub(crate) fn take_offer(&mut self, i: usize, a: &Claim) -> Outcome
        requires place { i < length self.old.desk.tasks }
        requires due { CanTake i (take_action.Claim a.now) self.old.desk }
        ensures { (t : Task) → IsAt i t self.old.desk
            → Handles (take_with self.old.desk t (take_action.Claim a.now)) self.new result }
    {
        match self.accept(i, a) {
            Some(fetch) => Outcome::Fetch(fetch),
            None => Outcome::Ignored,
        }
    }
}
