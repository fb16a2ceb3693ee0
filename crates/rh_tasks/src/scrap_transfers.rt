//! Transfers by way of the scrap file.

ghost use Rattle.std.specs.Prelude.{◌≡◌, ◌<◌, ◌≤◌, ◌*◌, length, slice_index, Ok, Some, None};
ghost use Rattle.rh_defs.specs.declared.transfer_action.SendAction.TheVariants as send_action;
ghost use Rattle.rh_defs.specs.declared.transfer_action.TakeAction.TheVariants as take_action;
ghost use Rattle.rh_defs.specs.Desk.{Task, Scrap, free_pages, scrap_area};
ghost use Rattle.rh_defs.specs.Pieces.{Split, page_size};
ghost use Rattle.rh_defs.specs.IncomingEvents.{appended, loaded as loaded_on, load_file as load_file_on};
ghost use Rattle.rh_defs.specs.OutgoingEvents.{wider};
ghost use Rattle.rh_defs.specs.Slot.{Flex, slot_block, slot_size};
ghost use Rattle.rh_tasks.specs.WorldPolls.{Becomes};
ghost use Rattle.rh_tasks.specs.Inner.PollSteps.{IsAt, CanSend, CanTake, Attempts, Handles, scrapped};

use crate::documents::{append, document_size};
use crate::module_area::MODULE;
use crate::named_files::NamedFiles;
use crate::scrap::{SCRAP, ScrapFile, scrap_size};
use crate::world::World;
use rh_defs::sizes::{PAGE, SLOT_START, pages_for};
use rh_defs::{Anchor, LoadFile, Outcome, Ref, Refusal, SaveFile, TakeAction};
use rh_ram::{load_ack_letter, load_letter};
use rh_store::Store;

impl<S: Store, F: NamedFiles> World<S, F> {
    /// The source becomes the scrap file, and the DataLoad is sent, whole or not at all: NoBlock, Busy, NoTask, NoRefs,
    /// QueueFull, NoRoom.
    pub(crate) fn save_scrap(&mut self, i: usize, a: &SaveFile) -> Result<Outcome, Refusal>
        requires place { i < length self.old.desk.tasks }
        requires due { CanSend i (send_action.SaveFile a.now) self.old.desk }
        ensures { (t : Task) → IsAt i t self.old.desk
            → Attempts (scrapped self.old.desk t a.now) self.old self.new result }
    {
        let seat = &self.seats[i];
        let size = document_size(&self.store, seat.slot, a.transfer.anchor)?;
        if self.scrap.is_some() {
            return Err(Refusal::Busy);
        }
        let letter = load_letter(seat.handle, a, size);
        let more = self.queue.send_pages(&self.store, MODULE, &letter)?;
        let wider = pages_for(size as usize).saturating_sub(self.store.len(SCRAP) / PAGE);
        let free = self.store.free_pages();
        if free < wider {
            return Err(Refusal::NoRoom);
        }
        if free - wider < more {
            return Err(Refusal::NoRoom);
        }
        self.widen_scrap(wider);
        let load = self.send_from(i, letter).unwrap();
        self.fill_scrap(i, a.transfer.anchor, size, load);
        self.edit_sending(i, |records| records.saved(a, load));
        Ok(Outcome::Saved { count: size, load })
    }

    /// Puts the scrap file's bytes at the end of a document: NoBlock, NoRoom.
    fn append_scrap(&mut self, i: usize, anchor: Anchor) -> Result<(), Refusal>
        requires { i < length self.old.desk.tasks }
        ensures { (t : Task) (file : Scrap) → IsAt i t self.old.desk → self.old.desk.scrap ≡ Some file
            → Becomes (appended self.old.desk t anchor file.bytes) self.old self.new result }
    {
        let seat = &self.seats[i];
        let slot = seat.slot;
        let size = scrap_size(self.scrap);
        append(&mut self.store, slot, anchor, SCRAP, 0, size as usize)
    }

    /// The document has all n bytes of the file, and the sender is told.
    fn loaded(&mut self, i: usize, a: &LoadFile, n: u32) -> Outcome
        requires place { i < length self.old.desk.tasks }
        requires due { CanTake i (take_action.LoadFile a.now) self.old.desk }
        ensures { (t : Task) → IsAt i t self.old.desk → Handles (loaded_on self.old.desk t a.now n) self.new result }
    {
        let seat = &self.seats[i];
        let letter = load_ack_letter(seat.handle, a, n);
        match self.send_from(i, letter) {
            Ok(_) => {
                self.edit_taking(i, |records| records.loaded(a, n));
                Outcome::Loaded { count: n }
            }
            Err(refusal) => {
                self.edit_taking(i, |records| records.failed(&TakeAction::LoadFile(*a), n));
                Outcome::LoadedFailed { count: n, refusal }
            }
        }
    }

    /// The file of a DataLoad becomes the document, and is given up. Another file is none of this transfer's.
    pub(crate) fn load_file(&mut self, i: usize, a: &LoadFile) -> Outcome
        requires place { i < length self.old.desk.tasks }
        requires due { CanTake i (take_action.LoadFile a.now) self.old.desk }
        ensures { (t : Task) → IsAt i t self.old.desk
            → Handles (load_file_on self.old.desk t a.now self.old.desk.scrap) self.new result }
    {
        let Some(file) = self.scrap else {
            return Outcome::Ignored;
        };
        if file.load != a.answers {
            return Outcome::Ignored;
        }
        match self.append_scrap(i, a.transfer.anchor) {
            Ok(()) => {
                self.drop_scrap();
                self.loaded(i, a, file.size)
            }
            Err(refusal) => {
                self.edit_taking(i, |records| records.failed(&TakeAction::LoadFile(*a), 0));
                Outcome::Refused(refusal)
            }
        }
    }

    /// Gives the scrap file up.
    fn drop_scrap(&mut self)
        ensures { self.new.desk ≡ record self.old.desk { scrap = None } }
    {
        self.scrap = None;
    }

    /// Makes area 5 so many pages longer.
    pub(crate) fn widen_scrap(&mut self, more: usize)
        requires { more ≤ free_pages self.old.desk }
        ensures { self.new.desk ≡ wider more self.old.desk }
    {
        self.store.grow(SCRAP, more).unwrap();
    }

    /// The block at the anchor becomes the scrap file, for which area 5 has room and which the DataLoad with the ref
    /// tells.
    pub(crate) fn fill_scrap(&mut self, i: usize, anchor: Anchor, size: u32, load: Ref)
        requires place { i < length self.old.desk.tasks }
        requires room { size ≤ page_size * slice_index self.old.desk.areas scrap_area }
        requires block { (t : Task) → IsAt i t self.old.desk → slot_size anchor t.slot ≡ Ok size }
        ensures { (t : Task) (source : Split Flex) → IsAt i t self.old.desk → slot_block anchor t.slot ≡ Ok source
            → self.new.desk ≡ record self.old.desk {
              scrap = Some (record { load = load; bytes = source.here.bytes });
            } }
    {
        let seat = &self.seats[i];
        let slot = seat.slot;
        let address = slot.address(&self.store, anchor).unwrap();
        self.store
            .copy(slot.area, address - SLOT_START, SCRAP, 0, size as usize);
        self.scrap = Some(ScrapFile { load, size });
    }
}
