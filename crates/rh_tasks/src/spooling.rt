//! The scrap file, as tasks with code of their own make and load it.

ghost use Rattle.std.specs.Prelude.{◌≡◌, ◌<◌, true, length};
ghost use Rattle.rh_defs.specs.declared.command.Command.TheVariants as Command;
ghost use Rattle.rh_defs.specs.declared.raw_command.RawCommand.TheVariants as raw;
ghost use Rattle.rh_defs.specs.Desk.{Task};
ghost use Rattle.rh_defs.specs.Range.{in_range};
ghost use Rattle.rh_defs.specs.RawCommands.{scrap as scrap_on, spool as spool_on};
ghost use Rattle.rh_tasks.specs.Answer.{Gives};
ghost use Rattle.rh_tasks.specs.Inner.CommandAnswers.{GivesAlike};
ghost use Rattle.rh_tasks.specs.Inner.PollSteps.{IsAt};
ghost use Rattle.rh_tasks.specs.Inner.RawSteps.{file_room as file_room_on, held_size};

use crate::documents::document_size;
use crate::module_area::MODULE;
use crate::named_files::NamedFiles;
use crate::raw_commands::letter_refusal;
use crate::scrap::SCRAP;
use crate::seats::find;
use crate::world::World;
use rh_defs::sizes::{PAGE, pages_for};
use rh_defs::{Anchor, Handle, Letter, Name, Ref, Refusal, Reply};
use rh_ram::spool_letter;
use rh_slot::put_from;
use rh_store::Store;

impl<S: Store, F: NamedFiles> World<S, F> {
    /// The pages that area 5 lacks for a file of so many bytes, where these and the file's letter have room: NoTask,
    /// NoRefs, QueueFull, NoRoom.
    fn file_room(&self, letter: &Letter, size: u32) -> Result<usize, Refusal>
        ensures { result ≡ file_room_on self.now.desk letter.now size }
    {
        let more = self.queue.send_pages(&self.store, MODULE, letter)?;
        let wider = pages_for(size as usize).saturating_sub(self.store.len(SCRAP) / PAGE);
        let free = self.store.free_pages();
        if free < wider {
            return Err(Refusal::NoRoom);
        }
        if free - wider < more {
            return Err(Refusal::NoRoom);
        }
        Ok(wider)
    }

    /// Makes a flex block the scrap file, and tells a task of it: NoName, NoBlock, Busy, NoTask, NoRefs, QueueFull,
    /// NoRoom, WrongManner, BadRef.
    pub(crate) fn spool(
        &mut self,
        name: &Name,
        anchor: Anchor,
        to: Handle,
        your_ref: Ref,
    ) -> Result<Reply, Refusal>
        requires { in_range (Command.Raw (raw.Spool name.now anchor to your_ref)) ≡ true }
        ensures { GivesAlike (spool_on self.old.desk name.now anchor to your_ref) self.old self.new result }
    {
        let i = find(&self.seats, name)?;
        let seat = &self.seats[i];
        let size = document_size(&self.store, seat.slot, anchor)?;
        if self.scrap.is_some() {
            return Err(Refusal::Busy);
        }
        let letter = spool_letter(seat.handle, to, your_ref, size);
        let wider = self.file_room(&letter, size)?;
        let seat = &self.seats[i];
        if let Some(refusal) = letter_refusal(seat, your_ref, self.queue.next_ref()) {
            return Err(refusal);
        }
        self.widen_scrap(wider);
        let load = self.send_from(i, letter).unwrap();
        self.fill_scrap(i, anchor, size, load);
        Ok(Reply::Sent(load))
    }

    /// The size of the scrap file, where the task at a place holds its DataLoad: NoFile.
    fn held_file(&self, i: usize) -> Result<u32, Refusal>
        requires { i < length self.now.desk.tasks }
        ensures { (t : Task) → IsAt i t self.now.desk → result ≡ held_size self.now.desk t }
    {
        let Some(file) = self.scrap else {
            return Err(Refusal::NoFile);
        };
        let seat = &self.seats[i];
        let Some(message) = self.queue.held(&self.store, MODULE, seat.handle) else {
            return Err(Refusal::NoFile);
        };
        if message.my_ref != file.load {
            return Err(Refusal::NoFile);
        }
        Ok(file.size)
    }

    /// Puts a flex block with the scrap file's bytes on top of the task's slot; the file stays: NoName, NoFile,
    /// AnchorInUse, NoRoom, WrongManner.
    pub(crate) fn load_scrap(&mut self, name: &Name, anchor: Anchor) -> Result<Reply, Refusal>
        requires { in_range (Command.Raw (raw.Scrap name.now anchor)) ≡ true }
        ensures { Gives (scrap_on self.old.desk name.now anchor) self.old self.new result }
    {
        let i = find(&self.seats, name)?;
        let size = self.held_file(i)?;
        let seat = &self.seats[i];
        let slot = seat.slot;
        slot.can_alloc(&self.store, anchor, size)?;
        if !seat.is_raw() {
            return Err(Refusal::WrongManner);
        }
        let address = slot.alloc(&mut self.store, anchor, size).unwrap();
        put_from(&mut self.store, slot, anchor, 0, SCRAP, 0, size as usize).unwrap();
        Ok(Reply::Block {
            address: address as u32,
        })
    }
}
