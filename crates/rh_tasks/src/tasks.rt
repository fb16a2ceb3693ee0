//! Tasks that begin and end.

ghost use Rattle.std.specs.Prelude.{◌≡◌, true, Ok, Err};
ghost use Rattle.rh_defs.specs.declared.command.Command.TheVariants as Command;
ghost use Rattle.rh_defs.specs.Range.{in_range};
ghost use Rattle.rh_defs.specs.Commands.{start_task as start_on, kill as kill_on};
ghost use Rattle.rh_tasks.specs.Answer.{Gives};
ghost use Rattle.rh_tasks.specs.Inner.CommandAnswers.{GivesAlike};

use crate::module_area::MODULE;
use crate::named_files::NamedFiles;
use crate::scrap::kept_scrap;
use crate::seat::Seat;
use crate::seats::{find, is_name_in_use};
use crate::world::World;
use rh_defs::sizes::MAX_TASKS;
use rh_defs::{Handle, Manner, Name, Refusal, Reply};
use rh_ram::{Receiver, Sender};
use rh_slot::Slot;
use rh_store::Store;

impl<S: Store, F: NamedFiles> World<S, F> {
    /// Starts a task with a fresh slot: NameInUse, TooManyTasks, NoHandles, NoRoom.
    pub(crate) fn start_task(
        &mut self,
        name: &Name,
        buffer: u32,
        manner: Manner,
    ) -> Result<Reply, Refusal>
        requires { in_range (Command.Task name.now buffer manner) ≡ true }
        ensures { Gives (start_on self.old.desk name.now buffer manner) self.old self.new result }
    {
        if is_name_in_use(&self.seats, name) {
            return Err(Refusal::NameInUse);
        }
        if self.seats.len() >= MAX_TASKS {
            return Err(Refusal::TooManyTasks);
        }
        if self.next.handle > u64::from(u32::MAX) {
            return Err(Refusal::NoHandles);
        }
        let slot = Slot::start(&mut self.store)?;
        let handle = Handle(self.next.handle as u32);
        let sending = Sender::new();
        let taking = Receiver::new();
        self.seats.push(Seat {
            handle,
            name: name.copied(),
            buffer,
            manner,
            slot,
            sending,
            taking,
            last_sent: None,
        });
        self.queue.join(handle);
        self.next.handle += 1;
        Ok(Reply::Started(handle))
    }

    /// Ends a task: its messages bounce or vanish, and its slot's pages are free from then on: NoName.
    pub(crate) fn kill(&mut self, name: &Name) -> Result<Reply, Refusal>
        requires { in_range (Command.Kill name.now) ≡ true }
        ensures { GivesAlike (kill_on self.old.desk name.now) self.old self.new result }
    {
        let i = find(&self.seats, name)?;
        let seat = self.seats.remove(i);
        self.queue
            .bounce_for_death(&mut self.store, MODULE, seat.handle);
        seat.slot.end(&mut self.store);
        self.scrap = kept_scrap(&self.store, &self.queue, self.scrap);
        Ok(Reply::Done)
    }
}
