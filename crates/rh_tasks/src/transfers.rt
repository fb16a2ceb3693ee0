//! Letters sent once more, and transfers that are given up.

ghost use Rattle.std.specs.Prelude.{◌≡◌, ◌<◌, true, length, Ok, Err};
ghost use Rattle.std.specs.Option.{option_map};
ghost use Rattle.rh_defs.specs.declared.command.Command.TheVariants as Command;
ghost use Rattle.rh_defs.specs.declared.transfer.Taking.{Taking};
ghost use Rattle.rh_defs.specs.Desk.{Task};
ghost use Rattle.rh_defs.specs.Receiver.{released_by};
ghost use Rattle.rh_defs.specs.Range.{in_range};
ghost use Rattle.rh_defs.specs.Commands.{cancel_in as cancel_in_on, cancel_out as cancel_out_on, repeat as repeat_on};
ghost use Rattle.rh_tasks.specs.Answer.{Gives};
ghost use Rattle.rh_tasks.specs.Inner.CommandAnswers.{GivesAlike};
ghost use Rattle.rh_tasks.specs.Inner.PollSteps.{IsAt};
ghost use Rattle.rh_tasks.specs.Inner.RawSteps.{GivesUp};

use crate::letters::{last_letter, send};
use crate::named_files::NamedFiles;
use crate::scrap::kept_scrap;
use crate::seats::find;
use crate::world::World;
use rh_defs::{Name, Ref, Refusal, Reply};
use rh_store::Store;

impl<S: Store, F: NamedFiles> World<S, F> {
    /// Sends the task's last letter once more, under another ref: NoName, NothingSent, NoTask, NoRefs, QueueFull,
    /// NoRoom.
    pub(crate) fn repeat(&mut self, name: &Name) -> Result<Reply, Refusal>
        requires { in_range (Command.Repeat name.now) ≡ true }
        ensures { GivesAlike (repeat_on self.old.desk name.now) self.old self.new result }
    {
        let i = find(&self.seats, name)?;
        let seat = &mut self.seats[i];
        let letter = last_letter(seat)?;
        let is_raw = seat.is_raw();
        let my_ref = send(&mut self.store, &mut self.queue, seat, letter)?;
        let said = Reply::Sent(my_ref);
        if !is_raw {
            return Ok(said);
        }
        self.scrap = kept_scrap(&self.store, &self.queue, self.scrap);
        Ok(said)
    }

    /// The buffer that goes where a transfer that comes in is given up.
    fn released_in(&self, i: usize, id: Option<Ref>) -> Option<u32>
        requires { i < length self.now.desk.tasks }
        ensures { (t : Task) → IsAt i t self.now.desk
            → result ≡ option_map (λ (f : Taking). f.buffer) (released_by id t.taking) }
    {
        let seat = &self.seats[i];
        seat.taking.released_buffer(id)
    }

    /// Gives up a transfer that comes in, in its record alone: NotOpen.
    fn give_up(&mut self, i: usize, id: Option<Ref>) -> Result<(), Refusal>
        requires { i < length self.old.desk.tasks }
        ensures { (t : Task) → IsAt i t self.old.desk → GivesUp id t self.old self.new result }
    {
        let seat = &mut self.seats[i];
        seat.taking.cancel(id)?;
        Ok(())
    }

    /// Gives up a transfer that comes in: the one with the id, without one the first. NoName, NotOpen. Where its sender
    /// has code of its own its buffer goes at once.
    pub(crate) fn cancel_in(&mut self, name: &Name, id: Option<Ref>) -> Result<Reply, Refusal>
        requires { in_range (Command.CancelIn name.now id) ≡ true }
        ensures { Gives (cancel_in_on self.old.desk name.now id) self.old self.new result }
    {
        let i = find(&self.seats, name)?;
        let wanted = id;
        let released = self.released_in(i, wanted);
        self.give_up(i, id)?;
        let Some(buffer) = released else {
            return Ok(Reply::Done);
        };
        self.drop_buffer(i, buffer);
        Ok(Reply::Done)
    }

    /// Gives up a transfer that goes out: the one with the id, without one the first. NoName, NotOpen.
    pub(crate) fn cancel_out(&mut self, name: &Name, id: Option<Ref>) -> Result<Reply, Refusal>
        requires { in_range (Command.CancelOut name.now id) ≡ true }
        ensures { Gives (cancel_out_on self.old.desk name.now id) self.old self.new result }
    {
        let i = find(&self.seats, name)?;
        let seat = &mut self.seats[i];
        seat.sending.cancel(id)?;
        Ok(Reply::Done)
    }
}
