//! Blocks of a task's C heap, and whether flex blocks give way to it.

ghost use Rattle.std.specs.Prelude.{◌≡◌, true, false, Ok, Err};
ghost use Rattle.std.specs.Option.{IfNone, IfSome};
ghost use Rattle.rh_defs.specs.declared.command.Command.TheVariants as Command;
ghost use Rattle.rh_defs.specs.Range.{in_range};
ghost use Rattle.rh_defs.specs.Commands.{claim as claim_on, release as release_on, resize as resize_on};
ghost use Rattle.rh_defs.specs.Commands.{budge as budge_on, change};
ghost use Rattle.rh_tasks.specs.Answer.{Gives};
ghost use Rattle.rh_tasks.specs.Inner.Nouns.{changes_heap};

use crate::named_files::NamedFiles;
use crate::seats::{find, idle_heap, slot_of};
use crate::world::World;
use rh_defs::{Command, Name, Refusal, Reply};
use rh_store::Store;

impl<S: Store, F: NamedFiles> World<S, F> {
    /// Carries out a command that changes a C heap; None of any other.
    pub(crate) fn heap_command(&mut self, command: &Command) -> Option<Result<Reply, Refusal>>
        requires ranged { in_range command.now ≡ true }
        ensures given { IfSome result (λ given. Gives (change self.old.desk command.now) self.old self.new given) }
        ensures other { IfNone result (changes_heap command.now ≡ false) }
        ensures same { IfNone result (self.new ≡ self.old) }
    {
        Some(match command {
            Command::Claim { name, size } => self.claim(name, *size),
            Command::Release { name, address } => self.release(name, *address),
            Command::Resize {
                name,
                address,
                delta,
            } => self.resize(name, *address, *delta),
            Command::Budge { name, on } => self.budge(name, *on),
            _ => return None,
        })
    }

    /// Claims a block of the task's C heap (OS_Heap 2): NoName, BadSize, NoBudge, NoRoom.
    pub(crate) fn claim(&mut self, name: &Name, size: u32) -> Result<Reply, Refusal>
        requires { in_range (Command.Claim name.now size) ≡ true }
        ensures { Gives (claim_on self.old.desk name.now size) self.old self.new result }
    {
        let slot = slot_of(&self.seats, name)?;
        let address = slot.claim(&mut self.store, size)?;
        Ok(Reply::Block {
            address: address as u32,
        })
    }

    /// Releases a block of the task's C heap (OS_Heap 3): NoName, NotABlock, Busy.
    pub(crate) fn release(&mut self, name: &Name, address: u32) -> Result<Reply, Refusal>
        requires { in_range (Command.Release name.now address) ≡ true }
        ensures { Gives (release_on self.old.desk name.now address) self.old self.new result }
    {
        let slot = idle_heap(&self.store, &self.seats, name, address)?;
        slot.release(&mut self.store, address as usize)?;
        Ok(Reply::Done)
    }

    /// Changes the size of a block of the task's C heap (OS_Heap 4): NoName, NotABlock, Busy, BadSize, NoBudge, NoRoom.
    pub(crate) fn resize(&mut self, name: &Name, address: u32, delta: i32) -> Result<Reply, Refusal>
        requires { in_range (Command.Resize name.now address delta) ≡ true }
        ensures { Gives (resize_on self.old.desk name.now address delta) self.old self.new result }
    {
        let slot = idle_heap(&self.store, &self.seats, name, address)?;
        let address = slot.resize(&mut self.store, address as usize, delta)?;
        Ok(Reply::Block {
            address: address as u32,
        })
    }

    /// Says whether flex blocks give way where the C heap grows (flex_set_budge): NoName.
    pub(crate) fn budge(&mut self, name: &Name, on: bool) -> Result<Reply, Refusal>
        requires { in_range (Command.Budge name.now on) ≡ true }
        ensures { Gives (budge_on self.old.desk name.now on) self.old self.new result }
    {
        let i = find(&self.seats, name)?;
        let seat = &mut self.seats[i];
        let was = seat.slot.set_budge(on);
        Ok(Reply::WasBudging(was))
    }
}
