//! Bytes that are moved from one task's block to another's.

ghost use Rattle.rh_defs.specs.Laws.{IsDesk};
ghost use Rattle.rh_tasks.specs.WorldPolls.{Becomes};
ghost use Rattle.rh_tasks.specs.Shown.{IsSpelled, ShowsBalance, ShowsApartBlocks};
ghost use Rattle.rh_tasks.specs.TransferBlock.{transferred};

use crate::named_files::NamedFiles;
use crate::outgoing::{do_overlap, with_handle};
use crate::world::World;
use rh_defs::sizes::SLOT_START;
use rh_defs::{Handle, Refusal};
use rh_slot::write_from;
use rh_store::Store;

impl<S: Store, F: NamedFiles> World<S, F> {
    /// Moves n bytes from an address of one task's slot to an address of another's, or of its own. Refused: NoTask
    /// where one of the tasks isn't live, BadRange where a range isn't whole inside one live block or the two overlap.
    /// (Wimp_TransferBlock.)
    pub fn transfer_block(
        &mut self,
        from: Handle,
        address: u32,
        to: Handle,
        address2: u32,
        n: u32,
    ) -> Result<(), Refusal>
        ensures moves { Becomes (transferred self.old.desk from address to address2 n) self.old self.new result }
        ensures spelled { IsSpelled self.new }
        ensures apart { ShowsApartBlocks self.new }
        ensures balanced { ShowsBalance self.new }
        ensures desk { IsDesk self.new.desk }
    {
        let moved = self.move_block(from, address, to, address2, n);
        self.recall_spelling();
        moved
    }

    fn move_block(
        &mut self,
        from: Handle,
        address: u32,
        to: Handle,
        address2: u32,
        n: u32,
    ) -> Result<(), Refusal>
        ensures { Becomes (transferred self.old.desk from address to address2 n) self.old self.new result }
    {
        let i = with_handle(&self.seats, from).ok_or(Refusal::NoTask)?;
        let j = with_handle(&self.seats, to).ok_or(Refusal::NoTask)?;
        let source = self.seats[i].slot;
        let target = self.seats[j].slot;
        let (x, y, n) = (address as usize, address2 as usize, n as usize);
        if !source.inside(&self.store, x, n) || !target.inside(&self.store, y, n) {
            return Err(Refusal::BadRange);
        }
        if from == to && do_overlap(x, n, y, n) {
            return Err(Refusal::BadRange);
        }
        let place = x - SLOT_START;
        write_from(&mut self.store, target, y, n, source.area, place, n);
        Ok(())
    }
}
