//! Blocks of the module area that commands claim (the RMA's).

ghost use Rattle.std.specs.Prelude.{◌≡◌, ◌-◌, true, false, Ok, Err, IfOk, IfErr};
ghost use Rattle.std.specs.Option.{IfNone, IfSome};
ghost use Rattle.rh_defs.specs.declared.command.Command.TheVariants as Command;
ghost use Rattle.rh_defs.specs.Range.{in_range};
ghost use Rattle.rh_defs.specs.Commands.{own_block, rma_claim as rma_claim_on, rma_free as rma_free_on};
ghost use Rattle.rh_defs.specs.Commands.{rma_resize as rma_resize_on, change};
ghost use Rattle.rh_defs.specs.Desk.{module_start};
ghost use Rattle.rh_defs.specs.Post.{post_is_message};
ghost use Rattle.rh_tasks.specs.Answer.{Gives};
ghost use Rattle.rh_tasks.specs.Inner.Nouns.{changes_module};

use crate::module_area::MODULE;
use crate::named_files::NamedFiles;
use crate::world::World;
use rh_defs::sizes::MODULE_START;
use rh_defs::{Command, Refusal, Reply};
use rh_store::Store;

impl<S: Store, F: NamedFiles> World<S, F> {
    /// Carries out a command that changes blocks of the module area; None of any other.
    pub(crate) fn module_command(&mut self, command: &Command) -> Option<Result<Reply, Refusal>>
        requires ranged { in_range command.now ≡ true }
        ensures given { IfSome result (λ given. Gives (change self.old.desk command.now) self.old self.new given) }
        ensures other { IfNone result (changes_module command.now ≡ false) }
        ensures same { IfNone result (self.new ≡ self.old) }
    {
        Some(match command {
            Command::RmaClaim { size } => self.rma_claim(*size),
            Command::RmaFree { address } => self.rma_free(*address),
            Command::RmaResize { address, delta } => self.rma_resize(*address, *delta),
            _ => return None,
        })
    }

    /// Claims a block of the module area (OS_Module 6): BadSize, NoRoom.
    pub(crate) fn rma_claim(&mut self, size: u32) -> Result<Reply, Refusal>
        requires { in_range (Command.RmaClaim size) ≡ true }
        ensures { Gives (rma_claim_on self.old.desk size) self.old self.new result }
    {
        let address = MODULE.claim(&mut self.store, size)?;
        Ok(Reply::Block {
            address: (MODULE_START + address) as u32,
        })
    }

    /// The place of the address in the module area, where no message lies: NotABlock, NotYours. Whether a block is
    /// there, the module area's own call finds out.
    pub(crate) fn own_place(&self, address: u32) -> Result<usize, Refusal>
        ensures ok { IfOk result (λ place. (place ≡ address - module_start) ×
            (post_is_message (address - module_start) self.now.desk.post ≡ false)) }
        ensures err { IfErr result (λ e. own_block address self.now.desk ≡ Err e) }
    {
        let place = (address as usize).saturating_sub(MODULE_START);
        if !self.queue.is_message(&self.store, MODULE, place) {
            return Ok(place);
        }
        MODULE.block_size(&self.store, place)?;
        Err(Refusal::NotYours)
    }

    /// Frees a block of the module area (OS_Module 7): NotABlock, NotYours.
    pub(crate) fn rma_free(&mut self, address: u32) -> Result<Reply, Refusal>
        requires { in_range (Command.RmaFree address) ≡ true }
        ensures { Gives (rma_free_on self.old.desk address) self.old self.new result }
    {
        let place = self.own_place(address)?;
        MODULE.free(&mut self.store, place)?;
        Ok(Reply::Done)
    }

    /// Changes the size of a block of the module area (OS_Module 13): NotABlock, NotYours, BadSize, NoRoom.
    pub(crate) fn rma_resize(&mut self, address: u32, delta: i32) -> Result<Reply, Refusal>
        requires { in_range (Command.RmaResize address delta) ≡ true }
        ensures { Gives (rma_resize_on self.old.desk address delta) self.old self.new result }
    {
        let place = self.own_place(address)?;
        let address = MODULE.resize(&mut self.store, place, delta)?;
        Ok(Reply::Block {
            address: (MODULE_START + address) as u32,
        })
    }
}
