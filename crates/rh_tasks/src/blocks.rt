//! Flex blocks: the commands that change them.

ghost use Rattle.std.specs.Prelude.{◌≡◌, true, false, Ok, Err};
ghost use Rattle.std.specs.Option.{IfNone, IfSome};
ghost use Rattle.rh_defs.specs.declared.command.Command.TheVariants as Command;
ghost use Rattle.rh_defs.specs.Range.{in_range};
ghost use Rattle.rh_defs.specs.Commands.{alloc as alloc_on, load as load_on, put as put_on, free as free_on};
ghost use Rattle.rh_defs.specs.Commands.{extend as extend_on, mid as mid_on, change};
ghost use Rattle.rh_tasks.specs.Answer.{Gives};
ghost use Rattle.rh_tasks.specs.Inner.Nouns.{changes_blocks};

use crate::named_files::NamedFiles;
use crate::seats::{idle_slot, slot_of};
use crate::world::World;
use rh_defs::{Anchor, Command, Name, Refusal, Reply};
use rh_store::Store;

impl<S: Store, F: NamedFiles> World<S, F> {
    /// Carries out a command that changes flex blocks; None of any other.
    pub(crate) fn block_command(&mut self, command: &Command) -> Option<Result<Reply, Refusal>>
        requires ranged { in_range command.now ≡ true }
        ensures given { IfSome result (λ given. Gives (change self.old.desk command.now) self.old self.new given) }
        ensures other { IfNone result (changes_blocks command.now ≡ false) }
        ensures same { IfNone result (self.new ≡ self.old) }
    {
        Some(match command {
            Command::Alloc { name, anchor, size } => self.alloc(name, *anchor, *size),
            Command::Load { name, anchor, file } => self.load(name, *anchor, file),
            Command::Put {
                name,
                anchor,
                offset,
                bytes,
            } => self.put(name, *anchor, *offset, bytes.as_slice()),
            Command::Free { name, anchor } => self.free(name, *anchor),
            Command::Extend { name, anchor, size } => self.extend(name, *anchor, *size),
            Command::Mid {
                name,
                anchor,
                offset,
                by,
            } => self.mid(name, *anchor, *offset, *by),
            _ => return None,
        })
    }

    /// Puts a block of zeros on top of the task's slot (flex_alloc): NoName, AnchorInUse, NoRoom.
    pub(crate) fn alloc(&mut self, name: &Name, anchor: Anchor, size: u32) -> Result<Reply, Refusal>
        requires { in_range (Command.Alloc name.now anchor size) ≡ true }
        ensures { Gives (alloc_on self.old.desk name.now anchor size) self.old self.new result }
    {
        let slot = slot_of(&self.seats, name)?;
        let address = slot.alloc(&mut self.store, anchor, size)?;
        Ok(Reply::Block {
            address: address as u32,
        })
    }

    /// Puts a block with a named file's bytes on top of the task's slot: NoName, NoFile, AnchorInUse, NoRoom.
    pub(crate) fn load(
        &mut self,
        name: &Name,
        anchor: Anchor,
        file: &Name,
    ) -> Result<Reply, Refusal>
        requires { in_range (Command.Load name.now anchor file.now) ≡ true }
        ensures { Gives (load_on self.old.desk name.now anchor file.now) self.old self.new result }
    {
        let slot = slot_of(&self.seats, name)?;
        let Some(bytes) = self.files.get(file) else {
            return Err(Refusal::NoFile);
        };
        let address = slot.alloc(&mut self.store, anchor, bytes.len() as u32)?;
        slot.put(&mut self.store, anchor, 0, bytes).unwrap();
        Ok(Reply::Block {
            address: address as u32,
        })
    }

    /// Writes one or more bytes into a block, from an offset on: NoName, NoBlock, Busy, BadRange. A `put` that comes as
    /// a command has at most 512 bytes, this any number.
    pub fn put(
        &mut self,
        name: &Name,
        anchor: Anchor,
        offset: u32,
        bytes: &[u8],
    ) -> Result<Reply, Refusal>
        requires { in_range (Command.Put name.now anchor offset bytes.now) ≡ true }
        ensures { Gives (put_on self.old.desk name.now anchor offset bytes.now) self.old self.new result }
    {
        let slot = idle_slot(&self.store, &self.seats, name, anchor)?;
        slot.put(&mut self.store, anchor, offset as usize, bytes)?;
        Ok(Reply::Done)
    }

    /// Takes a block away; those above it slide down (flex_free): NoName, NoBlock, Busy.
    pub(crate) fn free(&mut self, name: &Name, anchor: Anchor) -> Result<Reply, Refusal>
        requires { in_range (Command.Free name.now anchor) ≡ true }
        ensures { Gives (free_on self.old.desk name.now anchor) self.old self.new result }
    {
        let slot = idle_slot(&self.store, &self.seats, name, anchor)?;
        slot.free(&mut self.store, anchor)?;
        Ok(Reply::Done)
    }

    /// Cuts a block to `size` bytes, or lengthens it by zeros (flex_extend): NoName, NoBlock, Busy, NoRoom.
    pub(crate) fn extend(
        &mut self,
        name: &Name,
        anchor: Anchor,
        size: u32,
    ) -> Result<Reply, Refusal>
        requires { in_range (Command.Extend name.now anchor size) ≡ true }
        ensures { Gives (extend_on self.old.desk name.now anchor size) self.old self.new result }
    {
        let slot = idle_slot(&self.store, &self.seats, name, anchor)?;
        slot.extend(&mut self.store, anchor, size)?;
        Ok(Reply::Done)
    }

    /// Puts `by` zeros into a block at an offset, or takes out the `-by` bytes before it (flex_midextend): NoName,
    /// NoBlock, Busy, BadRange, NoRoom.
    pub(crate) fn mid(
        &mut self,
        name: &Name,
        anchor: Anchor,
        offset: u32,
        by: i32,
    ) -> Result<Reply, Refusal>
        requires { in_range (Command.Mid name.now anchor offset by) ≡ true }
        ensures { Gives (mid_on self.old.desk name.now anchor offset by) self.old self.new result }
    {
        let slot = idle_slot(&self.store, &self.seats, name, anchor)?;
        slot.mid(&mut self.store, anchor, offset as usize, by)?;
        Ok(Reply::Done)
    }
}
