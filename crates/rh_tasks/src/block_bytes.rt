//! Bytes of live blocks that are told by their addresses: a task's, of either kind, and those of the module area.

ghost use Rattle.std.specs.Prelude.{◌≡◌, ◌+◌, ◌<◌, ◌==◌, true, Ok, Err, IfOk, IfSome, find, length};
ghost use Rattle.std.specs.Option.{option_map};
ghost use Rattle.std.specs.Result.{MatchResult};
ghost use Rattle.rh_defs.specs.declared.command.Command.TheVariants as Command;
ghost use Rattle.rh_defs.specs.declared.question.BlockItem.{BlockItem};
ghost use Rattle.rh_defs.specs.Chain.{no_answer};
ghost use Rattle.rh_defs.specs.Range.{in_range};
ghost use Rattle.rh_defs.specs.Slot.{anchor_count};
ghost use Rattle.rh_module.specs.ModuleArea.{IsModule, module_heap_in};
ghost use Rattle.rh_module.specs.ModuleCalls.{LeavesModule};
ghost use Rattle.rh_slot.specs.SlotArea.{IsSlotIn, slot_in};
ghost use Rattle.rh_slot.specs.SlotCalls.{LeavesSlotIn};
ghost use Rattle.rh_tasks.specs.Answer.{Gives};
ghost use Rattle.rh_tasks.specs.BlockBytes.{anchor_at as anchor_at_on, block_shown, block_written, heap_put};
ghost use Rattle.rh_tasks.specs.BlockBytes.{heap_shown, heap_written, module_written, slot_written};

use crate::module_area::MODULE;
use crate::named_files::NamedFiles;
use crate::seats::{idle_heap, slot_of};
use crate::sights::fits;
use crate::world::World;
use arrayvec::ArrayVec;
use rh_defs::sizes::{C_HEAP_PLACE, SLOT_START};
use rh_defs::{Anchor, BlockItem, Name, Refusal, Reply};
use rh_heap::{Span, keep_map, take_map};
use rh_module::Module;
use rh_slot::Slot;
use rh_store::{Store, WordsMut};

/// Writes bytes into the block at an address of a slot's C heap, from an offset on: NotABlock, BadRange.
fn write_in_heap<S: WordsMut>(
    store: &mut S,
    slot: Slot,
    address: usize,
    offset: usize,
    from: &[u8],
) -> Result<(), Refusal>
    requires { IsSlotIn (S.memory store.old) slot }
    ensures { LeavesSlotIn (S.memory store.old) (S.memory store.new) slot
        (no_answer (slot_written address offset from.now (slot_in (S.memory store.old) slot))) result }
{
    let size = slot.block_size(store, address)?;
    if !fits(size, offset, from.len()) {
        return Err(Refusal::BadRange);
    }
    let span = Span {
        area: slot.area,
        at: C_HEAP_PLACE,
    };
    let map = take_map(store, span);
    store.copy_in(slot.area, address - SLOT_START + offset, from);
    keep_map(store, span, map);
    Ok(())
}

/// Writes bytes into the block at an address of the module area, from an offset on: NotABlock, BadRange.
fn write_in_module<S: WordsMut>(
    store: &mut S,
    area: Module,
    address: usize,
    offset: usize,
    from: &[u8],
) -> Result<(), Refusal>
    requires { IsModule (S.memory store.old) area }
    ensures { LeavesModule (S.memory store.old) (S.memory store.new) area
        (no_answer (heap_written address offset from.now (module_heap_in (S.memory store.old) area))) result }
{
    let size = area.block_size(store, address)?;
    if !fits(size, offset, from.len()) {
        return Err(Refusal::BadRange);
    }
    area.write_bytes(store, address, offset, from);
    Ok(())
}

/// The anchor of the flex block at an address, of those in a list.
fn anchor_in(items: &[BlockItem], address: u32) -> Option<Anchor>
    ensures { result ≡ option_map (λ (b : BlockItem). b.anchor)
        (find (λ (b : BlockItem). b.address == address) items.now) }
{
    let found = items.iter().find(|item| item.address == address);
    found.map(|item| item.anchor)
}

impl<S: Store, F: NamedFiles> World<S, F> {
    /// The anchor of the flex block that begins at an address of the task's slot, None where none does; NoName.
    fn anchor_at(&self, name: &Name, address: u32) -> Result<Option<Anchor>, Refusal>
        ensures is { result ≡ anchor_at_on self.now.desk name.now address }
        ensures low { IfOk result (λ found. IfSome found (λ anchor. anchor < anchor_count)) }
    {
        self.recall_spelling();
        let mut items = ArrayVec::new();
        self.blocks_of(name, &mut items)?;
        Ok(anchor_in(&items, address))
    }

    /// The size in bytes of the block at an address of the task's C heap, and its bytes from an offset on; NoName,
    /// NotABlock, BadRange.
    fn read_heap(
        &self,
        name: &Name,
        address: u32,
        offset: u32,
        to: &mut [u8],
    ) -> Result<u32, Refusal>
        ensures { MatchResult (heap_shown self.now.desk name.now address offset (length to.old))
            (λ p. (result ≡ Ok p.0) × (to.new ≡ p.1)) (λ e. (result ≡ Err e) × (to.new ≡ to.old)) }
    {
        let slot = slot_of(&self.seats, name)?;
        let place = address as usize;
        let size = slot.block_size(&self.store, place)?;
        let offset = offset as usize;
        if !fits(size, offset, to.len()) {
            return Err(Refusal::BadRange);
        }
        self.store
            .copy_out(slot.area, place - SLOT_START + offset, to);
        Ok(size as u32)
    }

    /// The size in bytes of the task's block at an address, a flex block or one of its C heap, and its bytes from an
    /// offset on; NoName, NotABlock, or BadRange where the bytes wanted don't lie in the block.
    pub fn read_block(
        &self,
        name: &Name,
        address: u32,
        offset: u32,
        to: &mut [u8],
    ) -> Result<u32, Refusal>
        ensures { MatchResult (block_shown self.now.desk name.now address offset (length to.old))
            (λ p. (result ≡ Ok p.0) × (to.new ≡ p.1)) (λ e. (result ≡ Err e) × (to.new ≡ to.old)) }
    {
        let found = self.anchor_at(name, address)?;
        match found {
            Some(anchor) => self.show(name, anchor, offset, to),
            None => self.read_heap(name, address, offset, to),
        }
    }

    /// Writes bytes into a block of the task's C heap: NoName, NotABlock, Busy, BadRange.
    fn write_heap(
        &mut self,
        name: &Name,
        address: u32,
        offset: u32,
        bytes: &[u8],
    ) -> Result<Reply, Refusal>
        ensures { Gives (heap_put self.old.desk name.now address offset bytes.now) self.old self.new result }
    {
        let slot = idle_heap(&self.store, &self.seats, name, address)?;
        write_in_heap(
            &mut self.store,
            slot,
            address as usize,
            offset as usize,
            bytes,
        )?;
        Ok(Reply::Done)
    }

    /// Writes one or more bytes into the task's block at an address, a flex block or one of its C heap, from an offset
    /// on: NoName, NotABlock, Busy, BadRange. A flex block is written as by `put`.
    pub fn write_block(
        &mut self,
        name: &Name,
        address: u32,
        offset: u32,
        bytes: &[u8],
    ) -> Result<Reply, Refusal>
        requires { in_range (Command.Put name.now 0 offset bytes.now) ≡ true }
        ensures { Gives (block_written self.old.desk name.now address offset bytes.now) self.old self.new result }
    {
        let found = self.anchor_at(name, address)?;
        match found {
            Some(anchor) => self.put(name, anchor, offset, bytes),
            None => self.write_heap(name, address, offset, bytes),
        }
    }

    /// Writes bytes into a block of the module area that a command claimed, from an offset on: NotABlock, NotYours
    /// where a message lies in it, BadRange.
    pub fn write_module(
        &mut self,
        address: u32,
        offset: u32,
        bytes: &[u8],
    ) -> Result<Reply, Refusal>
        ensures { Gives (module_written self.old.desk address offset bytes.now) self.old self.new result }
    {
        let place = self.own_place(address)?;
        write_in_module(&mut self.store, MODULE, place, offset as usize, bytes)?;
        Ok(Reply::Done)
    }
}
