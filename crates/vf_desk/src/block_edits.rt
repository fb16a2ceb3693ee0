//! Bytes of blocks that are written, or moved from one task's block to another's.
ghost use Rattle.std.specs.Prelude.{◌≡◌, ◌≢◌, Option, Some};
ghost use Rattle.rh_defs.specs.Desk.{Desk};
ghost use Rattle.rh_tasks.specs.Inner.CommandAnswers.{reply_of};
ghost use Rattle.vf_desk.specs.declared.call_outcome.CallOutcome.TheVariants.{Said};
ghost use Rattle.vf_desk.specs.BlockEdits.{DoesEdit, block_edit, called_by, edited_by, is_write as is_write_on};
ghost use Rattle.vf_desk.specs.BlockEdits.{module_edit, transfer_edit};
ghost use Rattle.vf_desk.specs.CallOutcome.{status_of};
ghost use Rattle.vf_desk.specs.Inner.BlockSteps.{Edits, edit_of};
ghost use Rattle.vf_desk.specs.SeenDesk.{IsSeenDesk, KeepsRest, SeenBy};

use crate::call_outcome::CallOutcome;
use crate::console::PagedWorld;
use crate::desk::VfDesk;
use crate::forms::name_of;
use crate::open_desk::OpenDesk;
use rh_defs::sizes::GREATEST_NUMBER;
use rh_defs::{Handle, Refusal, Reply};
use std::alloc::Global;

/// What is done to bytes of blocks.
#[derive(Clone, Copy)]
pub enum BlockEdit<'a> {
    /// Bytes are written into the block at the address, a flex block or one of the C heap, of the task with the name.
    Write {
        name: &'a [u8],
        address: u32,
        offset: u32,
        from: &'a [u8],
    },
    /// Bytes are written into the block at the address in the module area.
    WriteModule {
        address: u32,
        offset: u32,
        from: &'a [u8],
    },
    /// `n` bytes are moved from an address of one task's slot to an address of another's, or of its own.
    Transfer {
        from: u32,
        address: u32,
        to: u32,
        address2: u32,
        n: u32,
    },
}

/// Whether a `put` may write these bytes from this offset on.
fn is_write(offset: u32, from: &[u8]) -> bool
    ensures { result ≡ is_write_on offset from.now }
{
    offset <= GREATEST_NUMBER && !from.is_empty()
}

/// What a call of a world came to.
fn said(given: Result<Reply, Refusal>) -> CallOutcome
    ensures { result ≡ Said (reply_of given) }
{
    match given {
        Ok(reply) => CallOutcome::Said(reply),
        Err(refusal) => CallOutcome::Said(Reply::Refused(refusal)),
    }
}

/// Edits blocks of a world, if the arguments are of their forms.
fn edit_world(world: &mut PagedWorld, edit: BlockEdit<'_>) -> CallOutcome
    ensures { Edits (edit_of edit.entry) world.old world.new result }
{
    match edit {
        BlockEdit::Write {
            name,
            address,
            offset,
            from,
        } => write_block(world, name, address, offset, from),
        BlockEdit::WriteModule {
            address,
            offset,
            from,
        } => write_module(world, address, offset, from),
        BlockEdit::Transfer {
            from,
            address,
            to,
            address2,
            n,
        } => transfer(world, Handle(from), address, Handle(to), address2, n),
    }
}

fn write_block(
    world: &mut PagedWorld,
    name: &[u8],
    address: u32,
    offset: u32,
    from: &[u8],
) -> CallOutcome
    ensures { Edits (block_edit name.now address offset from.now) world.old world.new result }
{
    if !is_write(offset, from) {
        return CallOutcome::BadArgument;
    }
    let Some(name) = name_of(name) else {
        return CallOutcome::BadArgument;
    };
    said(world.write_block(&name, address, offset, from))
}

fn write_module(world: &mut PagedWorld, address: u32, offset: u32, from: &[u8]) -> CallOutcome
    ensures { Edits (module_edit address offset from.now) world.old world.new result }
{
    if !is_write(offset, from) {
        return CallOutcome::BadArgument;
    }
    said(world.write_module(address, offset, from))
}

fn transfer(
    world: &mut PagedWorld,
    from: Handle,
    address: u32,
    to: Handle,
    address2: u32,
    n: u32,
) -> CallOutcome
    ensures { Edits (transfer_edit from address to address2 n) world.old world.new result }
{
    match world.transfer_block(from, address, to, address2, n) {
        Ok(()) => CallOutcome::Said(Reply::Done),
        Err(refusal) => CallOutcome::Said(Reply::Refused(refusal)),
    }
}

impl OpenDesk {
    /// Edits blocks of the desk, if it is open and the arguments are of their forms; else nothing changes.
    fn edit(&mut self, edit: BlockEdit<'_>) -> CallOutcome
        ensures said { (s : Option Desk) → SeenBy self.old.console s → result ≡ called_by s (edit_of edit.entry) }
        ensures desk { (s : Option Desk) → SeenBy self.old.console s →
            SeenBy self.new.console (edited_by s (edit_of edit.entry)) }
        ensures rest { KeepsRest (Some self.old) (Some self.new) }
        ensures refused { status_of result ≢ 0 → self.new ≡ self.old }
    {
        match &mut self.console {
            Some(console) => edit_world(&mut console.world, edit),
            None => CallOutcome::Closed,
        }
    }
}

impl VfDesk {
    /// Edits blocks of the desk that is held, and answers the call's status.
    fn edit(&mut self, alloc: Global, edit: BlockEdit<'_>) -> u32
        ensures { DoesEdit (edit_of edit.entry) self.old self.new result }
    {
        let Some(mut open_desk) = self.take(alloc) else {
            return CallOutcome::Closed.status();
        };
        let called = open_desk.edit(edit);
        self.put(open_desk);
        called.status()
    }
}

/// Writes bytes, one at least, into the block at an address of the task's slot, a flex block or one of its C heap, from
/// an offset on.
#[unsafe(no_mangle)]
pub extern "C" fn vf_desk_write(
    alloc: Global,
    desk: &mut VfDesk,
    name: &[u8],
    address: u32,
    offset: u32,
    from: &[u8],
) -> u32
    ensures { DoesEdit (block_edit name.now address offset from.now) desk.old desk.new result }
{
    let edit = BlockEdit::Write {
        name,
        address,
        offset,
        from,
    };
    desk.edit(alloc, edit)
}

/// Writes bytes, one at least, into a block of the module area that a command claimed, from an offset on.
#[unsafe(no_mangle)]
pub extern "C" fn vf_desk_rma_write(
    alloc: Global,
    desk: &mut VfDesk,
    address: u32,
    offset: u32,
    from: &[u8],
) -> u32
    ensures { DoesEdit (module_edit address offset from.now) desk.old desk.new result }
{
    let edit = BlockEdit::WriteModule {
        address,
        offset,
        from,
    };
    desk.edit(alloc, edit)
}

/// Moves `n` bytes from an address of one task's slot to an address of another's, or of its own; the tasks are told by
/// their handles. (Wimp_TransferBlock.)
#[unsafe(no_mangle)]
pub extern "C" fn vf_desk_transfer(
    alloc: Global,
    desk: &mut VfDesk,
    from: u32,
    address: u32,
    to: u32,
    address2: u32,
    n: u32,
) -> u32
    ensures { DoesEdit (transfer_edit from address to address2 n) desk.old desk.new result }
{
    let edit = BlockEdit::Transfer {
        from,
        address,
        to,
        address2,
        n,
    };
    desk.edit(alloc, edit)
}
