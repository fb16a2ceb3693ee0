//! Bytes of blocks that are read: of an anchor's block, of one at an address of a task's slot, or of the module area.
ghost use Rattle.std.specs.Prelude.{◌≡◌, Option, length};
ghost use Rattle.rh_defs.specs.Desk.{Desk};
ghost use Rattle.vf_desk.specs.BlockReads.{Reads, Tells, anchor_reading, block_reading, module_reading, read_by};
ghost use Rattle.vf_desk.specs.Inner.BlockSteps.{IsRead, reading_of};
ghost use Rattle.vf_desk.specs.SeenDesk.{SeenBy};

use crate::console::PagedWorld;
use crate::desk::VfDesk;
use crate::forms::{anchor_of, name_of};
use crate::open_desk::OpenDesk;
use crate::status::{BAD_ARGUMENT, CLOSED, OK, refusal_number};
use rh_defs::Refusal;
use std::alloc::Global;

/// Which block is read.
#[derive(Clone, Copy)]
pub enum Lookup<'a> {
    /// The anchor's, in the slot of the task with the name.
    Anchored { name: &'a [u8], anchor: u32 },
    /// The one at the address, a flex block or one of the C heap, in the slot of the task with the name.
    Addressed { name: &'a [u8], address: u32 },
    /// The one at the address in the module area.
    InModule { address: u32 },
}

/// Reads bytes of a block, from an offset on, and answers its size; None where name or anchor isn't of its form.
fn read_world(
    world: &PagedWorld,
    place: Lookup<'_>,
    offset: u32,
    to: &mut [u8],
) -> Option<Result<u32, Refusal>>
    ensures { IsRead (reading_of place.entry offset (length to.old)) world.now.desk result to.old to.new }
{
    match place {
        Lookup::Anchored { name, anchor } => {
            let name = name_of(name)?;
            let anchor = anchor_of(anchor)?;
            Some(world.show(&name, anchor, offset, to))
        }
        Lookup::Addressed { name, address } => {
            let name = name_of(name)?;
            Some(world.read_block(&name, address, offset, to))
        }
        Lookup::InModule { address } => Some(world.read_module(address, offset, to)),
    }
}

impl OpenDesk {
    /// Reads bytes of a block, from an offset on, and tells its size.
    fn read(&self, place: Lookup<'_>, offset: u32, to: &mut [u8], size: &mut u32) -> u32
        ensures { (s : Option Desk) → SeenBy self.now.console s →
            Tells (read_by s (reading_of place.entry offset (length to.old))) result size.old size.new to.old to.new }
    {
        let Some(console) = &self.console else {
            return CLOSED;
        };
        match read_world(&console.world, place, offset, to) {
            Some(Ok(found)) => {
                *size = found;
                OK
            }
            Some(Err(refusal)) => refusal_number(refusal),
            None => BAD_ARGUMENT,
        }
    }
}

impl VfDesk {
    /// Reads bytes of a block of the desk that is held, and answers the call's status.
    fn read(
        &mut self,
        alloc: Global,
        place: Lookup<'_>,
        offset: u32,
        to: &mut [u8],
        size: &mut u32,
    ) -> u32
        ensures { Reads (reading_of place.entry offset (length to.old)) self.old self.new result
            size.old size.new to.old to.new }
    {
        let Some(open_desk) = self.take(alloc) else {
            return CLOSED;
        };
        let status = open_desk.read(place, offset, to, size);
        self.put(open_desk);
        status
    }
}

/// Tells the size of the anchor's block, and fills `to` with its bytes from an offset on.
#[unsafe(no_mangle)]
pub extern "C" fn vf_desk_show_at(
    alloc: Global,
    desk: &mut VfDesk,
    name: &[u8],
    anchor: u32,
    offset: u32,
    to: &mut [u8],
    size: &mut u32,
) -> u32
    ensures { Reads (anchor_reading name.now anchor offset (length to.old)) desk.old desk.new result
        size.old size.new to.old to.new }
{
    desk.read(alloc, Lookup::Anchored { name, anchor }, offset, to, size)
}

/// Tells the size of the block at an address of the task's slot, a flex block or one of its C heap, and fills `to` with
/// its bytes from an offset on.
#[unsafe(no_mangle)]
pub extern "C" fn vf_desk_read(
    alloc: Global,
    desk: &mut VfDesk,
    name: &[u8],
    address: u32,
    offset: u32,
    to: &mut [u8],
    size: &mut u32,
) -> u32
    ensures { Reads (block_reading name.now address offset (length to.old)) desk.old desk.new result
        size.old size.new to.old to.new }
{
    desk.read(alloc, Lookup::Addressed { name, address }, offset, to, size)
}

/// Tells the size of a block of the module area, and fills `to` with its bytes from an offset on.
#[unsafe(no_mangle)]
pub extern "C" fn vf_desk_rma_read(
    alloc: Global,
    desk: &mut VfDesk,
    address: u32,
    offset: u32,
    to: &mut [u8],
    size: &mut u32,
) -> u32
    ensures { Reads (module_reading address offset (length to.old)) desk.old desk.new result
        size.old size.new to.old to.new }
{
    desk.read(alloc, Lookup::InModule { address }, offset, to, size)
}
