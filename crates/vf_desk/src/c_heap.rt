//! The commands on the C heap of a task.
ghost use Rattle.std.specs.Prelude.{◌≡◌, Option};
ghost use Rattle.rh_defs.specs.Desk.{Desk};
ghost use Rattle.rh_defs.specs.declared.command.Command.TheVariants as Command;
ghost use Rattle.vf_desk.specs.CallOutcome.{DoesCalled, called, in_form, number_or, was_or};
ghost use Rattle.vf_desk.specs.SeenDesk.{IsSeenDesk};

use crate::desk::VfDesk;
use crate::forms;
use std::alloc::Global;

/// Claims a block of `size` bytes at least, all 0, and tells its address. (OS_Heap 2.)
#[unsafe(no_mangle)]
pub extern "C" fn vf_desk_claim(
    alloc: Global,
    desk: &mut VfDesk,
    name: &[u8],
    size: u32,
    address: &mut u32,
) -> u32
    ensures does { DoesCalled (in_form (Command.Claim name.now size)) desk.old desk.new result }
    ensures address { (s : Option Desk) → IsSeenDesk desk.old s →
        address.new ≡ number_or (called s (in_form (Command.Claim name.now size))) address.old }
{
    desk.step(alloc, &forms::claim(name, size))
        .give_number(address)
}

/// Releases the block at an address. (OS_Heap 3.)
#[unsafe(no_mangle)]
pub extern "C" fn vf_desk_release(
    alloc: Global,
    desk: &mut VfDesk,
    name: &[u8],
    address: u32,
) -> u32
    ensures { DoesCalled (in_form (Command.Release name.now address)) desk.old desk.new result }
{
    desk.step(alloc, &forms::release(name, address)).status()
}

/// Gives the block at an address `delta` bytes more, and tells where it is then. (OS_Heap 4.)
#[unsafe(no_mangle)]
pub extern "C" fn vf_desk_resize(
    alloc: Global,
    desk: &mut VfDesk,
    name: &[u8],
    address: u32,
    delta: i32,
    moved_to: &mut u32,
) -> u32
    ensures does { DoesCalled (in_form (Command.Resize name.now address delta)) desk.old desk.new result }
    ensures address { (s : Option Desk) → IsSeenDesk desk.old s →
        moved_to.new ≡ number_or (called s (in_form (Command.Resize name.now address delta))) moved_to.old }
{
    desk.step(alloc, &forms::resize(name, address, delta))
        .give_number(moved_to)
}

/// Turns budging on or off, and tells whether it was on. (flex_set_budge.)
#[unsafe(no_mangle)]
pub extern "C" fn vf_desk_budge(
    alloc: Global,
    desk: &mut VfDesk,
    name: &[u8],
    on: bool,
    was: &mut bool,
) -> u32
    ensures does { DoesCalled (in_form (Command.Budge name.now on)) desk.old desk.new result }
    ensures was { (s : Option Desk) → IsSeenDesk desk.old s →
        was.new ≡ was_or (called s (in_form (Command.Budge name.now on))) was.old }
{
    desk.step(alloc, &forms::budge(name, on)).give_was(was)
}
