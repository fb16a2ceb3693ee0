//! The commands on areas, and on blocks of the module area.
ghost use Rattle.std.specs.Prelude.{◌≡◌, Option};
ghost use Rattle.rh_defs.specs.Desk.{Desk};
ghost use Rattle.rh_defs.specs.declared.command.Command.TheVariants as Command;
ghost use Rattle.vf_desk.specs.CallOutcome.{DoesCalled, called, in_form, number_or};
ghost use Rattle.vf_desk.specs.SeenDesk.{IsSeenDesk};

use crate::desk::VfDesk;
use rh_defs::Command;
use std::alloc::Global;

/// Moves an area's length by `delta` bytes in whole pages, and tells how many were moved. (OS_ChangeDynamicArea.)
#[unsafe(no_mangle)]
pub extern "C" fn vf_desk_area(
    alloc: Global,
    desk: &mut VfDesk,
    number: u32,
    delta: i32,
    bytes: &mut u32,
) -> u32
    ensures does { DoesCalled (in_form (Command.Area number delta)) desk.old desk.new result }
    ensures bytes { (s : Option Desk) → IsSeenDesk desk.old s →
        bytes.new ≡ number_or (called s (in_form (Command.Area number delta))) bytes.old }
{
    desk.step(alloc, &Command::Area { number, delta })
        .give_number(bytes)
}

/// Makes an area of no page, and of at most `most` pages, and tells its number. (OS_DynamicArea 0.)
#[unsafe(no_mangle)]
pub extern "C" fn vf_desk_make(alloc: Global, desk: &mut VfDesk, most: u32, number: &mut u32) -> u32
    ensures does { DoesCalled (in_form (Command.Make most)) desk.old desk.new result }
    ensures number { (s : Option Desk) → IsSeenDesk desk.old s →
        number.new ≡ number_or (called s (in_form (Command.Make most))) number.old }
{
    desk.step(alloc, &Command::Make { most })
        .give_number(number)
}

/// Takes a made area away; its pages are free then. (OS_DynamicArea 1.)
#[unsafe(no_mangle)]
pub extern "C" fn vf_desk_remove(alloc: Global, desk: &mut VfDesk, number: u32) -> u32
    ensures { DoesCalled (in_form (Command.Remove number)) desk.old desk.new result }
{
    desk.step(alloc, &Command::Remove { number }).status()
}

/// Claims a block of `size` bytes at least of the module area, all 0, and tells its address. (OS_Module 6.)
#[unsafe(no_mangle)]
pub extern "C" fn vf_desk_rma_claim(
    alloc: Global,
    desk: &mut VfDesk,
    size: u32,
    address: &mut u32,
) -> u32
    ensures does { DoesCalled (in_form (Command.RmaClaim size)) desk.old desk.new result }
    ensures address { (s : Option Desk) → IsSeenDesk desk.old s →
        address.new ≡ number_or (called s (in_form (Command.RmaClaim size))) address.old }
{
    desk.step(alloc, &Command::RmaClaim { size })
        .give_number(address)
}

/// Frees the block at an address of the module area. (OS_Module 7.)
#[unsafe(no_mangle)]
pub extern "C" fn vf_desk_rma_free(alloc: Global, desk: &mut VfDesk, address: u32) -> u32
    ensures { DoesCalled (in_form (Command.RmaFree address)) desk.old desk.new result }
{
    desk.step(alloc, &Command::RmaFree { address }).status()
}

/// Gives the block at an address of the module area `delta` bytes more, and tells where it is then. (OS_Module 13.)
#[unsafe(no_mangle)]
pub extern "C" fn vf_desk_rma_resize(
    alloc: Global,
    desk: &mut VfDesk,
    address: u32,
    delta: i32,
    moved_to: &mut u32,
) -> u32
    ensures does { DoesCalled (in_form (Command.RmaResize address delta)) desk.old desk.new result }
    ensures address { (s : Option Desk) → IsSeenDesk desk.old s →
        moved_to.new ≡ number_or (called s (in_form (Command.RmaResize address delta))) moved_to.old }
{
    desk.step(alloc, &Command::RmaResize { address, delta })
        .give_number(moved_to)
}
