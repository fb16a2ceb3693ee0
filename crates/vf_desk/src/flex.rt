//! The commands on flex blocks.
ghost use Rattle.std.specs.Prelude.{◌≡◌, Option};
ghost use Rattle.rh_defs.specs.Desk.{Desk};
ghost use Rattle.rh_defs.specs.declared.command.Command.TheVariants as Command;
ghost use Rattle.vf_desk.specs.CallOutcome.{DoesCalled, called, in_form, number_or};
ghost use Rattle.vf_desk.specs.SeenDesk.{IsSeenDesk};

use crate::desk::VfDesk;
use crate::forms;
use std::alloc::Global;

/// Puts a block of `size` zeros on top of the task's slot, and tells its address. (flex_alloc.)
#[unsafe(no_mangle)]
pub extern "C" fn vf_desk_alloc(
    alloc: Global,
    desk: &mut VfDesk,
    name: &[u8],
    anchor: u32,
    size: u32,
    address: &mut u32,
) -> u32
    ensures does { DoesCalled (in_form (Command.Alloc name.now anchor size)) desk.old desk.new result }
    ensures address { (s : Option Desk) → IsSeenDesk desk.old s →
        address.new ≡ number_or (called s (in_form (Command.Alloc name.now anchor size))) address.old }
{
    desk.step(alloc, &forms::alloc(name, anchor, size))
        .give_number(address)
}

/// Puts a block with a file's bytes on top of the task's slot, and tells its address. (flex_alloc, OS_File 16.)
#[unsafe(no_mangle)]
pub extern "C" fn vf_desk_load(
    alloc: Global,
    desk: &mut VfDesk,
    name: &[u8],
    anchor: u32,
    file: &[u8],
    address: &mut u32,
) -> u32
    ensures does { DoesCalled (in_form (Command.Load name.now anchor file.now)) desk.old desk.new result }
    ensures address { (s : Option Desk) → IsSeenDesk desk.old s →
        address.new ≡ number_or (called s (in_form (Command.Load name.now anchor file.now))) address.old }
{
    desk.step(alloc, &forms::load(name, anchor, file))
        .give_number(address)
}

/// Writes bytes, one at least, into the anchor's block, from an offset in it on.
#[unsafe(no_mangle)]
pub extern "C" fn vf_desk_put(
    alloc: Global,
    desk: &mut VfDesk,
    name: &[u8],
    anchor: u32,
    offset: u32,
    from: &[u8],
) -> u32
    ensures { DoesCalled (in_form (Command.Put name.now anchor offset from.now)) desk.old desk.new result }
{
    desk.write(alloc, name, anchor, offset, from).status()
}

/// Takes the anchor's block away; those above it come down. (flex_free.)
#[unsafe(no_mangle)]
pub extern "C" fn vf_desk_free(alloc: Global, desk: &mut VfDesk, name: &[u8], anchor: u32) -> u32
    ensures { DoesCalled (in_form (Command.Free name.now anchor)) desk.old desk.new result }
{
    desk.step(alloc, &forms::free(name, anchor)).status()
}

/// Cuts the anchor's block to `size` bytes, or lengthens it by zeros; those above it slide. (flex_extend.)
#[unsafe(no_mangle)]
pub extern "C" fn vf_desk_extend(
    alloc: Global,
    desk: &mut VfDesk,
    name: &[u8],
    anchor: u32,
    size: u32,
) -> u32
    ensures { DoesCalled (in_form (Command.Extend name.now anchor size)) desk.old desk.new result }
{
    desk.step(alloc, &forms::extend(name, anchor, size))
        .status()
}

/// Puts `by` zeros into the anchor's block at an offset, or takes as many bytes before it out. (flex_midextend.)
#[unsafe(no_mangle)]
pub extern "C" fn vf_desk_mid(
    alloc: Global,
    desk: &mut VfDesk,
    name: &[u8],
    anchor: u32,
    offset: u32,
    by: i32,
) -> u32
    ensures { DoesCalled (in_form (Command.Mid name.now anchor offset by)) desk.old desk.new result }
{
    desk.step(alloc, &forms::mid(name, anchor, offset, by))
        .status()
}
