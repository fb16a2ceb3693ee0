//! The commands on tasks, and what tasks send and take.
ghost use Rattle.std.specs.Prelude.{◌≡◌, Option};
ghost use Rattle.rh_defs.specs.Desk.{Desk};
ghost use Rattle.rh_defs.specs.declared.command.Command.TheVariants as Command;
ghost use Rattle.vf_desk.specs.CallOutcome.{DoesCalled, called, in_form, number_or};
ghost use Rattle.vf_desk.specs.Event.{event_or, next_ref_in};
ghost use Rattle.vf_desk.specs.DeskForms.{id_in, manner_at, task_form};
ghost use Rattle.vf_desk.specs.SeenDesk.{IsSeenDesk};

use crate::desk::VfDesk;
use crate::event::{VfEvent, give_event};
use crate::forms;
use std::alloc::Global;

/// Starts a task with a receive buffer of 1 to 65,536 bytes, and tells its handle. (Wimp_Initialise.)
#[unsafe(no_mangle)]
pub extern "C" fn vf_desk_task(
    alloc: Global,
    desk: &mut VfDesk,
    name: &[u8],
    buffer: u32,
    manner: u32,
    handle: &mut u32,
) -> u32
    ensures does { DoesCalled (task_form name.now buffer (manner_at manner)) desk.old desk.new result }
    ensures handle { (s : Option Desk) → IsSeenDesk desk.old s →
        handle.new ≡ number_or (called s (task_form name.now buffer (manner_at manner))) handle.old }
{
    desk.step(alloc, &forms::task(name, buffer, manner))
        .give_number(handle)
}

/// Ends a task: its messages bounce or vanish, and its pages are free. (Wimp_CloseDown.)
#[unsafe(no_mangle)]
pub extern "C" fn vf_desk_kill(alloc: Global, desk: &mut VfDesk, name: &[u8]) -> u32
    ensures { DoesCalled (in_form (Command.Kill name.now)) desk.old desk.new result }
{
    desk.step(alloc, &forms::kill(name)).status()
}

/// Offers the anchor's block to another task under a leafname, and tells the message's ref. (Wimp_SendMessage,
/// Message_DataSave.)
#[unsafe(no_mangle)]
pub extern "C" fn vf_desk_save(
    alloc: Global,
    desk: &mut VfDesk,
    name: &[u8],
    anchor: u32,
    to: &[u8],
    leaf: &[u8],
    my_ref: &mut u32,
) -> u32
    ensures does { DoesCalled (in_form (Command.Save name.now anchor to.now leaf.now)) desk.old desk.new result }
    ensures my_ref { (s : Option Desk) → IsSeenDesk desk.old s →
        my_ref.new ≡ number_or (called s (in_form (Command.Save name.now anchor to.now leaf.now))) my_ref.old }
{
    desk.step(alloc, &forms::save(name, anchor, to, leaf))
        .give_number(my_ref)
}

/// Takes the task's next message, does what it asks for, and tells both. (Wimp_Poll.)
#[unsafe(no_mangle)]
pub extern "C" fn vf_desk_poll(
    alloc: Global,
    desk: &mut VfDesk,
    name: &[u8],
    event: &mut VfEvent,
) -> u32
    ensures does { DoesCalled (in_form (Command.Poll name.now)) desk.old desk.new result }
    ensures event { (s : Option Desk) → IsSeenDesk desk.old s →
        event.new ≡ event_or (next_ref_in s) (called s (in_form (Command.Poll name.now))) event.old }
{
    let (called, ack) = desk.step_sending(alloc, &forms::poll(name));
    give_event(&called, ack, event)
}

/// Gives up the transfer with the id that comes in; with the id 0 the first one that can be given up.
#[unsafe(no_mangle)]
pub extern "C" fn vf_desk_cancel_in(alloc: Global, desk: &mut VfDesk, name: &[u8], id: u32) -> u32
    ensures { DoesCalled (in_form (Command.CancelIn name.now (id_in id))) desk.old desk.new result }
{
    desk.step(alloc, &forms::cancel_in(name, id)).status()
}

/// Gives up the open transfer with the id that goes out; with the id 0 the first one.
#[unsafe(no_mangle)]
pub extern "C" fn vf_desk_cancel_out(alloc: Global, desk: &mut VfDesk, name: &[u8], id: u32) -> u32
    ensures { DoesCalled (in_form (Command.CancelOut name.now (id_in id))) desk.old desk.new result }
{
    desk.step(alloc, &forms::cancel_out(name, id)).status()
}

/// Sends the message that the task sent last once more, and tells its new ref. (Wimp_SendMessage.)
#[unsafe(no_mangle)]
pub extern "C" fn vf_desk_repeat(
    alloc: Global,
    desk: &mut VfDesk,
    name: &[u8],
    my_ref: &mut u32,
) -> u32
    ensures does { DoesCalled (in_form (Command.Repeat name.now)) desk.old desk.new result }
    ensures my_ref { (s : Option Desk) → IsSeenDesk desk.old s →
        my_ref.new ≡ number_or (called s (in_form (Command.Repeat name.now))) my_ref.old }
{
    desk.step(alloc, &forms::repeat(name)).give_number(my_ref)
}
