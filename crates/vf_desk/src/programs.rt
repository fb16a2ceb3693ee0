//! Tasks with code of their own: they take and send messages of any action, write bytes of their own, move them to what
//! others opened, and make and load the scrap file.
ghost use Rattle.std.specs.Prelude.{◌≡◌, ◌≢◌, Option, Some};
ghost use Rattle.rh_defs.specs.Desk.{Desk};
ghost use Rattle.rh_defs.specs.declared.command.Command.TheVariants as Command;
ghost use Rattle.rh_defs.specs.declared.raw_command.RawCommand.TheVariants as Raw;
ghost use Rattle.rh_wimp.specs.QueueItems.{with_message};
ghost use Rattle.vf_desk.specs.CallOutcome.{DoesCalled, called, desk_by, in_form, number_or, status_of};
ghost use Rattle.vf_desk.specs.DeskForms.{recorded_at, send_form};
ghost use Rattle.vf_desk.specs.Inner.DeskSteps.{Steps};
ghost use Rattle.vf_desk.specs.Next.{code_or, next_in, next_parcel};
ghost use Rattle.vf_desk.specs.SeenDesk.{IsSeenDesk, KeepsRest, SeenBy};

use crate::call_outcome::CallOutcome;
use crate::console::PagedWorld;
use crate::desk::VfDesk;
use crate::forms::{self, name_of};
use crate::next::{VfMessage, vf_desk_next};
use crate::open_desk::OpenDesk;
use rh_defs::Reply;
use std::alloc::Global;

/// Writes bytes at an address of a task's own slot, if they can be written by a line that has room.
#[tactic(auto, unfolding(rh_defs::specs::Range::in_range))]
fn write_own_bytes(world: &mut PagedWorld, name: &[u8], address: u32, from: &[u8]) -> CallOutcome
    ensures { Steps (in_form (Command.Raw (Raw.Write name.now address from.now))) world.old world.new result }
{
    let Some(name) = name_of(name) else {
        return CallOutcome::BadArgument;
    };
    if from.is_empty() {
        return CallOutcome::BadArgument;
    }
    match world.write(&name, address, from) {
        Ok(reply) => CallOutcome::Said(reply),
        Err(refusal) => CallOutcome::Said(Reply::Refused(refusal)),
    }
}

impl OpenDesk {
    /// Writes bytes at an address of a task's own slot, if the desk is open and a line that has room can write them.
    fn write_at(&mut self, name: &[u8], address: u32, from: &[u8]) -> CallOutcome
        ensures said { (s : Option Desk) → SeenBy self.old.console s →
            result ≡ called s (in_form (Command.Raw (Raw.Write name.now address from.now))) }
        ensures desk { (s : Option Desk) → SeenBy self.old.console s →
            SeenBy self.new.console (desk_by s (in_form (Command.Raw (Raw.Write name.now address from.now)))) }
        ensures rest { KeepsRest (Some self.old) (Some self.new) }
        ensures refused { status_of result ≢ 0 → self.new ≡ self.old }
    {
        match &mut self.console {
            Some(console) => write_own_bytes(&mut console.world, name, address, from),
            None => CallOutcome::Closed,
        }
    }
}

impl VfDesk {
    /// Writes bytes at an address of a task's own slot, as a `write` of as many bytes does, whatever a line has room
    /// for.
    fn write_at(&mut self, alloc: Global, name: &[u8], address: u32, from: &[u8]) -> CallOutcome
        ensures said { (s : Option Desk) → IsSeenDesk self.old s →
            result ≡ called s (in_form (Command.Raw (Raw.Write name.now address from.now))) }
        ensures desk { (s : Option Desk) → IsSeenDesk self.old s →
            IsSeenDesk self.new (desk_by s (in_form (Command.Raw (Raw.Write name.now address from.now)))) }
        ensures rest { KeepsRest self.old.handle.open_desk self.new.handle.open_desk }
        ensures refused { status_of result ≢ 0 → self.new.handle.open_desk ≡ self.old.handle.open_desk }
    {
        let Some(mut open_desk) = self.take(alloc) else {
            return CallOutcome::Closed;
        };
        let called = open_desk.write_at(name, address, from);
        self.put(open_desk);
        called
    }
}

/// Takes the task's next message, and tells it as its block, and its reason code, 0 where there is none. The bytes
/// behind the message stay. (Wimp_Poll.)
#[unsafe(no_mangle)]
pub extern "C" fn vf_desk_take(
    alloc: Global,
    desk: &mut VfDesk,
    name: &[u8],
    message: &mut VfMessage,
    code: &mut u32,
) -> u32
    ensures does { DoesCalled (in_form (Command.Poll name.now)) desk.old desk.new result }
    ensures message { (s : Option Desk) → IsSeenDesk desk.old s →
        message.new.bytes ≡ with_message (next_parcel (next_in s name.now)) message.old.bytes }
    ensures code { (s : Option Desk) → IsSeenDesk desk.old s → code.new ≡ code_or (next_in s name.now) code.old }
{
    let _status = vf_desk_next(alloc, desk, name, message, code);
    desk.step(alloc, &forms::poll(name)).status()
}

/// Sends a message of any action to a task that is told by its handle: its code, the ref of the message that it
/// answers, its action and the bytes behind that. Tells its ref. (Wimp_SendMessage.)
#[unsafe(no_mangle)]
pub extern "C" fn vf_desk_send(
    alloc: Global,
    desk: &mut VfDesk,
    name: &[u8],
    code: u32,
    to: u32,
    your_ref: u32,
    action: u32,
    bytes: &[u8],
    my_ref: &mut u32,
) -> u32
    ensures does { DoesCalled (send_form name.now (recorded_at code) to your_ref action bytes.now)
        desk.old desk.new result }
    ensures my_ref { (s : Option Desk) → IsSeenDesk desk.old s → my_ref.new ≡
        number_or (called s (send_form name.now (recorded_at code) to your_ref action bytes.now)) my_ref.old }
{
    desk.step(alloc, &forms::send(name, code, to, your_ref, action, bytes))
        .give_number(my_ref)
}

/// Says that the message which the task holds is answered, and sends nothing. Tells its ref, 0 where it holds none.
/// (Wimp_SendMessage with code 19.)
#[unsafe(no_mangle)]
pub extern "C" fn vf_desk_ack(
    alloc: Global,
    desk: &mut VfDesk,
    name: &[u8],
    answered: &mut u32,
) -> u32
    ensures does { DoesCalled (in_form (Command.Raw (Raw.Ack name.now))) desk.old desk.new result }
    ensures answered { (s : Option Desk) → IsSeenDesk desk.old s →
        answered.new ≡ number_or (called s (in_form (Command.Raw (Raw.Ack name.now)))) answered.old }
{
    desk.step(alloc, &forms::ack(name)).give_number(answered)
}

/// Writes bytes, one at least, at an address of the task's own slot: all of them lie in one of its blocks.
#[unsafe(no_mangle)]
pub extern "C" fn vf_desk_write_at(
    alloc: Global,
    desk: &mut VfDesk,
    name: &[u8],
    address: u32,
    from: &[u8],
) -> u32
    ensures { DoesCalled (in_form (Command.Raw (Raw.Write name.now address from.now))) desk.old desk.new result }
{
    desk.write_at(alloc, name, address, from).status()
}

/// Moves `n` bytes at an address of the task's slot to a place that another task opened: in the buffer of a transfer
/// that fetches from this task, or in what a RAMFetch names that this task holds. (Wimp_TransferBlock.)
#[unsafe(no_mangle)]
pub extern "C" fn vf_desk_transfer_to(
    alloc: Global,
    desk: &mut VfDesk,
    name: &[u8],
    address: u32,
    to: u32,
    place: u32,
    n: u32,
) -> u32
    ensures { DoesCalled (in_form (Command.Raw (Raw.Transfer name.now address to place n))) desk.old desk.new result }
{
    desk.step(alloc, &forms::transfer(name, address, to, place, n))
        .status()
}

/// Makes the anchor's block the scrap file, and tells a task of it, whose handle is given, by a DataLoad that answers
/// a message. Tells the DataLoad's ref. (Wimp_SendMessage, Message_DataLoad.)
#[unsafe(no_mangle)]
pub extern "C" fn vf_desk_spool(
    alloc: Global,
    desk: &mut VfDesk,
    name: &[u8],
    anchor: u32,
    to: u32,
    your_ref: u32,
    my_ref: &mut u32,
) -> u32
    ensures does { DoesCalled (in_form (Command.Raw (Raw.Spool name.now anchor to your_ref))) desk.old desk.new result }
    ensures my_ref { (s : Option Desk) → IsSeenDesk desk.old s → my_ref.new ≡
        number_or (called s (in_form (Command.Raw (Raw.Spool name.now anchor to your_ref)))) my_ref.old }
{
    desk.step(alloc, &forms::spool(name, anchor, to, your_ref))
        .give_number(my_ref)
}

/// Puts the bytes of the scrap file, whose DataLoad the task holds, into a new flex block at the anchor, and tells its
/// address. The file stays.
#[unsafe(no_mangle)]
pub extern "C" fn vf_desk_scrap(
    alloc: Global,
    desk: &mut VfDesk,
    name: &[u8],
    anchor: u32,
    address: &mut u32,
) -> u32
    ensures does { DoesCalled (in_form (Command.Raw (Raw.Scrap name.now anchor))) desk.old desk.new result }
    ensures address { (s : Option Desk) → IsSeenDesk desk.old s →
        address.new ≡ number_or (called s (in_form (Command.Raw (Raw.Scrap name.now anchor)))) address.old }
{
    desk.step(alloc, &forms::scrap(name, anchor))
        .give_number(address)
}
