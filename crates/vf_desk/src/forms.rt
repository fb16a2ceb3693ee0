//! Commands of the arguments that a program in C gives: one that is out of range where one of them isn't of its form.
#![tactic(auto, unfolding(rh_defs::specs::Range::in_range))]

ghost use Rattle.std.specs.Prelude.{◌≡◌};
ghost use Rattle.rh_defs.specs.declared.command.Command.TheVariants as Command;
ghost use Rattle.rh_defs.specs.declared.question.Question.TheVariants as Question;
ghost use Rattle.rh_defs.specs.declared.raw_command.RawCommand.TheVariants as Raw;
ghost use Rattle.vf_desk.specs.CallOutcome.{in_form};
ghost use Rattle.vf_desk.specs.DeskForms.{anchor_in, data_in, id_in, manner_at, name_read, recorded_at, send_form};
ghost use Rattle.vf_desk.specs.DeskForms.{task_form};

use arrayvec::ArrayVec;
use rh_defs::sizes::ANCHORS;
use rh_defs::{Anchor, Command, Data, Handle, Leaf, Manner, Name, Question, RawCommand, Ref};

/// The number of a task that sends and receives.
pub const TASK_PLAIN: u32 = 0;

/// The number of a task that takes no DataSave.
pub const TASK_DEAF: u32 = 1;

/// The number of a task that answers no RAMFetch.
pub const TASK_FILE: u32 = 2;

/// The number of a task with code of its own.
pub const TASK_RAW: u32 = 3;

/// The code of a message that wants no answer (User_Message).
const USER_MESSAGE: u32 = 17;

/// The code of one that comes back where it gets none (User_Message_Recorded).
const USER_MESSAGE_RECORDED: u32 = 18;

/// What stands for no command: it is out of range.
const NO_COMMAND: Command = Command::Make { most: 0 };

/// A name, if these bytes are one.
pub fn name_of(bytes: &[u8]) -> Option<Name>
    ensures { result ≡ name_read bytes.now }
{
    match Name::new(bytes) {
        Some(name) if name.is_valid() => Some(name),
        _ => None,
    }
}

/// An anchor, if a slot has it.
pub fn anchor_of(anchor: u32) -> Option<Anchor>
    ensures { result ≡ anchor_in anchor }
{
    if (anchor as usize) < ANCHORS {
        return Some(Anchor(anchor as u8));
    }
    None
}

fn manner_of(manner: u32) -> Option<Manner>
    ensures { result ≡ manner_at manner }
{
    match manner {
        TASK_PLAIN => Some(Manner::Plain),
        TASK_DEAF => Some(Manner::Deaf),
        TASK_FILE => Some(Manner::File),
        TASK_RAW => Some(Manner::Raw),
        _ => None,
    }
}

fn id_of(id: u32) -> Option<Ref>
    ensures { result ≡ id_in id }
{
    if id == 0 { None } else { Some(Ref(id)) }
}

/// Whether a message of this code wants an answer, if it is one that tasks send.
fn recorded_of(code: u32) -> Option<bool>
    ensures { result ≡ recorded_at code }
{
    match code {
        USER_MESSAGE => Some(false),
        USER_MESSAGE_RECORDED => Some(true),
        _ => None,
    }
}

/// A message's data, none where there are no bytes.
fn data_of(given: Data) -> Option<Data>
    ensures { result ≡ data_in given }
{
    if given.as_slice().is_empty() {
        return None;
    }
    Some(given)
}

/// The name that these bytes are, or what is none where they aren't: so a command is made in one way, and in its place.
/// No call of it is inlined, as the place would be cleared before it too.
#[inline(never)]
fn name_or_none(bytes: &[u8]) -> Name
    ensures { name_read result ≡ name_read bytes.now }
{
    match name_of(bytes) {
        Some(name) => name,
        None => Name::new(b"0").unwrap(),
    }
}

/// The anchor of this number, or what is none.
fn anchor_or_none(anchor: u32) -> Anchor
    ensures { anchor_in result ≡ anchor_in anchor }
{
    match anchor_of(anchor) {
        Some(anchor) => anchor,
        None => Anchor(ANCHORS as u8),
    }
}

/// The question as a command.
pub fn asked(question: Question) -> Command
    ensures { in_form result ≡ in_form (Command.Ask question) }
{
    Command::Ask(question)
}

/// The command that starts a task.
pub fn task(name: &[u8], buffer: u32, manner: u32) -> Command
    ensures { in_form result ≡ task_form name.now buffer (manner_at manner) }
{
    let Some(manner) = manner_of(manner) else {
        return NO_COMMAND;
    };
    let Some(name) = name_of(name) else {
        return NO_COMMAND;
    };
    Command::Task {
        name,
        buffer,
        manner,
    }
}

/// The command that ends a task.
pub fn kill(name: &[u8]) -> Command
    ensures { in_form result ≡ in_form (Command.Kill name.now) }
{
    let name = name_or_none(name);
    Command::Kill { name }
}

/// The command that allocates a flex block.
pub fn alloc(name: &[u8], anchor: u32, size: u32) -> Command
    ensures { in_form result ≡ in_form (Command.Alloc name.now anchor size) }
{
    let name = name_or_none(name);
    let anchor = anchor_or_none(anchor);
    Command::Alloc { name, anchor, size }
}

/// The command that loads a file into a flex block.
pub fn load(name: &[u8], anchor: u32, file: &[u8]) -> Command
    ensures { in_form result ≡ in_form (Command.Load name.now anchor file.now) }
{
    let name = name_or_none(name);
    let anchor = anchor_or_none(anchor);
    let file = name_or_none(file);
    Command::Load { name, anchor, file }
}

/// The command that frees a flex block.
pub fn free(name: &[u8], anchor: u32) -> Command
    ensures { in_form result ≡ in_form (Command.Free name.now anchor) }
{
    let name = name_or_none(name);
    let anchor = anchor_or_none(anchor);
    Command::Free { name, anchor }
}

/// The command that cuts or lengthens a flex block.
pub fn extend(name: &[u8], anchor: u32, size: u32) -> Command
    ensures { in_form result ≡ in_form (Command.Extend name.now anchor size) }
{
    let name = name_or_none(name);
    let anchor = anchor_or_none(anchor);
    Command::Extend { name, anchor, size }
}

/// The command that opens or closes a flex block at an offset.
pub fn mid(name: &[u8], anchor: u32, offset: u32, by: i32) -> Command
    ensures { in_form result ≡ in_form (Command.Mid name.now anchor offset by) }
{
    let name = name_or_none(name);
    let anchor = anchor_or_none(anchor);
    Command::Mid {
        name,
        anchor,
        offset,
        by,
    }
}

/// The command that claims a block of a C heap.
pub fn claim(name: &[u8], size: u32) -> Command
    ensures { in_form result ≡ in_form (Command.Claim name.now size) }
{
    let name = name_or_none(name);
    Command::Claim { name, size }
}

/// The command that releases one.
pub fn release(name: &[u8], address: u32) -> Command
    ensures { in_form result ≡ in_form (Command.Release name.now address) }
{
    let name = name_or_none(name);
    Command::Release { name, address }
}

/// The command that resizes one.
pub fn resize(name: &[u8], address: u32, delta: i32) -> Command
    ensures { in_form result ≡ in_form (Command.Resize name.now address delta) }
{
    let name = name_or_none(name);
    Command::Resize {
        name,
        address,
        delta,
    }
}

/// The command that turns budging on or off.
pub fn budge(name: &[u8], on: bool) -> Command
    ensures { in_form result ≡ in_form (Command.Budge name.now on) }
{
    let name = name_or_none(name);
    Command::Budge { name, on }
}

/// The command that offers a flex block to another task.
pub fn save(name: &[u8], anchor: u32, to: &[u8], leaf: &[u8]) -> Command
    ensures { in_form result ≡ in_form (Command.Save name.now anchor to.now leaf.now) }
{
    let mut letters = ArrayVec::new();
    if letters.try_extend_from_slice(leaf).is_err() {
        return NO_COMMAND;
    }
    let Some(name) = name_of(name) else {
        return NO_COMMAND;
    };
    let Some(anchor) = anchor_of(anchor) else {
        return NO_COMMAND;
    };
    let Some(to) = name_of(to) else {
        return NO_COMMAND;
    };
    Command::Save {
        name,
        anchor,
        to,
        leaf: Leaf::new(letters),
    }
}

/// The command that takes a task's next message.
pub fn poll(name: &[u8]) -> Command
    ensures { in_form result ≡ in_form (Command.Poll name.now) }
{
    let name = name_or_none(name);
    Command::Poll { name }
}

/// The command that gives up a transfer that comes in, the first one where the id is 0.
pub fn cancel_in(name: &[u8], id: u32) -> Command
    ensures { in_form result ≡ in_form (Command.CancelIn name.now (id_in id)) }
{
    let name = name_or_none(name);
    Command::CancelIn {
        name,
        id: id_of(id),
    }
}

/// The command that gives up a transfer that goes out, the first one where the id is 0.
pub fn cancel_out(name: &[u8], id: u32) -> Command
    ensures { in_form result ≡ in_form (Command.CancelOut name.now (id_in id)) }
{
    let name = name_or_none(name);
    Command::CancelOut {
        name,
        id: id_of(id),
    }
}

/// The command that sends the last message once more.
pub fn repeat(name: &[u8]) -> Command
    ensures { in_form result ≡ in_form (Command.Repeat name.now) }
{
    let name = name_or_none(name);
    Command::Repeat { name }
}

/// The command by which a task with code of its own sends a message of any action.
pub fn send(name: &[u8], code: u32, to: u32, your_ref: u32, action: u32, bytes: &[u8]) -> Command
    ensures { in_form result ≡ send_form name.now (recorded_at code) to your_ref action bytes.now }
{
    let mut copy = ArrayVec::new();
    if copy.try_extend_from_slice(bytes).is_err() {
        return NO_COMMAND;
    }
    let Some(recorded) = recorded_of(code) else {
        return NO_COMMAND;
    };
    let Some(name) = name_of(name) else {
        return NO_COMMAND;
    };
    Command::Raw(RawCommand::Send {
        name,
        recorded,
        to: Handle(to),
        your_ref: Ref(your_ref),
        action,
        data: data_of(Data::new(copy)),
    })
}

/// The command by which it says that the message which it holds is answered.
pub fn ack(name: &[u8]) -> Command
    ensures { in_form result ≡ in_form (Command.Raw (Raw.Ack name.now)) }
{
    let name = name_or_none(name);
    Command::Raw(RawCommand::Ack { name })
}

/// The command by which it moves bytes to a place that another task opened.
pub fn transfer(name: &[u8], address: u32, to: u32, place: u32, size: u32) -> Command
    ensures { in_form result ≡ in_form (Command.Raw (Raw.Transfer name.now address to place size)) }
{
    let name = name_or_none(name);
    Command::Raw(RawCommand::Transfer {
        name,
        address,
        to: Handle(to),
        place,
        size,
    })
}

/// The command by which it makes a flex block the scrap file, and tells a task of it.
pub fn spool(name: &[u8], anchor: u32, to: u32, your_ref: u32) -> Command
    ensures { in_form result ≡ in_form (Command.Raw (Raw.Spool name.now anchor to your_ref)) }
{
    let name = name_or_none(name);
    let anchor = anchor_or_none(anchor);
    Command::Raw(RawCommand::Spool {
        name,
        anchor,
        to: Handle(to),
        your_ref: Ref(your_ref),
    })
}

/// The command by which it puts the scrap file's bytes into a new flex block.
pub fn scrap(name: &[u8], anchor: u32) -> Command
    ensures { in_form result ≡ in_form (Command.Raw (Raw.Scrap name.now anchor)) }
{
    let name = name_or_none(name);
    let anchor = anchor_or_none(anchor);
    Command::Raw(RawCommand::Scrap { name, anchor })
}

/// The question for the bytes of a flex block.
pub fn show(name: &[u8], anchor: u32) -> Command
    ensures { in_form result ≡ in_form (Command.Ask (Question.Show name.now anchor)) }
{
    let name = name_or_none(name);
    let anchor = anchor_or_none(anchor);
    asked(Question::Show { name, anchor })
}

/// The question for a task's flex blocks.
pub fn blocks(name: &[u8]) -> Command
    ensures { in_form result ≡ in_form (Command.Ask (Question.Blocks name.now)) }
{
    let name = name_or_none(name);
    asked(Question::Blocks { name })
}

/// The question for the segments of a task's C heap.
pub fn heap(name: &[u8]) -> Command
    ensures { in_form result ≡ in_form (Command.Ask (Question.Heap name.now)) }
{
    let name = name_or_none(name);
    asked(Question::Heap { name })
}

/// The question for the records of a task's transfers.
pub fn status(name: &[u8]) -> Command
    ensures { in_form result ≡ in_form (Command.Ask (Question.Status name.now)) }
{
    let name = name_or_none(name);
    asked(Question::Status { name })
}
