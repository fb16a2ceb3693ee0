//! What a command did.

ghost use Rattle.std.specs.Prelude.{◌≡◌};
ghost use Rattle.std.specs.Option.{option_map};
ghost use Rattle.rh_defs.specs.Desk.{task_at};
ghost use Rattle.rh_defs.specs.Commands.{is_refused};
ghost use Rattle.rh_defs.specs.declared.command.Command.TheVariants.{Raw};
ghost use Rattle.rh_figure.specs.Scene.{Before, effect_of as effect_of_command};
ghost use Rattle.rh_figure.specs.Scene.{heap_effect_of as heap_effect_of_command, heap_mark as heap_mark_of};
ghost use Rattle.rh_figure.specs.Scene.{moved_effect as moved_effect_of};
ghost use Rattle.rh_figure.specs.Scene.{is_question as is_question_of, is_still as is_still_of, marks_for};
ghost use Rattle.rh_figure.specs.Scene.{marks_of as marks_of_desk, module_mark as module_mark_of, no_marks};
ghost use Rattle.rh_figure.specs.Scene.{put_mark as put_mark_of, sent_by as sent_by_task, taken_mark as taken_mark_of};
ghost use Rattle.rh_figure.specs.declared.heap_effect.HeapEffect.TheVariants.{Claimed, Released, Resized};
ghost use Rattle.rh_scene.specs.Seen.{letter_seen};
ghost use Rattle.rh_scene.specs.Steps.{IsSender, block_seen, effect_seen, marks_seen};

use crate::kept::Kept;
use crate::sight::Sight;
use crate::spots::{flex_block_in, heap_block_in, spot_by, spot_of, spot_taken};
use crate::step_sender::StepSender;
use crate::tasks::task_with;
use rh_defs::{Action, Anchor, Bytes, Command, Handle, Letter, Name, RawCommand, Ref, Reply};
use rh_figure::HeapEffect;

/// A block of a C heap: its task and its address, 0 and 0 for none.
#[derive(Clone, Copy, Debug, PartialEq, Eq)]
pub struct HeapBlock {
    pub handle: Handle,
    pub address: u32,
}

/// No block.
pub(crate) const NO_BLOCK: HeapBlock = HeapBlock {
    handle: Handle(0),
    address: 0,
};

/// What a command did that nothing in the desk behind it tells.
#[derive(Clone, Copy)]
pub enum Effect<'a> {
    None,
    Begun {
        name: &'a Name,
        handle: Handle,
    },
    Ended(&'a Name),
    Budging {
        name: &'a Name,
        was: bool,
        on: bool,
    },
    Longer {
        number: u32,
        bytes: u32,
    },
    Shorter {
        number: u32,
        bytes: u32,
    },
    Made {
        number: u32,
        most: u32,
    },
    Removed(u32),
    GivenUp(&'a Name),
    Written {
        anchor: Anchor,
        offset: u32,
        bytes: &'a Bytes,
    },
    Stored {
        name: &'a Name,
        address: u32,
        bytes: &'a Bytes,
    },
    Copied {
        name: &'a Name,
        size: u32,
        address: u32,
        to: Handle,
        place: u32,
    },
    Acknowledged {
        name: &'a Name,
        my_ref: Ref,
    },
}

/// What a command did: the task that it names, its effect, what became of a heap's block, the task and anchor of the
/// flex block that it wrote to, the block of a C heap and that of the module area (0 for none) that it made or changed,
/// the letter that was sent, and the message that was taken.
#[derive(Clone, Copy)]
pub struct Marks<'a> {
    pub handle: Handle,
    pub effect: Effect<'a>,
    pub heap_effect: HeapEffect,
    pub put: Option<(Handle, Anchor)>,
    pub heap: HeapBlock,
    pub module_block: u32,
    pub sent: Option<(&'a Letter, Ref)>,
    pub taken: Option<(Ref, Action)>,
}

impl<'a> Marks<'a> {
    /// What a command did, by its reply and the desk behind it; nothing for a bad line, a question or a refusal.
    pub fn new<S: Sight>(
        sight: &'a S,
        kept: &Kept,
        command: Option<&'a Command>,
        reply: &Reply,
    ) -> Marks<'a>
        ensures { marks_seen result ≡ marks_of_desk (S.desk sight.now) kept.now (option_map
            (λ c. c.now) command.entry) reply.now }
    {
        match command {
            Some(command) if !is_still(Some(command), reply) => {
                Marks::of_change(sight, kept, command, reply)
            }
            _ => Marks::none(),
        }
    }

    /// Nothing was done.
    fn none() -> Marks<'a>
        ensures { marks_seen result ≡ no_marks }
    {
        Marks {
            handle: Handle(0),
            effect: Effect::None,
            heap_effect: HeapEffect::Nothing,
            put: None,
            heap: NO_BLOCK,
            module_block: 0,
            sent: None,
            taken: None,
        }
    }

    /// What a command that was granted did.
    fn of_change<S: Sight>(
        sight: &'a S,
        kept: &Kept,
        command: &'a Command,
        reply: &Reply,
    ) -> Marks<'a>
        ensures { marks_seen result ≡ marks_for (S.desk sight.now) kept.now command.now reply.now }
    {
        let handle = kept.handle();
        let sent = sent_by(sight, kept.sender());
        let sent_to = match sent {
            Some((letter, _)) => spot_of(letter),
            None => None,
        };
        let spot = spot_by(handle, command, spot_taken(taken_mark(reply), sent_to));
        let put = put_mark(handle, command, flex_block_in(sight, &spot));
        let heap = heap_mark(handle, command, reply, heap_block_in(sight, &spot));
        Marks {
            handle,
            effect: effect_of(command, reply),
            heap_effect: heap_effect_of(handle, command, reply),
            put,
            heap,
            module_block: module_mark(command, reply),
            sent,
            taken: taken_mark(reply),
        }
    }
}

/// Whether a step can't have changed the desk: a bad line, a question, a refusal.
pub fn is_still(command: Option<&Command>, reply: &Reply) -> bool
    ensures { result ≡ is_still_of (option_map (λ c. c.now) command.entry) reply.now }
{
    match command {
        None => true,
        Some(command) => is_question(command) || is_refusal(reply),
    }
}

fn is_question(command: &Command) -> bool
    ensures { result ≡ is_question_of command.now }
{
    matches!(command, Command::Ask(_))
}

fn is_refusal(reply: &Reply) -> bool
    ensures { result ≡ is_refused reply.now }
{
    matches!(reply, Reply::Refused(_))
}

/// The last letter of the task that may have sent one at a step, if it was sent at that step.
pub fn sent_by<'a, S: Sight>(sight: &'a S, sender: StepSender) -> Option<(&'a Letter, Ref)>
    ensures { (b : Before) → IsSender sender b → option_map letter_seen result
        ≡ sent_by_task b (task_at b.handle (S.desk sight.now)) }
{
    let i = task_with(sight, sender.handle)?;
    let Some(task) = sight.task(i) else {
        return None;
    };
    match task.last_sent {
        Some((letter, my_ref)) if u64::from(my_ref.0) == sender.next_ref => Some((letter, my_ref)),
        _ => None,
    }
}

/// The block of the task's C heap that a command made or changed, else another one.
fn heap_mark(handle: Handle, command: &Command, reply: &Reply, other: HeapBlock) -> HeapBlock
    ensures { block_seen result ≡ heap_mark_of handle command.now reply.now (block_seen other) }
{
    match (command, reply) {
        (Command::Claim { .. } | Command::Resize { .. }, Reply::Block { address }) => HeapBlock {
            handle,
            address: *address,
        },
        _ => other,
    }
}

/// The block of the module area that a command made or changed, 0 for none.
fn module_mark(command: &Command, reply: &Reply) -> u32
    ensures { result ≡ module_mark_of command.now reply.now }
{
    match (command, reply) {
        (Command::RmaClaim { .. } | Command::RmaResize { .. }, Reply::Block { address }) =>
            *address,
        _ => 0,
    }
}

/// The flex block of the task that a command put bytes into by its anchor, else another one.
fn put_mark(
    handle: Handle,
    command: &Command,
    other: Option<(Handle, Anchor)>,
) -> Option<(Handle, Anchor)>
    ensures { result ≡ put_mark_of handle command.now other }
{
    match command {
        Command::Put { anchor, .. } => Some((handle, *anchor)),
        _ => other,
    }
}

/// What a command did that nothing in the desk behind it tells.
fn effect_of<'a>(command: &'a Command, reply: &Reply) -> Effect<'a>
    ensures { effect_seen result ≡ effect_of_command command.now reply.now }
{
    match (command, reply) {
        (Command::Task { name, .. }, Reply::Started(handle)) => Effect::Begun {
            name,
            handle: *handle,
        },
        (Command::Kill { name }, _) => Effect::Ended(name),
        (Command::Budge { name, on }, Reply::WasBudging(was)) => Effect::Budging {
            name,
            was: *was,
            on: *on,
        },
        (Command::Area { number, delta }, Reply::Moved { bytes }) => moved_effect(
            *number, *delta, *bytes,
        ),
        (Command::Make { most }, Reply::Made { number }) => Effect::Made {
            number: *number,
            most: *most,
        },
        (Command::Remove { number }, _) => Effect::Removed(*number),
        (Command::CancelIn { name, .. }, _) => Effect::GivenUp(name),
        (Command::CancelOut { name, .. }, _) => Effect::GivenUp(name),
        (
            Command::Put {
                anchor,
                offset,
                bytes,
                ..
            },
            _,
        ) => Effect::Written {
            anchor: *anchor,
            offset: *offset,
            bytes,
        },
        (Command::Raw(command), _) => raw_effect(command, reply),
        _ => Effect::None,
    }
}

/// What a command of a task with code of its own did that nothing in the desk behind it tells.
fn raw_effect<'a>(command: &'a RawCommand, reply: &Reply) -> Effect<'a>
    ensures { effect_seen result ≡ effect_of_command (Raw command.now) reply.now }
{
    match (command, reply) {
        (
            RawCommand::Write {
                name,
                address,
                bytes,
            },
            _,
        ) => Effect::Stored {
            name,
            address: *address,
            bytes,
        },
        (
            RawCommand::Transfer {
                name,
                address,
                to,
                place,
                size,
            },
            _,
        ) => Effect::Copied {
            name,
            size: *size,
            address: *address,
            to: *to,
            place: *place,
        },
        (RawCommand::Ack { name }, Reply::Answering(my_ref)) => Effect::Acknowledged {
            name,
            my_ref: *my_ref,
        },
        _ => Effect::None,
    }
}

/// What became of a heap's block, by the handle of the task that the command names.
fn heap_effect_of(handle: Handle, command: &Command, reply: &Reply) -> HeapEffect
    ensures { result ≡ heap_effect_of_command handle command.now reply.now }
{
    let area = Handle(0);
    match (command, reply) {
        (Command::Claim { .. }, Reply::Block { address }) => claimed(handle, *address),
        (Command::Release { address, .. }, _) => released(handle, *address),
        (Command::Resize { address, .. }, Reply::Block { address: to }) => {
            resized(handle, *address, *to)
        }
        (Command::RmaClaim { .. }, Reply::Block { address }) => claimed(area, *address),
        (Command::RmaFree { address }, _) => released(area, *address),
        (Command::RmaResize { address, .. }, Reply::Block { address: to }) => {
            resized(area, *address, *to)
        }
        _ => HeapEffect::Nothing,
    }
}

/// A block that was claimed, one that was released, and one that was resized.
fn claimed(handle: Handle, address: u32) -> HeapEffect
    ensures { result ≡ Claimed handle address }
{
    HeapEffect::Claimed { handle, address }
}

fn released(handle: Handle, address: u32) -> HeapEffect
    ensures { result ≡ Released handle address }
{
    HeapEffect::Released { handle, address }
}

fn resized(handle: Handle, from: u32, to: u32) -> HeapEffect
    ensures { result ≡ Resized handle from to }
{
    HeapEffect::Resized { handle, from, to }
}

/// An area that got bytes, or lost them.
fn moved_effect(number: u32, delta: i32, bytes: u32) -> Effect<'static>
    ensures { effect_seen result ≡ moved_effect_of number delta bytes }
{
    if delta < 0 {
        Effect::Shorter { number, bytes }
    } else {
        Effect::Longer { number, bytes }
    }
}

/// The message that a poll took.
fn taken_mark(reply: &Reply) -> Option<(Ref, Action)>
    ensures { result ≡ taken_mark_of reply.now }
{
    match reply {
        Reply::Event { my_ref, action, .. } => Some((*my_ref, *action)),
        _ => None,
    }
}
