//! Who may send a letter at a step.

ghost use Rattle.std.specs.Prelude.{◌≡◌, slice_get, Some};
ghost use Rattle.std.specs.Option.{option_map};
ghost use Rattle.rh_defs.specs.Desk.{Task};
ghost use Rattle.rh_figure.specs.Scene.{before_of, before_task, held_in, task_in};
ghost use Rattle.rh_scene.specs.Steps.{IsSender};

use crate::kept::is_acknowledgement;
use crate::message_list::held_ref;
use crate::sight::{Messages, Sight};
use crate::tasks::task_about;
use rh_defs::{Command, Handle, Ref};

/// Who may send a letter at a step: the task that the command names, 0 for none, and the ref that its letter would
/// have; and the ref of the message that the command acknowledges, 0 for none.
#[derive(Clone, Copy, Debug, PartialEq, Eq)]
pub struct StepSender {
    pub handle: Handle,
    pub next_ref: u64,
    pub acknowledged: Ref,
}

impl StepSender {
    /// Who may send one at a command, or at a bad line, by the desk before it. A list has room for all messages.
    pub fn new<S: Sight>(
        sight: &S,
        command: Option<&Command>,
        messages: &mut Messages,
    ) -> StepSender
        ensures { IsSender result (before_of (S.desk sight.now) (option_map (λ c. c.now) command.entry)) }
    {
        StepSender {
            handle: handle_about(sight, command),
            next_ref: sight.next_ref(),
            acknowledged: acknowledged_about(sight, command, messages),
        }
    }
}

/// The task that a command is about, 0 for none.
fn handle_about<S: Sight>(sight: &S, command: Option<&Command>) -> Handle
    ensures { result ≡ (before_of (S.desk sight.now) (option_map (λ c. c.now) command.entry)).handle }
{
    let Some(i) = task_about(sight, command) else {
        return Handle(0);
    };
    match sight.task(i) {
        Some(task) => task.handle,
        None => Handle(0),
    }
}

/// The ref of the message that a command acknowledges, 0 for none.
fn acknowledged_about<S: Sight>(
    sight: &S,
    command: Option<&Command>,
    messages: &mut Messages,
) -> Ref
    ensures { result ≡ (before_of (S.desk sight.now) (option_map (λ c. c.now) command.entry)).acknowledged }
{
    if is_acknowledgement(command) {
        held_about(sight, command, messages)
    } else {
        Ref(0)
    }
}

/// The ref of the message that the task holds which a command is about, 0 for none.
fn held_about<S: Sight>(sight: &S, command: Option<&Command>, messages: &mut Messages) -> Ref
    ensures { result ≡ held_in (S.desk sight.now) (task_in (option_map
        (λ c. c.now) command.entry) (S.desk sight.now)) }
{
    match task_about(sight, command) {
        Some(i) => held_at(sight, i, messages),
        None => Ref(0),
    }
}

/// The ref of the message that the task at a place holds, 0 for none.
fn held_at<S: Sight>(sight: &S, i: usize, messages: &mut Messages) -> Ref
    ensures { (t : Task) → slice_get (S.desk sight.now).tasks i ≡ Some t
        → result ≡ held_in (S.desk sight.now) (Some t) }
{
    sight.recall_desk();
    sight.messages(messages);
    let Some(task) = sight.task(i) else {
        return Ref(0);
    };
    held_ref(messages, task.handle)
}
