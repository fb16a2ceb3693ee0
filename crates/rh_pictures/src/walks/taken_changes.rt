//! What has become of the message that a poll took, and what will.

ghost use Rattle.std.specs.Prelude.{◌≡◌, ◌||◌, ◌++◌, flat_map};
ghost use Rattle.std.specs.List.{list_any};
ghost use Rattle.rh_figure.specs.Changes.{back_text, comes_back as comes_back_among, holding_text};
ghost use Rattle.rh_figure.specs.Changes.{is_held as is_held_in};
ghost use Rattle.rh_figure.specs.Changes.{goes_back_next as goes_back_next_of};
ghost use Rattle.rh_pictures.specs.Inner.Notes.{holds_as};
ghost use Rattle.rh_scene.specs.Steps.{IsStepOf, scene_at};

use crate::artist::Artist;
use crate::who::who_of;
use rh_defs::{EventCode, MessageItem, Ref};
use rh_lines::Pen;
use rh_map::{message_came_back, task_holds};
use rh_scene::{Sight, Step};

/// Shows that the message which the named task took has come back to it, if it has.
pub fn show_back<S: Sight, A: Artist, P: Pen>(sight: &S, step: &Step<'_>, artist: &A, pen: &mut P)
    ensures { let x = scene_at (S.desk sight.now) step.now in P.offered pen.new ≡ P.offered pen.old
        ++ flat_map A.change_text (back_text x x.marks.taken) }
{
    let Some((my_ref, action)) = step.marks.taken else {
        return;
    };
    if comes_back(step.kept.messages(), my_ref) {
        artist.change(&message_came_back(action, my_ref), pen);
    }
}

/// Shows that the named task holds the message that it took, if it does.
pub fn show_held<S: Sight, A: Artist, P: Pen>(sight: &S, step: &Step<'_>, artist: &A, pen: &mut P)
    requires { IsStepOf (S.desk sight.now) step.now }
    ensures { let x = scene_at (S.desk sight.now) step.now in P.offered pen.new ≡ P.offered pen.old
        ++ flat_map A.change_text (holding_text x x.marks.taken) }
{
    let Some((my_ref, action)) = step.marks.taken else {
        return;
    };
    if is_held(sight, step, my_ref) {
        let who = who_of(sight, step.marks.handle);
        artist.change(&task_holds(&who, action, my_ref), pen);
    }
}

/// Whether the message with the ref comes back to the task that takes it, by all messages before.
fn comes_back(messages: &[MessageItem], my_ref: Ref) -> bool
    ensures { result ≡ comes_back_among my_ref messages.now }
{
    messages.iter().any(|message| message.my_ref == my_ref && goes_back_next(message))
}

/// Whether a message goes back next: it waits for its sender, or is held by it.
fn goes_back_next(message: &MessageItem) -> bool
    ensures { result ≡ goes_back_next_of message.now }
{
    matches!(message.code, EventCode::Acknowledge) || message.held
}

/// Whether a task holds the message with the ref behind the command.
fn is_held<S: Sight>(sight: &S, step: &Step<'_>, my_ref: Ref) -> bool
    requires { IsStepOf (S.desk sight.now) step.now }
    ensures { result ≡ is_held_in (scene_at (S.desk sight.now) step.now) my_ref }
{
    sight.recall_desk();
    holds_ref(step.messages, my_ref)
}

/// Whether one of some messages has the ref and is held.
pub(crate) fn holds_ref(messages: &[MessageItem], my_ref: Ref) -> bool
    ensures { result ≡ list_any (holds_as my_ref) messages.now }
{
    messages
        .iter()
        .any(|message| message.held && message.my_ref == my_ref)
}
