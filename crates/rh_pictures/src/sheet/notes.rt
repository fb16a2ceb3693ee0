//! What is kept of the last messages, step by step.

ghost use Rattle.std.specs.Prelude.{◌≡◌, ◌≤◌, ◌∷◌, ◌++◌, [], is_some, length, map};
ghost use Rattle.rh_defs.specs.Desk.{task_at};
ghost use Rattle.rh_pictures.specs.Inner.Notes.{code_among, seen_among};
ghost use Rattle.rh_figure.specs.Scene.{Before, Marks, scene_of, sent_by as sent_by_task};
ghost use Rattle.rh_figure.specs.Share.{Share};
ghost use Rattle.rh_sheet.specs.Fates.{answered_by, followed as note_after, last_of, next_taker as taker_of};
ghost use Rattle.rh_sheet.specs.Fates.{note_of, noted};
ghost use Rattle.rh_sheet.specs.declared.sizes.TheConstants.{MOST_NOTES};
ghost use Rattle.rh_scene.specs.SightMessages.{message_items};
ghost use Rattle.rh_scene.specs.Seen.{letter_seen};
ghost use Rattle.rh_scene.specs.Steps.{IsSender};

use crate::walks::taken_changes::holds_ref;
use arrayvec::ArrayVec;
use rh_defs::{EventCode, Handle, Letter, MessageItem, Ref};
use rh_elements::{followed, is_queued};
use rh_scene::{Messages, Sight, StepSender, sent_by, task_with};
use rh_sheet::sizes::MOST_NOTES;
use rh_sheet::{Fate, Note, Whereabouts};

/// What is kept of the last messages, the oldest first.
pub type Notes = ArrayVec<Note, MOST_NOTES>;

/// Notes what has become of the last messages at a step with a number, and the letter that was sent at it, by who may
/// have sent one.
pub fn note_step<S: Sight>(
    sight: &S,
    sender: StepSender,
    number: u32,
    messages: &mut Messages,
    notes: &mut Notes,
)
    ensures { (s : Share) (b : Before) (m : Marks) → IsSender sender b → notes.new.items
        ≡ noted number (scene_of (S.desk sight.now) s b m) notes.old.items }
{
    let answered = answered_at(sight, &sender);
    follow_messages(sight, number, answered, messages, notes);
    if let Some(sent) = sent_by(sight, sender) {
        keep_note(new_note(number, sent), notes);
    }
}

/// The ref that the letter of a step answers, by who may have sent one, or without one that the command acknowledges: 0
/// for none.
fn answered_at<S: Sight>(sight: &S, sender: &StepSender) -> Ref
    ensures { (b : Before) → IsSender sender.now b → result
        ≡ answered_by b.acknowledged (sent_by_task b (task_at b.handle (S.desk sight.now))) }
{
    match sent_by(sight, *sender) {
        Some((letter, _)) => letter.your_ref,
        None => sender.acknowledged,
    }
}

/// Notes what has become of each of the last messages at a step that answers or acknowledges one. The list of those
/// that are live is made only where one is noted.
fn follow_messages<S: Sight>(
    sight: &S,
    number: u32,
    answered: Ref,
    messages: &mut Messages,
    notes: &mut Notes,
)
    ensures notes { notes.new.items ≡ map (λ n. note_after number (seen_among (S.desk sight.now) answered (message_items
        (S.desk sight.now)) n) n) notes.old.items }
    ensures few { length notes.old.items ≤ MOST_NOTES }
{
    if notes.is_empty() {
        return;
    }
    sight.messages(messages);
    follow_notes(sight, number, answered, messages, notes);
}

/// Notes what has become of each of the last messages, of which these are live behind the step.
fn follow_notes<S: Sight>(
    sight: &S,
    number: u32,
    answered: Ref,
    messages: &[MessageItem],
    notes: &mut [Note],
)
    ensures { notes.new ≡ map (λ n. note_after number (seen_among (S.desk sight.now) answered messages.now n) n)
        notes.old }
{
    for note in notes.iter_mut() {
        let seen = whereabouts(sight, answered, messages, note);
        *note = followed(number, seen, *note);
    }
}

/// Where a message is behind the step.
fn whereabouts<S: Sight>(
    sight: &S,
    answered: Ref,
    messages: &[MessageItem],
    note: &Note,
) -> Whereabouts
    ensures { result ≡ seen_among (S.desk sight.now) answered messages.now note.now }
{
    let my_ref = Ref(note.my_ref);
    Whereabouts {
        code: waiting_code(messages, my_ref),
        held: holds_ref(messages, my_ref),
        answered: my_ref == answered,
        live: is_live(sight, next_taker(note)),
    }
}

/// The task that takes a message next, where nobody answers it.
fn next_taker(note: &Note) -> Handle
    ensures { result ≡ taker_of note.now }
{
    if is_queued(note.fate) {
        Handle(note.to)
    } else {
        Handle(note.from)
    }
}

/// Whether a task with the handle is live.
fn is_live<S: Sight>(sight: &S, handle: Handle) -> bool
    ensures { result ≡ is_some (task_at handle (S.desk sight.now)) }
{
    task_with(sight, handle).is_some()
}

/// The event code of the message with the ref that waits, 0 where none does.
fn waiting_code(messages: &[MessageItem], my_ref: Ref) -> u32
    ensures { result ≡ code_among my_ref messages.now }
{
    for message in messages {
        if !message.held && message.my_ref == my_ref {
            return message.code.number();
        }
    }
    0
}

/// Appends a note, in place of the oldest where there is no room.
fn keep_note(note: Note, notes: &mut Notes)
    ensures { notes.new.items ≡ last_of MOST_NOTES (notes.old.items ++ note ∷ []) }
{
    if notes.is_full() {
        notes.remove(0);
    }
    notes.push(note);
}

/// The note of a letter that was sent at a step.
fn new_note(number: u32, sent: (&Letter, Ref)) -> Note
    ensures { result ≡ note_of number (letter_seen sent.entry) }
{
    let (letter, my_ref) = sent;
    Note {
        my_ref: my_ref.0,
        from: letter.from.0,
        to: letter.to.0,
        action: letter.body.action(),
        wants_answer: matches!(letter.code, EventCode::Recorded),
        fate: Fate::Queued,
        sent: number,
        reached: 0,
        back: 0,
        ended: 0,
    }
}
