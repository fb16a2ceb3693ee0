//! Letterboxes: what each task holds, and what waits for it.

ghost use Rattle.std.specs.Prelude.{◌≡◌, ◌≤◌, ◌<◌, ◌+◌, ◌∷◌, ◌++◌, [], List, filter, find, flat_map, length, map};
ghost use Rattle.std.specs.Prelude.{min, take};
ghost use Rattle.std.specs.List.{list_any};
ghost use Rattle.std.specs.Option.{option_map};
ghost use Rattle.rh_defs.specs.Post.{most_messages};
ghost use Rattle.rh_defs.specs.Desk.{Task};
ghost use Rattle.rh_pictures.specs.DrawnLetters.{has_letters_in};
ghost use Rattle.rh_pictures.specs.Inner.LettersBehind.{entry_seen, letterboxes_in};
ghost use Rattle.rh_figure.specs.Figure.{letterboxes};
ghost use Rattle.rh_figure.specs.declared.limits.TheConstants.{MOST_LISTED};
ghost use Rattle.rh_map.specs.declared.letterboxes.MessageEntry.{MessageEntry};
ghost use Rattle.rh_scene.specs.SightMessages.{is_held_by, waits_for};
ghost use Rattle.rh_scene.specs.Steps.{IsStepOf, scene_at};

use crate::artist::Artist;
use rh_defs::{Action, EventCode, Handle, MessageItem, Name, Ref};
use rh_figure::limits::MOST_LISTED;
use rh_lines::Pen;
use rh_map::MessageEntry;
use rh_scene::{Sight, Step, held_by};

/// No message, in a place for one.
const NO_ENTRY: MessageEntry = MessageEntry {
    my_ref: Ref(0),
    action: Action::DataSave,
    code: EventCode::User,
};

/// The first messages that wait for a task, and how many wait.
#[derive(Drop)]
struct Waits {
    first: [MessageEntry; MOST_LISTED],
    count: usize,
}

/// Whether some task has a message.
pub fn has_letterboxes<S: Sight>(sight: &S, messages: &[MessageItem]) -> bool
    ensures { result ≡ list_any (λ (t : Task). has_letters_in t.handle messages.now) (S.desk sight.now).tasks }
{
    let mut i = 0;
    'tasks: while let Some(task) = sight.task(i) {
        if has_letters(messages, task.handle) {
            return true;
        }
        i += 1;
    }
    false
}

/// Whether a message is for the task, be it held or waiting.
fn has_letters(messages: &[MessageItem], handle: Handle) -> bool
    ensures { result ≡ has_letters_in handle messages.now }
{
    messages.iter().any(|message| message.to == handle)
}

/// Shows the messages of each task that has some.
pub fn show_letterboxes<S: Sight, A: Artist, P: Pen>(
    sight: &S,
    step: &Step<'_>,
    artist: &A,
    pen: &mut P,
)
    requires step { IsStepOf (S.desk sight.now) step.now }
    requires few { length step.now.messages.now ≤ most_messages }
    ensures { P.offered pen.new ≡ P.offered pen.old
        ++ flat_map A.letterbox_text (letterboxes (scene_at (S.desk sight.now) step.now)) }
{
    sight.recall_desk();
    let mut i = 0;
    'tasks: while let Some(task) = sight.task(i) {
        show_letters(task.name, task.handle, step.messages, artist, pen);
        i += 1;
    }
}

/// Shows what a task holds, and what waits for it, if a message is for it.
fn show_letters<A: Artist, P: Pen>(
    name: &Name,
    handle: Handle,
    messages: &[MessageItem],
    artist: &A,
    pen: &mut P,
)
    requires { length messages.now ≤ most_messages }
    ensures { P.offered pen.new ≡ P.offered pen.old
        ++ flat_map A.letterbox_text (letterboxes_in name.now handle messages.now) }
{
    if !has_letters(messages, handle) {
        return;
    }
    let held = held_entry(messages, handle);
    let waits = waits_of(messages, handle);
    let first = &waits.first[..waits.count.min(MOST_LISTED)];
    artist.letterbox(name, held, first, waits.count, pen);
}

/// The message that a task holds.
fn held_entry(messages: &[MessageItem], handle: Handle) -> Option<MessageEntry>
    ensures { result ≡ option_map entry_seen (find (is_held_by handle) messages.now) }
{
    match held_by(messages, handle) {
        Some(message) => Some(entry(&message)),
        None => None,
    }
}

/// The messages that wait for a task.
fn waits_of(messages: &[MessageItem], handle: Handle) -> Waits
    requires { length messages.now ≤ most_messages }
    ensures count { result.count ≡ length (map entry_seen (filter (waits_for handle) messages.now)) }
    ensures first { take (min result.count MOST_LISTED) result.first
        ≡ take MOST_LISTED (map entry_seen (filter (waits_for handle) messages.now)) }
{
    let mut waits = Waits {
        first: [NO_ENTRY; MOST_LISTED],
        count: 0,
    };
    for message in messages {
        if is_waiting(message, handle) {
            waits.note(entry(message));
        }
    }
    waits
}

/// Whether a message waits for the task.
fn is_waiting(message: &MessageItem, handle: Handle) -> bool
    ensures { result ≡ waits_for handle message.now }
{
    !message.held && message.to == handle
}

impl Waits {
    /// Counts one more, and keeps it if it is one of the first.
    fn note(&mut self, entry: MessageEntry)
        requires few { self.old.count < most_messages }
        requires room { length self.old.first ≡ MOST_LISTED }
        ensures room { length self.new.first ≡ MOST_LISTED }
        ensures count { self.new.count ≡ self.old.count + 1 }
        ensures first { (ws : List MessageEntry) → length ws ≡ self.old.count
            → take (min self.old.count MOST_LISTED) self.old.first ≡ take MOST_LISTED ws →
            take (min self.new.count MOST_LISTED) self.new.first ≡ take MOST_LISTED (ws ++ entry ∷ []) }
    {
        let place = self.count;
        self.count += 1;
        if place < MOST_LISTED {
            self.first[place] = entry;
        }
    }
}

/// A message as a letterbox has it.
fn entry(message: &MessageItem) -> MessageEntry
    ensures { result ≡ entry_seen message.now }
{
    MessageEntry {
        my_ref: message.my_ref,
        action: message.action,
        code: message.code,
    }
}
