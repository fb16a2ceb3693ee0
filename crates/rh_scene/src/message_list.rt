//! Looking through the list of all messages.

ghost use Rattle.std.specs.Prelude.{◌≡◌, filter, find};
ghost use Rattle.rh_scene.specs.SightMessages.{items_behind, first_ref, held_ref as held_ref_in, is_held_by, lies_in};
ghost use Rattle.rh_scene.specs.SightMessages.{message_place, waits_for};

use rh_defs::{Handle, MessageItem, Ref};

/// Where a message stands in the chain of its task.
#[derive(Clone, Copy, Debug, PartialEq, Eq)]
pub enum MessagePlace {
    /// The task holds it.
    Held,
    /// It waits, and behind it the message with the ref.
    Before(Ref),
    /// It waits, and none behind it.
    Last,
}

/// The message that a task holds.
pub fn held_by(messages: &[MessageItem], handle: Handle) -> Option<MessageItem>
    ensures { result ≡ find (is_held_by handle) messages.now }
{
    for message in messages {
        if message.held && message.to == handle {
            return Some(*message);
        }
    }
    None
}

/// The message that begins at a place of the module area.
pub fn message_in(messages: &[MessageItem], block: u32) -> Option<MessageItem>
    ensures { result ≡ find (lies_in block) messages.now }
{
    for message in messages {
        if message.block == block {
            return Some(*message);
        }
    }
    None
}

/// Where a message stands in the chain of its task.
pub fn place_of(messages: &[MessageItem], message: MessageItem) -> MessagePlace
    ensures { result ≡ message_place messages.now message }
{
    if held_ref(messages, message.to) == message.my_ref {
        return MessagePlace::Held;
    }
    match next_behind(messages, message) {
        Some(next) => MessagePlace::Before(next),
        None => MessagePlace::Last,
    }
}

/// The ref of the message that a task holds, 0 for none.
pub(crate) fn held_ref(messages: &[MessageItem], handle: Handle) -> Ref
    ensures { result ≡ held_ref_in handle messages.now }
{
    match held_by(messages, handle) {
        Some(held) => held.my_ref,
        None => Ref(0),
    }
}

/// The ref of the message that waits for the same task behind this one.
fn next_behind(messages: &[MessageItem], message: MessageItem) -> Option<Ref>
    ensures { result ≡ first_ref (items_behind message.my_ref (filter (waits_for message.to) messages.now)) }
{
    let mut seen = false;
    for other in messages {
        if !other.held && other.to == message.to {
            if seen {
                return Some(other.my_ref);
            }
            seen = other.my_ref == message.my_ref;
        }
    }
    None
}
