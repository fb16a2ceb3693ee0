//! What has changed of the messages.

ghost use Rattle.std.specs.Prelude.{◌≡◌, ◌≤◌, ◌==◌, ◌++◌, filter, flat_map, length, map, Some};
ghost use Rattle.std.specs.List.{list_any};
ghost use Rattle.std.specs.Option.{option_map};
ghost use Rattle.rh_defs.specs.declared.message.MessageItem.{MessageItem};
ghost use Rattle.rh_defs.specs.Post.{most_messages};
ghost use Rattle.rh_pictures.specs.Returns.{returns};
ghost use Rattle.rh_pictures.specs.Inner.ReturnLines.{return_lines, vanish_lines};
ghost use Rattle.rh_figure.specs.Changes.{bouncing, bounced_text, bytes_sent_text, has_vanished as has_vanished_in};
ghost use Rattle.rh_figure.specs.Changes.{answers_ref, is_live as is_live_in, name_before};
ghost use Rattle.rh_figure.specs.Changes.{is_acknowledged as is_acknowledged_ref, is_taken as is_taken_ref};
ghost use Rattle.rh_figure.specs.Changes.{post_changes, returns_text, sent_text, taken_text, vanished_text};
ghost use Rattle.rh_figure.specs.Changes.{vanishes_text, was_out as was_out_before, where_taken};
ghost use Rattle.rh_figure.specs.Phrases.{is_returned as is_returned_as};
ghost use Rattle.rh_figure.specs.Scene.{Before, Marks, scene_of};
ghost use Rattle.rh_figure.specs.Share.{Share};
ghost use Rattle.rh_map.specs.MapTasks.{who_text};
ghost use Rattle.rh_scene.specs.Seen.{letter_seen};
ghost use Rattle.rh_scene.specs.Steps.{IsStepOf, effect_seen, scene_at};

use crate::artist::Artist;
use crate::who::who_of;
use rh_defs::{Body, EventCode, Handle, Letter, MessageItem, Ref};
use rh_figure::limits::MOST_FATES;
use rh_lines::Pen;
use rh_map::{
    Who, bytes_sent, message_returns, message_vanishes, messages_return, messages_vanish,
    task_sends, task_takes,
};
use rh_scene::{Effect, Sight, Step};

/// Shows which messages go back, which was taken, which vanished, and which was sent.
pub fn show_post_changes<S: Sight, A: Artist, P: Pen>(
    sight: &S,
    step: &Step<'_>,
    artist: &A,
    pen: &mut P,
)
    requires step { IsStepOf (S.desk sight.now) step.now }
    requires few { length step.now.messages.now ≤ most_messages }
    ensures { P.offered pen.new ≡ P.offered pen.old
        ++ flat_map A.change_text (post_changes (scene_at (S.desk sight.now) step.now)) }
{
    show_bounced(sight, step, artist, pen);
    show_taken(sight, step, artist, pen);
    show_vanished(sight, step, artist, pen);
    if let Some((letter, my_ref)) = step.marks.sent {
        show_sent(sight, step, letter, my_ref, artist, pen);
    }
}

/// Shows which messages go back, or how many where there are more than a few.
fn show_bounced<S: Sight, A: Artist, P: Pen>(sight: &S, step: &Step<'_>, artist: &A, pen: &mut P)
    requires step { IsStepOf (S.desk sight.now) step.now }
    requires few { length step.now.messages.now ≤ most_messages }
    ensures { P.offered pen.new ≡ P.offered pen.old
        ++ flat_map A.change_text (bounced_text (scene_at (S.desk sight.now) step.now)) }
{
    let count = count_returned(step);
    if count > MOST_FATES {
        artist.change(&messages_return(count as u32), pen);
    } else {
        show_returned(sight, step, artist, pen);
    }
}

/// How many messages go back.
fn count_returned(step: &Step<'_>) -> usize
    ensures value { result ≡ length (filter (returns step.now.kept.now.messages) step.now.messages.now) }
    ensures few { result ≤ length step.now.messages.now }
{
    let mut count = 0;
    for message in step.messages {
        if goes_back(step, message) {
            count += 1;
        }
    }
    count
}

/// Shows which messages go back, each by a line of its own.
fn show_returned<S: Sight, A: Artist, P: Pen>(sight: &S, step: &Step<'_>, artist: &A, pen: &mut P)
    requires { IsStepOf (S.desk sight.now) step.now }
    ensures { let x = scene_at (S.desk sight.now) step.now in
        P.offered pen.new ≡ P.offered pen.old ++ flat_map A.change_text (map (returns_text x) (bouncing x)) }
{
    for message in step.messages {
        show_return(sight, step, message, artist, pen);
    }
}

/// Shows that a message goes back, if it does.
fn show_return<S: Sight, A: Artist, P: Pen>(
    sight: &S,
    step: &Step<'_>,
    message: &MessageItem,
    artist: &A,
    pen: &mut P,
)
    ensures { P.offered pen.new ≡ P.offered pen.old
        ++ flat_map A.change_text (return_lines (S.desk sight.now) step.now.kept.now.messages message.now) }
{
    if !goes_back(step, message) {
        return;
    }
    let to = who_of(sight, message.to);
    artist.change(&message_returns(message.action, message.my_ref, &to), pen);
}

/// Whether a message that waits is on its way back, and wasn't before the command.
pub fn goes_back(step: &Step<'_>, message: &MessageItem) -> bool
    ensures { result ≡ returns step.now.kept.now.messages message.now }
{
    !message.held && is_returned(message.code) && was_out(step.kept.messages(), message.my_ref)
}

/// Whether a message that didn't come back before the command is among some.
fn was_out(messages: &[MessageItem], my_ref: Ref) -> bool
    ensures { result ≡ was_out_before my_ref messages.now }
{
    messages.iter().any(|message| message.my_ref == my_ref && !is_returned(message.code))
}

fn is_returned(code: EventCode) -> bool
    ensures { result ≡ is_returned_as code }
{
    matches!(code, EventCode::Acknowledge)
}

/// Shows which message the named task took.
fn show_taken<S: Sight, A: Artist, P: Pen>(sight: &S, step: &Step<'_>, artist: &A, pen: &mut P)
    ensures { let x = scene_at (S.desk sight.now) step.now in
        P.offered pen.new ≡ P.offered pen.old ++ flat_map A.change_text (taken_text x x.marks.taken) }
{
    if let Some((my_ref, action)) = step.marks.taken {
        let who = who_of(sight, step.marks.handle);
        artist.change(&task_takes(&who, action, my_ref), pen);
    }
}

/// Shows which messages vanished, or how many where there are more than a few.
fn show_vanished<S: Sight, A: Artist, P: Pen>(sight: &S, step: &Step<'_>, artist: &A, pen: &mut P)
    requires { IsStepOf (S.desk sight.now) step.now }
    ensures { P.offered pen.new ≡ P.offered pen.old
        ++ flat_map A.change_text (vanished_text (scene_at (S.desk sight.now) step.now)) }
{
    let messages = step.kept.messages();
    let count = count_vanished(sight, step, messages);
    if count > MOST_FATES {
        artist.change(&messages_vanish(count as u32), pen);
    } else {
        show_each_vanished(sight, step, messages, artist, pen);
    }
}

/// How many of some messages that were there before the command vanished.
fn count_vanished<S: Sight>(sight: &S, step: &Step<'_>, messages: &[MessageItem]) -> usize
    requires { IsStepOf (S.desk sight.now) step.now }
    ensures value { result
        ≡ length (filter (has_vanished_in (scene_at (S.desk sight.now) step.now)) messages.now) }
    ensures few { result ≤ length messages.now }
{
    let mut count = 0;
    for message in messages {
        if has_vanished(sight, step, message) {
            count += 1;
        }
    }
    count
}

/// Shows which of some messages vanished, each by a line of its own.
fn show_each_vanished<S: Sight, A: Artist, P: Pen>(
    sight: &S,
    step: &Step<'_>,
    messages: &[MessageItem],
    artist: &A,
    pen: &mut P,
)
    requires { IsStepOf (S.desk sight.now) step.now }
    ensures { let x = scene_at (S.desk sight.now) step.now in P.offered pen.new ≡ P.offered pen.old
        ++ flat_map A.change_text (map (vanishes_text x) (filter (has_vanished_in x) messages.now)) }
{
    for message in messages {
        show_if_vanished(sight, step, message, artist, pen);
    }
}

/// Shows that a message vanished, if it did.
fn show_if_vanished<S: Sight, A: Artist, P: Pen>(
    sight: &S,
    step: &Step<'_>,
    message: &MessageItem,
    artist: &A,
    pen: &mut P,
)
    requires { IsStepOf (S.desk sight.now) step.now }
    ensures { P.offered pen.new ≡ P.offered pen.old
        ++ flat_map A.change_text (vanish_lines (scene_at (S.desk sight.now) step.now) message.now) }
{
    if !has_vanished(sight, step, message) {
        return;
    }
    let to = who_before(sight, step, message.to);
    let from = who_before(sight, step, message.from);
    artist.change(
        &message_vanishes(message.action, message.my_ref, message.code, &to, &from),
        pen,
    );
}

/// Whether a message that was there before the command is gone, and nobody took, answered or acknowledged it.
fn has_vanished<S: Sight>(sight: &S, step: &Step<'_>, message: &MessageItem) -> bool
    requires { IsStepOf (S.desk sight.now) step.now }
    ensures { result ≡ has_vanished_in (scene_at (S.desk sight.now) step.now) message.now }
{
    !is_live(sight, step, message.my_ref)
        && !is_taken(step, message.my_ref)
        && !is_answered(step, message.my_ref)
        && !is_acknowledged(step, message.my_ref)
}

/// Whether a message with the ref waits or is held behind the command.
fn is_live<S: Sight>(sight: &S, step: &Step<'_>, my_ref: Ref) -> bool
    requires { IsStepOf (S.desk sight.now) step.now }
    ensures { result ≡ is_live_in (scene_at (S.desk sight.now) step.now) my_ref }
{
    sight.recall_desk();
    has_ref(step.messages, my_ref)
}

/// Whether one of some messages has the ref.
fn has_ref(messages: &[MessageItem], my_ref: Ref) -> bool
    ensures { result ≡ list_any (λ (m : MessageItem). m.my_ref == my_ref) messages.now }
{
    messages.iter().any(|message| message.my_ref == my_ref)
}

/// Whether the command took the message with the ref.
fn is_taken(step: &Step<'_>, my_ref: Ref) -> bool
    ensures { result ≡ is_taken_ref my_ref step.now.marks.taken }
{
    match step.marks.taken {
        Some((taken, _)) => taken == my_ref,
        None => false,
    }
}

/// Whether the letter of the command answers the message with the ref.
fn is_answered(step: &Step<'_>, my_ref: Ref) -> bool
    ensures { result ≡ answers_ref my_ref (option_map letter_seen step.now.marks.sent) }
{
    match step.marks.sent {
        Some((letter, _)) => letter.your_ref == my_ref,
        None => false,
    }
}

/// Whether the command acknowledged the message with the ref.
fn is_acknowledged(step: &Step<'_>, my_ref: Ref) -> bool
    ensures { result ≡ is_acknowledged_ref my_ref (effect_seen step.now.marks.effect) }
{
    match step.marks.effect {
        Effect::Acknowledged {
            my_ref: acknowledged,
            ..
        } => acknowledged == my_ref,
        _ => false,
    }
}

/// The task with the handle, by its name where it lived before the command that ended it, or lives.
fn who_before<'a, S: Sight>(sight: &'a S, step: &Step<'a>, handle: Handle) -> Who<'a>
    ensures { let x = scene_at (S.desk sight.now) step.now in who_text result ≡ name_before x handle x.marks.effect }
{
    match step.marks.effect {
        Effect::Ended(name) if handle == step.kept.handle() => Who::Live(name),
        _ => who_of(sight, handle),
    }
}

/// Shows which letter was sent, and how many bytes before it.
fn show_sent<S: Sight, A: Artist, P: Pen>(
    sight: &S,
    step: &Step<'_>,
    letter: &Letter,
    my_ref: Ref,
    artist: &A,
    pen: &mut P,
)
    ensures { P.offered pen.new ≡ P.offered pen.old
        ++ flat_map A.change_text (sent_text (scene_at (S.desk sight.now) step.now) (Some (letter.now, my_ref))) }
{
    show_taken_bytes(sight, step, letter, artist, pen);
    let from = who_of(sight, letter.from);
    let to = who_of(sight, letter.to);
    artist.change(&task_sends(&from, letter.body.action(), my_ref, &to), pen);
}

/// Shows how many bytes a letter took with it, if it was sent at a poll which took a message.
fn show_taken_bytes<S: Sight, A: Artist, P: Pen>(
    sight: &S,
    step: &Step<'_>,
    letter: &Letter,
    artist: &A,
    pen: &mut P,
)
    ensures { let x = scene_at (S.desk sight.now) step.now in
        P.offered pen.new ≡ P.offered pen.old
        ++ flat_map A.change_text (where_taken x.marks.taken (bytes_sent_text x letter.now letter.now.body)) }
{
    match step.marks.taken {
        Some(_) => show_bytes(sight, letter, artist, pen),
        None => {}
    }
}

/// Shows how many bytes a letter took with it, if it says so.
fn show_bytes<S: Sight, A: Artist, P: Pen>(sight: &S, letter: &Letter, artist: &A, pen: &mut P)
    ensures { (s : Share) (b : Before) (m : Marks) → P.offered pen.new ≡ P.offered pen.old
        ++ flat_map A.change_text (bytes_sent_text (scene_of (S.desk sight.now) s b m) letter.now letter.now.body) }
{
    if let Body::RamTransmit { buffer, written } = &letter.body {
        let to = who_of(sight, letter.to);
        artist.change(&bytes_sent(*written, &to, *buffer), pen);
    }
}
