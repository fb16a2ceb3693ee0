//! What a command has changed of the messages.

ghost use Rattle.std.specs.Prelude.{◌≡◌, ◌≤◌, ◌+◌, [], ◌∷◌, ◌++◌, codes, length};
ghost use Rattle.std.specs.List.{concat};
ghost use Rattle.std.specs.Fmt.{decimal};
ghost use Rattle.rh_defs.specs.Text.{action_name as action_name_of};
ghost use Rattle.rh_figure.specs.Changes.{all_return_line, all_vanish_line, back_line, bytes_line, holds_line};
ghost use Rattle.rh_figure.specs.Changes.{returns_line, sends_line, takes_line, vanishes_line, why_text};
ghost use Rattle.rh_figure.specs.Map.{shown_line};
ghost use Rattle.rh_lines.specs.declared.row.TheConstants.{ROW};
ghost use Rattle.rh_map.specs.MapTasks.{who_text};

use crate::changes::print_change;
use crate::messages::add_action;
use crate::phrases::add_size;
use crate::who::{Who, add_who};
use rh_defs::{Action, EventCode, Ref};
use rh_lines::{Pen, Row};

/// Writes that a message goes back to a task.
pub fn print_returns<P: Pen>(action: Action, my_ref: Ref, to: &Who<'_>, pen: &mut P)
    ensures { P.offered pen.new ≡ P.offered pen.old
        ++ (shown_line (codes "  " ++ returns_line action my_ref (who_text to.now)) ++ codes "\n") }
{
    print_change(&message_returns(action, my_ref, to), pen);
}

/// That a message goes back to a task.
pub fn message_returns(action: Action, my_ref: Ref, to: &Who<'_>) -> Row
    ensures value { result ≡ returns_line action my_ref (who_text to.now) }
    ensures few { length result ≤ 200 }
{
    let mut row = Row::new();
    add_message(&mut row, action, my_ref);
    row.text(b" bounces: it goes back to ");
    add_who(&mut row, to);
    row.text(b" with code 19");
    row
}

/// That so many messages go back to those who sent them.
pub fn messages_return(count: u32) -> Row
    ensures value { result ≡ all_return_line count }
    ensures few { length result ≤ 200 }
{
    let mut row = Row::new();
    row.decimal(count);
    row.text(b" messages bounce: they go back to those who sent them with code 19");
    row
}

/// That a message vanishes, which has an event code and was for the one task, and sent by the other.
pub fn message_vanishes(
    action: Action,
    my_ref: Ref,
    code: EventCode,
    to: &Who<'_>,
    from: &Who<'_>,
) -> Row
    ensures value { result ≡ vanishes_line action my_ref (why_text (who_text to.now) (who_text from.now) code) }
    ensures few { length result ≤ 200 }
{
    let mut row = Row::new();
    add_message(&mut row, action, my_ref);
    row.text(b" vanishes");
    add_why(&mut row, code, to, from);
    row
}

/// Adds why a message vanishes.
fn add_why(row: &mut Row, code: EventCode, to: &Who<'_>, from: &Who<'_>)
    requires { length row.old + 60 ≤ ROW }
    ensures value { row.new ≡ row.old ++ why_text (who_text to.now) (who_text from.now) code }
    ensures few { length row.new ≤ length row.old + 60 }
{
    match code {
        EventCode::User => add_about(row, b" with ", to, b": it wants no answer"),
        EventCode::Acknowledge => add_about(row, b" with ", to, b": it has come back already"),
        EventCode::Recorded => add_about(row, b": ", from, b", who sent it, isn't live"),
    }
}

/// Adds a task between two texts.
fn add_about(row: &mut Row, before: &[u8], who: &Who<'_>, behind: &[u8])
    requires room { length row.old + 60 ≤ ROW }
    requires few { length before.now + length behind.now ≤ 43 }
    ensures value { row.new ≡ row.old ++ concat (before.now ∷ who_text who.now ∷ behind.now ∷ []) }
    ensures few { length row.new ≤ length row.old + 60 }
{
    row.text(before);
    add_who(row, who);
    row.text(behind);
}

/// That so many messages vanish.
pub fn messages_vanish(count: u32) -> Row
    ensures value { result ≡ all_vanish_line count }
    ensures few { length result ≤ 200 }
{
    let mut row = Row::new();
    row.decimal(count);
    row.text(b" messages vanish: nobody is there to take them");
    row
}

/// Writes that a task takes a message.
pub fn print_takes<P: Pen>(who: &Who<'_>, action: Action, my_ref: Ref, pen: &mut P)
    ensures { P.offered pen.new ≡ P.offered pen.old
        ++ (shown_line (codes "  " ++ takes_line (who_text who.now) action my_ref) ++ codes "\n") }
{
    print_change(&task_takes(who, action, my_ref), pen);
}

/// That a task takes a message.
pub fn task_takes(who: &Who<'_>, action: Action, my_ref: Ref) -> Row
    ensures value { result ≡ takes_line (who_text who.now) action my_ref }
    ensures few { length result ≤ 200 }
{
    let mut row = Row::new();
    add_who(&mut row, who);
    row.text(b" takes ");
    add_message(&mut row, action, my_ref);
    row
}

/// That a message has come back to the task that takes it.
pub fn message_came_back(action: Action, my_ref: Ref) -> Row
    ensures value { result ≡ back_line action my_ref }
    ensures few { length result ≤ 200 }
{
    let mut row = Row::new();
    add_message(&mut row, action, my_ref);
    row.text(b" has come back: nobody answered it");
    row
}

/// That a task holds a message that it took.
pub fn task_holds(who: &Who<'_>, action: Action, my_ref: Ref) -> Row
    ensures value { result ≡ holds_line (who_text who.now) action my_ref }
    ensures few { length result ≤ 200 }
{
    let mut row = Row::new();
    add_who(&mut row, who);
    row.text(b" holds ");
    add_message(&mut row, action, my_ref);
    row.text(b" until it answers or polls again");
    row
}

/// Writes that so many bytes went into the buffer of a task at an address.
pub fn print_bytes_sent<P: Pen>(count: u32, to: &Who<'_>, buffer: u32, pen: &mut P)
    ensures { P.offered pen.new ≡ P.offered pen.old
        ++ (shown_line (codes "  " ++ bytes_line count (who_text to.now) buffer) ++ codes "\n") }
{
    print_change(&bytes_sent(count, to, buffer), pen);
}

/// That so many bytes went into the buffer of a task at an address.
pub fn bytes_sent(count: u32, to: &Who<'_>, buffer: u32) -> Row
    ensures value { result ≡ bytes_line count (who_text to.now) buffer }
    ensures few { length result ≤ 200 }
{
    let mut row = Row::new();
    add_size(&mut row, count);
    row.text(b" into the buffer of ");
    add_who(&mut row, to);
    row.text(b" at ");
    row.address(buffer);
    row
}

/// Writes that a task sends a message to another.
pub fn print_sends<P: Pen>(from: &Who<'_>, action: Action, my_ref: Ref, to: &Who<'_>, pen: &mut P)
    ensures { P.offered pen.new ≡ P.offered pen.old
        ++ (shown_line (codes "  " ++ sends_line (who_text from.now) action my_ref (who_text to.now)) ++ codes "\n") }
{
    print_change(&task_sends(from, action, my_ref, to), pen);
}

/// That a task sends a message to another.
pub fn task_sends(from: &Who<'_>, action: Action, my_ref: Ref, to: &Who<'_>) -> Row
    ensures value { result ≡ sends_line (who_text from.now) action my_ref (who_text to.now) }
    ensures few { length result ≤ 200 }
{
    let mut row = Row::new();
    add_who(&mut row, from);
    row.text(b" sends ");
    add_message(&mut row, action, my_ref);
    row.text(b" to ");
    add_who(&mut row, to);
    row
}

/// Adds a message's action and ref.
fn add_message(row: &mut Row, action: Action, my_ref: Ref)
    requires { length row.old + 23 ≤ ROW }
    ensures value { row.new ≡ row.old ++ concat (action_name_of action ∷ codes " " ∷ decimal my_ref ∷ []) }
    ensures few { length row.new ≤ length row.old + 23 }
{
    add_action(row, action);
    row.byte(b' ');
    row.decimal(my_ref.0);
}
