//! Cards of messages that lie in the module area.

ghost use Rattle.std.specs.Prelude.{◌≡◌, ◌≤◌, ◌<◌, ◌+◌, [], ◌∷◌, ◌++◌, codes, length};
ghost use Rattle.std.specs.List.{concat};
ghost use Rattle.std.specs.Fmt.{decimal};
ghost use Rattle.rh_defs.specs.Messages.{code_number};
ghost use Rattle.rh_defs.specs.Text.{action_name as action_name_of};
ghost use Rattle.rh_figure.specs.Cards.{between_text};
ghost use Rattle.rh_figure.specs.Map.{card_line, shown_line};
ghost use Rattle.rh_lines.specs.declared.row.TheConstants.{ROW};
ghost use Rattle.rh_map.specs.MapMessages.{card_of, place_text};
ghost use Rattle.rh_map.specs.MapTasks.{who_text};

use crate::cards::print_card;
use crate::who::{Who, add_who};
use rh_defs::{Action, EventCode, Ref};
use rh_lines::{Pen, Row};

/// Where a message stands in the chain of its task.
#[derive(Clone, Copy)]
pub enum ChainPlace {
    /// The task holds it.
    Held,
    /// It waits, and behind it the message with the ref.
    Before(Ref),
    /// It waits, and none behind it.
    Last,
}

/// A message as its card has it: its ref, action and event code, the tasks that it goes between, its place in the
/// chain, and whether the command has sent it.
#[derive(Clone, Copy)]
pub struct CardMessage<'a> {
    pub my_ref: Ref,
    pub action: Action,
    pub code: EventCode,
    pub from: Who<'a>,
    pub to: Who<'a>,
    pub place: ChainPlace,
    pub fresh: bool,
}

/// Writes the card of a message.
pub fn print_message_card<P: Pen>(message: &CardMessage<'_>, pen: &mut P)
    ensures { P.offered pen.new ≡ P.offered pen.old ++ (shown_line (card_line (card_of message.now)) ++ codes "\n") }
{
    let name = message_name(message.my_ref, message.action);
    let way = message_way(message.code, &message.from, &message.to);
    let place = message_place(message.code, message.place);
    print_card(&name, &way, &place, message.fresh, pen);
}

/// A message's ref and action.
pub fn message_name(my_ref: Ref, action: Action) -> Row
    ensures value { result ≡ concat (decimal my_ref ∷ codes " " ∷ action_name_of action ∷ []) }
    ensures few { length result ≤ 23 }
    ensures some { 0 < length result }
{
    let mut name = Row::new();
    name.decimal(my_ref.0);
    name.byte(b' ');
    add_action(&mut name, action);
    name
}

/// The tasks that a message goes between, or the one that it comes back to.
pub fn message_way(code: EventCode, from: &Who<'_>, to: &Who<'_>) -> Row
    ensures value { result ≡ between_text code (who_text from.now) (who_text to.now) }
    ensures few { length result ≤ 38 }
{
    match code {
        EventCode::Acknowledge => back_to(to),
        EventCode::User | EventCode::Recorded => from_to(from, to),
    }
}

fn back_to(to: &Who<'_>) -> Row
    ensures value { result ≡ codes "back to " ++ who_text to.now }
    ensures few { length result ≤ 25 }
{
    let mut way = Row::new();
    way.text(b"back to ");
    add_who(&mut way, to);
    way
}

fn from_to(from: &Who<'_>, to: &Who<'_>) -> Row
    ensures value { result ≡ concat (who_text from.now ∷ codes " to " ∷ who_text to.now ∷ []) }
    ensures few { length result ≤ 38 }
{
    let mut way = Row::new();
    add_who(&mut way, from);
    way.text(b" to ");
    add_who(&mut way, to);
    way
}

/// A message's event code, and its place in the chain.
pub fn message_place(code: EventCode, place: ChainPlace) -> Row
    ensures value { result ≡ concat (decimal (code_number code) ∷ codes ", " ∷ place_text place ∷ []) }
    ensures few { length result ≤ 29 }
{
    let mut row = Row::new();
    row.decimal(code.number());
    row.text(b", ");
    add_place(&mut row, place);
    row
}

fn add_place(row: &mut Row, place: ChainPlace)
    requires { length row.old + 16 ≤ ROW }
    ensures value { row.new ≡ row.old ++ place_text place }
    ensures few { length row.new ≤ length row.old + 16 }
{
    match place {
        ChainPlace::Held => row.text(b"held"),
        ChainPlace::Before(next) => {
            row.text(b"then ");
            row.decimal(next.0);
        }
        ChainPlace::Last => row.text(b"none behind"),
    }
}

/// Adds the name of what a message is about, or its action's number where it has none.
pub fn add_action(row: &mut Row, action: Action)
    requires { length row.old + 11 ≤ ROW }
    ensures value { row.new ≡ row.old ++ action_name_of action }
    ensures few { length row.new ≤ length row.old + 11 }
{
    match action {
        Action::DataSave => row.text(b"DataSave"),
        Action::DataSaveAck => row.text(b"DataSaveAck"),
        Action::DataLoad => row.text(b"DataLoad"),
        Action::DataLoadAck => row.text(b"DataLoadAck"),
        Action::RamFetch => row.text(b"RAMFetch"),
        Action::RamTransmit => row.text(b"RAMTransmit"),
        Action::Other(number) => row.decimal(number),
    }
}
