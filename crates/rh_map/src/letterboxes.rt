//! Letterboxes: a line for each task that has a message.

ghost use Rattle.std.specs.Prelude.{◌≡◌, ◌≤◌, ◌+◌, ◌==◌, ℕ, List, [], ◌∷◌, ◌++◌, codes, flat_map, length, min, not};
ghost use Rattle.std.specs.List.{concat};
ghost use Rattle.rh_figure.specs.Map.{letterbox_line, shown_line};
ghost use Rattle.rh_figure.specs.Phrases.{and_more, is_returned, where_so};
ghost use Rattle.rh_figure.specs.declared.limits.TheConstants.{MAP_COLUMNS, MOST_LISTED};
ghost use Rattle.rh_lines.specs.declared.row.TheConstants.{ROW};
ghost use Rattle.rh_map.specs.MapMessages.{held_text, mapped_letterbox, message_entry_text, waits_text};
ghost use Rattle.rh_map.specs.Inner.Filled.{Fills};
ghost use Rattle.rh_defs.specs.Post.{most_messages};

use crate::line::put_line;
use crate::messages::add_action;
use crate::numbers::add_more;
use rh_defs::{Action, EventCode, Name, Ref};
use rh_figure::limits::MAP_COLUMNS;
use rh_lines::{Pen, Row};

/// A message as a letterbox has it.
#[derive(Clone, Copy)]
pub struct MessageEntry {
    pub my_ref: Ref,
    pub action: Action,
    pub code: EventCode,
}

/// Writes what the task with the name holds, and the first of `count` messages that wait for it.
pub fn print_letterbox<P: Pen>(
    name: &Name,
    held: Option<MessageEntry>,
    waits: &[MessageEntry],
    count: usize,
    pen: &mut P,
)
    requires few { count ≤ most_messages }
    requires first { length waits.now ≡ min count MOST_LISTED }
    ensures { P.offered pen.new ≡ P.offered pen.old
        ++ (shown_line (letterbox_line (mapped_letterbox name.now held waits.now count)) ++ codes "\n") }
{
    let row = letterbox_row(name, held, waits, count);
    put_line(row.as_slice(), pen);
}

/// As much of a letterbox as a line shows.
fn letterbox_row(
    name: &Name,
    held: Option<MessageEntry>,
    waits: &[MessageEntry],
    count: usize,
) -> Row
    requires few { count ≤ most_messages }
    requires first { length waits.now ≡ min count MOST_LISTED }
    ensures { Fills result (letterbox_line (mapped_letterbox name.now held waits.now count)) }
{
    let mut row = Row::new();
    row.text(b"  for ");
    row.text(name.as_bytes());
    row.byte(b':');
    add_held(&mut row, held);
    add_waits(&mut row, waits, count);
    row
}

/// Adds what the task holds, if that is a message.
fn add_held(row: &mut Row, held: Option<MessageEntry>)
    requires { length row.old + 36 ≤ ROW }
    ensures value { row.new ≡ row.old ++ where_so (not (length (held_text held) == 0)) (concat
        (codes " holds " ∷ held_text held ∷ codes ";" ∷ [])) }
    ensures few { length row.new ≤ length row.old + 36 }
{
    if let Some(entry) = held {
        row.text(b" holds ");
        add_entry(row, entry);
        row.byte(b';');
    }
}

/// Adds what waits for the task, as far as a line shows it.
fn add_waits(row: &mut Row, waits: &[MessageEntry], count: usize)
    requires room { length row.old ≤ 60 }
    requires few { count ≤ most_messages }
    requires first { length waits.now ≡ min count MOST_LISTED }
    ensures { Fills row.new (row.old ++ where_so (not (length (waits_text waits.now count) == 0))
        (codes " waiting " ++ waits_text waits.now count)) }
{
    if let Some((first, others)) = waits.split_first() {
        row.text(b" waiting ");
        add_entry(row, *first);
        add_others(row, others);
        add_more_behind(row, count);
    }
}

/// Adds messages behind commas, as far as a line shows them.
fn add_others(row: &mut Row, others: &[MessageEntry])
    requires { length row.old ≤ 120 }
    ensures value { (text : List ℕ) → Fills row.old text → Fills row.new (text ++ flat_map
        (λ e. codes ", " ++ message_entry_text e) others.now) }
    ensures few { length row.new ≤ 120 }
{
    let mut rest = others;
    while let Some((entry, behind)) = rest.split_first() {
        add_behind(row, *entry);
        rest = behind;
    }
}

/// Adds a message behind a comma, where a line shows more.
fn add_behind(row: &mut Row, entry: MessageEntry)
    requires { length row.old ≤ 120 }
    ensures value { (text : List ℕ) → Fills row.old text → Fills row.new
        (text ++ (codes ", " ++ message_entry_text entry)) }
    ensures few { length row.new ≤ 120 }
{
    if row.as_slice().len() <= MAP_COLUMNS {
        row.text(b", ");
        add_entry(row, entry);
    }
}

/// Adds how many messages of n are not named, where a line shows more.
fn add_more_behind(row: &mut Row, n: usize)
    requires room { length row.old ≤ 120 }
    requires few { n ≤ most_messages }
    ensures { (text : List ℕ) → Fills row.old text → Fills row.new (text ++ and_more n) }
{
    if row.as_slice().len() <= MAP_COLUMNS {
        add_more(row, n);
    }
}

/// Adds a message: its ref and action, and whether it comes back.
pub fn add_entry(row: &mut Row, entry: MessageEntry)
    requires { length row.old + 28 ≤ ROW }
    ensures value { row.new ≡ row.old ++ message_entry_text entry }
    ensures few { length row.new ≤ length row.old + 28 }
{
    row.decimal(entry.my_ref.0);
    row.byte(b' ');
    add_action(row, entry.action);
    add_back(row, entry.code);
}

fn add_back(row: &mut Row, code: EventCode)
    requires { length row.old + 5 ≤ ROW }
    ensures value { row.new ≡ row.old ++ where_so (is_returned code) (codes " back") }
    ensures few { length row.new ≤ length row.old + 5 }
{
    match code {
        EventCode::Acknowledge => row.text(b" back"),
        EventCode::User | EventCode::Recorded => {}
    }
}
