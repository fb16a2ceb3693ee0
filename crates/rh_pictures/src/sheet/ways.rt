//! The arrows of a chart: of each message, and of its way back.

ghost use Rattle.std.specs.Prelude.{◌≡◌, ◌≤◌, ◌<◌, ◌+◌, ◌∷◌, ◌++◌, [], length};
ghost use Rattle.rh_pictures.specs.Ways.{arrow_of, arrows_seen, way_words};
ghost use Rattle.rh_pictures.specs.Inner.WaySteps.{with_step};
ghost use Rattle.rh_pictures.specs.declared.sheet.numbers.TheConstants.{MOST_IN_SET};
ghost use Rattle.rh_pictures.specs.declared.sheet.ways.TheConstants.{MOST_WAYS};
ghost use Rattle.rh_sheet.specs.Chart.{arrows, fate_back as fate_back_of, fate_out as fate_out_of};
ghost use Rattle.rh_sheet.specs.Chart.{fate_words as words_of_fate, is_short as is_short_arrow};
ghost use Rattle.rh_sheet.specs.Chart.{steps_in as steps_of, tasks_in as tasks_of, way_back as arrow_back};
ghost use Rattle.rh_sheet.specs.Chart.{way_out as arrow_out};
ghost use Rattle.rh_sheet.specs.declared.sizes.TheConstants.{MOST_NOTES};

use crate::sheet::numbers::{NumberSet, put_number};
use arrayvec::ArrayVec;
use rh_defs::Action;
use rh_elements::{is_lost, is_queued};
use rh_lines::Row;
use rh_map::add_action;
use rh_sheet::sizes::MOST_NOTES;
use rh_sheet::{Fate, Note};

/// A chart has at most so many arrows.
pub const MOST_WAYS: usize = 2 * MOST_NOTES;

/// An arrow of a chart: a message, by its ref, on its way from a task to a task, by their handles, or on its way back,
/// between two steps, of which the second is 0 where it waits; its fate on that way, and whether it wants an answer.
#[derive(Clone, Copy)]
pub struct MessageArrow {
    pub start: u32,
    pub stop: u32,
    pub from: u32,
    pub to: u32,
    pub my_ref: u32,
    pub action: Action,
    pub is_back: bool,
    pub fate: Fate,
    pub wants_answer: bool,
}

impl Default for MessageArrow {
    /// The way of no message, as refs count up from 1.
    fn default() -> MessageArrow {
        MessageArrow {
            start: 0,
            stop: 0,
            from: 0,
            to: 0,
            my_ref: 0,
            action: Action::DataSave,
            is_back: false,
            fate: Fate::Queued,
            wants_answer: false,
        }
    }
}

/// The arrows of a chart, in the order in which the messages were sent.
pub type Ways = ArrayVec<MessageArrow, MOST_WAYS>;

/// The arrows of the last messages.
pub fn ways_of(notes: &[Note]) -> Ways
    requires { length notes.now ≤ MOST_NOTES }
    ensures { arrows_seen result.items ≡ arrows notes.now }
{
    let mut ways = ArrayVec::new();
    for note in notes {
        ways.push(way_out(note));
        if note.back != 0 {
            ways.push(way_back(note));
        }
    }
    ways
}

/// The fate of a message on its way out: of one that went back, whether it was taken before.
fn fate_out(note: &Note) -> Fate
    ensures { result ≡ fate_out_of note.now }
{
    if note.back == 0 {
        note.fate
    } else if note.reached == note.back {
        Fate::Back
    } else {
        Fate::Taken
    }
}

/// The fate of a message on its way back.
fn fate_back(fate: Fate) -> Fate
    ensures { result ≡ fate_back_of fate }
{
    match fate {
        Fate::Back => Fate::Queued,
        _ => fate,
    }
}

/// A message on its way out.
fn way_out(note: &Note) -> MessageArrow
    ensures { arrow_of result ≡ arrow_out note.now }
{
    MessageArrow {
        start: note.sent,
        stop: note.reached,
        from: note.from,
        to: note.to,
        my_ref: note.my_ref,
        action: note.action,
        is_back: false,
        fate: fate_out(note),
        wants_answer: note.wants_answer,
    }
}

/// A message on its way back.
fn way_back(note: &Note) -> MessageArrow
    ensures { arrow_of result ≡ arrow_back note.now }
{
    MessageArrow {
        start: note.back,
        stop: note.ended,
        from: note.to,
        to: note.from,
        my_ref: note.my_ref,
        action: note.action,
        is_back: true,
        fate: fate_back(note.fate),
        wants_answer: note.wants_answer,
    }
}

impl MessageArrow {
    /// The words of an arrow: the message's ref and action, and whether it comes back.
    pub fn words(&self) -> Row
        ensures value { result ≡ way_words self.now }
        ensures few { length result ≤ 28 }
    {
        let mut row = Row::new();
        row.decimal(self.my_ref);
        row.byte(b' ');
        add_action(&mut row, self.action);
        if self.is_back {
            row.text(b" back");
        }
        row
    }

    /// Those words, and what has become of the message where the arrow alone doesn't tell.
    pub fn drawn_words(&self) -> Row
        ensures { result ≡ way_words self.now ++ words_of_fate self.now.fate }
    {
        let mut row = self.words();
        row.text(fate_words(self.fate));
        row
    }

    /// Whether it is a short arrow: its message waits, or vanished where it began.
    pub fn is_short(&self) -> bool
        ensures { result ≡ is_short_arrow (arrow_of self.now) }
    {
        is_queued(self.fate)
            || is_lost(self.fate) && (self.from == self.to || self.start == self.stop)
    }
}

/// What stands behind an arrow's words by the fate of its message.
fn fate_words(fate: Fate) -> &'static [u8]
    ensures value { result.now ≡ words_of_fate fate }
    ensures few { length result.now ≤ 10 }
{
    match fate {
        Fate::Held => b" held",
        Fate::Back => b" not taken",
        Fate::Vanished => b" vanished",
        _ => b"",
    }
}

/// The steps at which arrows begin or end.
pub fn steps_in(ways: &[MessageArrow]) -> NumberSet
    requires { length ways.now ≤ MOST_WAYS }
    ensures { result.items ≡ steps_of (arrows_seen ways.now) }
{
    let mut steps = ArrayVec::new();
    let mut rest = ways;
    while let Some((last, front)) = rest.split_last() {
        put_step(last.stop, &mut steps);
        put_step(last.start, &mut steps);
        rest = front;
    }
    steps
}

/// Puts a step in its place among others, if it is one and isn't there.
fn put_step(step: u32, steps: &mut NumberSet)
    requires { length steps.old.items < MOST_IN_SET }
    ensures value { steps.new.items ≡ with_step step steps.old.items }
    ensures few { length steps.new.items ≤ length steps.old.items + 1 }
{
    if step != 0 {
        put_number(step, steps);
    }
}

/// The tasks between which arrows go, by their handles.
pub fn tasks_in(ways: &[MessageArrow]) -> NumberSet
    requires { length ways.now ≤ MOST_WAYS }
    ensures { result.items ≡ tasks_of (arrows_seen ways.now) }
{
    let mut tasks = ArrayVec::new();
    let mut rest = ways;
    while let Some((last, front)) = rest.split_last() {
        put_number(last.to, &mut tasks);
        put_number(last.from, &mut tasks);
        rest = front;
    }
    tasks
}
