//! The chart of messages on a sheet, and its tables.

use crate::transfers::side;
use rh_defs::{Action, EventCode, Name, Ref, State};
use rh_elements::{
    Ends, Stroke, followed, place_among, print_beat, print_letterbox_row, print_life,
    print_message_arrow, print_message_words, print_transfer_row,
};
use rh_lines::{Pen, Row};
use rh_map::MessageEntry;
use rh_sheet::{Fate, Note, Whereabouts};

/// Lifelines, arrows, tables, and what becomes of a message that is followed.
pub(crate) fn print_charts<P: Pen>(a: &Name, pen: &mut P) {
    print_life(false, b"task 12", 45, 70, 104, pen);
    print_beat(40, 5, pen);
    print_arrows(pen);
    print_tables(a, pen);
    print_notes(pen);
}

fn print_arrows<P: Pen>(pen: &mut P) {
    let east = Ends {
        x0: 70,
        y0: 40,
        x1: 250,
        y1: 72,
    };
    print_message_arrow(stroke(Fate::Taken, false), east, pen);
    print_message_words(stroke(Fate::Taken, false), east, b"1 DataSave", pen);
    print_message_arrow(stroke(Fate::Held, false), east, pen);
    print_message_arrow(stroke(Fate::Vanished, false), east, pen);
    let west = Ends {
        x0: 250,
        y0: 72,
        x1: 70,
        y1: 40,
    };
    print_message_arrow(stroke(Fate::Queued, true), west, pen);
    print_message_words(stroke(Fate::Queued, true), west, b"2 RAMFetch", pen);
    print_message_arrow(stroke(Fate::Vanished, true), west, pen);
}

/// An arrow of this step, or a short one of an earlier step.
fn stroke(fate: Fate, short: bool) -> Stroke {
    Stroke {
        fate,
        short,
        now: !short,
    }
}

fn print_tables<P: Pen>(a: &Name, pen: &mut P) {
    let waiting = [entry(EventCode::Acknowledge), entry(EventCode::Recorded)];
    let held = Some(entry(EventCode::Recorded));
    print_letterbox_row(b"b", held, &waiting, 14, pen);
    let out = Some(side(a, State::Open, 5));
    print_transfer_row(Ref(1), &out, &None, pen);
}

fn entry(code: EventCode) -> MessageEntry {
    MessageEntry {
        my_ref: Ref(1),
        action: Action::DataSave,
        code,
    }
}

/// Follows messages that were sent in step 5. One waits, is held, goes back and is taken back; of the others one is
/// taken, one is answered, and one vanishes.
fn print_notes<P: Pen>(pen: &mut P) {
    let mut note = new_note();
    for (step, code, held) in [(6, 18, false), (7, 0, true), (8, 19, false), (9, 0, false)] {
        note = followed(step, seen(code, held, false, true), note);
        print_fate(&note, pen);
    }
    print_fate(&followed(6, seen(0, false, false, true), new_note()), pen);
    print_fate(&followed(6, seen(0, false, true, true), new_note()), pen);
    print_fate(&followed(6, seen(0, false, false, false), new_note()), pen);
    let place = place_among(5, &[1, 5, 7]) as u32;
    print_numbers([place, 0, 0], pen);
}

fn new_note() -> Note {
    Note {
        my_ref: 1,
        from: 1,
        to: 2,
        action: Action::DataSave,
        wants_answer: true,
        fate: Fate::Queued,
        sent: 5,
        reached: 0,
        back: 0,
        ended: 0,
    }
}

fn seen(code: u32, held: bool, answered: bool, live: bool) -> Whereabouts {
    Whereabouts {
        code,
        held,
        answered,
        live,
    }
}

/// Prints a message's fate, and when it came to it.
fn print_fate<P: Pen>(note: &Note, pen: &mut P) {
    pen.put(fate_name(note.fate));
    print_numbers([note.reached, note.back, note.ended], pen);
}

fn fate_name(fate: Fate) -> &'static [u8] {
    match fate {
        Fate::Queued => b"queued ",
        Fate::Taken => b"taken ",
        Fate::Held => b"held ",
        Fate::Answered => b"answered ",
        Fate::Back => b"back ",
        Fate::Returned => b"returned ",
        Fate::Vanished => b"vanished ",
    }
}

/// Prints a line of three numbers.
fn print_numbers<P: Pen>(numbers: [u32; 3], pen: &mut P) {
    let [first, second, third] = numbers;
    let mut row = Row::new();
    row.decimal(first);
    row.byte(b' ');
    row.decimal(second);
    row.byte(b' ');
    row.decimal(third);
    row.byte(b'\n');
    pen.put(row.as_slice());
}
