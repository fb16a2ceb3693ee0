//! Letterboxes of a task on a map: what it holds, and what waits for it.

use rh_defs::{Action, EventCode, Name, Ref};
use rh_lines::Pen;
use rh_map::{MessageEntry, print_letterbox};

/// A message that the task may hold, or that waits for it.
const SAVE: MessageEntry = MessageEntry {
    my_ref: Ref(1),
    action: Action::DataSave,
    code: EventCode::Recorded,
};

/// One that is back.
const BACK: MessageEntry = MessageEntry {
    my_ref: Ref(2),
    action: Action::DataSave,
    code: EventCode::Acknowledge,
};

/// The first twelve of many that wait.
const WAITING: [MessageEntry; 12] = [SAVE; 12];

/// A letterbox that holds a message, one in which two wait as well, and one in which fourteen wait.
pub(crate) fn print_letterboxes<P: Pen>(b: &Name, pen: &mut P) {
    print_letterbox(b, Some(SAVE), &[], 0, pen);
    print_letterbox(b, Some(SAVE), &[BACK, SAVE], 2, pen);
    print_letterbox(b, None, &WAITING, 14, pen);
}
