//! Cards of messages on a map: of the last one, of one before another, and of one that is back.

use rh_defs::{Action, EventCode, Handle, Name, Ref};
use rh_lines::Pen;
use rh_map::{CardMessage, ChainPlace, Who, print_message_card};

/// A card of each kind, of messages between two tasks.
pub(crate) fn print_messages<P: Pen>(a: &Name, b: &Name, pen: &mut P) {
    let save = CardMessage {
        my_ref: Ref(1),
        action: Action::DataSave,
        code: EventCode::Recorded,
        from: Who::Live(a),
        to: Who::Live(b),
        place: ChainPlace::Last,
        fresh: true,
    };
    print_message_card(&save, pen);
    let fetch = CardMessage {
        my_ref: Ref(9),
        action: Action::RamFetch,
        code: EventCode::Recorded,
        from: Who::Live(b),
        to: Who::Live(a),
        place: ChainPlace::Before(Ref(10)),
        fresh: false,
    };
    print_message_card(&fetch, pen);
    let back = CardMessage {
        my_ref: Ref(3),
        action: Action::DataSave,
        code: EventCode::Acknowledge,
        from: Who::Live(a),
        to: Who::Gone(Handle(4)),
        place: ChainPlace::Held,
        fresh: false,
    };
    print_message_card(&back, pen);
}
