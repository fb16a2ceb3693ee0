//! Lines of transfers on a map: with both sides, and with one.

use rh_defs::{Name, RecordItem, Ref, State};
use rh_lines::Pen;
use rh_map::{Side, print_transfer};

/// A transfer of both tasks, one of the sender alone, and one of the receiver alone.
pub(crate) fn print_transfers<P: Pen>(a: &Name, b: &Name, pen: &mut P) {
    let out = Some(side(a, State::Done, 5));
    let into = Some(side(b, State::Fetching, 0));
    print_transfer(Ref(1), &out, &into, pen);
    print_transfer(Ref(1), &out, &None, pen);
    print_transfer(Ref(1), &None, &into, pen);
}

/// The side of a task in the transfer with the id 1.
pub(crate) fn side(name: &Name, state: State, count: u32) -> Side<'_> {
    Side {
        name,
        record: RecordItem {
            state,
            id: Ref(1),
            count,
        },
    }
}
