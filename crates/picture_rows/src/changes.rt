//! What a step has changed, as a map tells it: of pages, of heaps, of flex blocks, and of messages.

use rh_defs::{Action, Anchor, EventCode, Handle, Name, Ref, SegmentItem};
use rh_lines::Pen;
use rh_map::{
    Who, heap_block_claimed, heap_block_moved, heap_block_released, heap_block_resized, hole_left,
    message_vanishes, messages_return, messages_vanish, print_area_takes, print_block_gone,
    print_block_new, print_block_resized, print_bytes_sent, print_change, print_freed,
    print_returns, print_sends, print_slide, print_slot_takes, print_takes, top_left,
};

/// Changes of pages, of heaps, of blocks, and of messages between two tasks.
pub(crate) fn print_changes<P: Pen>(a: &Name, b: &Name, pen: &mut P) {
    print_area_takes(256, &[4], pen);
    print_slot_takes(a, &[62], pen);
    print_freed(&[0; 14], pen);
    print_heaps(pen);
    print_blocks(pen);
    print_letters(&Who::Live(a), &Who::Live(b), pen);
}

fn print_heaps<P: Pen>(pen: &mut P) {
    let hole = SegmentItem::Hole {
        address: 0x8150,
        size: 32,
    };
    let used = SegmentItem::Used {
        address: 0x8134,
        size: 4,
    };
    let a = Handle(1);
    print_change(&heap_block_claimed(a, 0x8134, 28, Some(hole)), pen);
    print_change(&heap_block_claimed(a, 0x811c, 20, Some(used)), pen);
    print_change(&heap_block_claimed(Handle(0), 0x180_0014, 1, None), pen);
    print_change(&heap_block_released(a, 0x812c, 20), pen);
    print_change(&hole_left(20, 24), pen);
    print_change(&hole_left(20, 48), pen);
    print_change(&top_left(3824), pen);
    print_change(&heap_block_resized(a, 0x8114, 20, 28), pen);
    print_change(&heap_block_moved(a, 0x8114, 0x815c, 68, None), pen);
    print_change(
        &heap_block_moved(Handle(0), 0x180_0014, 0x180_0024, 68, Some(used)),
        pen,
    );
}

fn print_blocks<P: Pen>(pen: &mut P) {
    print_block_new(Anchor(0), 5, 0x9008, pen);
    print_block_resized(Anchor(0), 0, 5, pen);
    print_block_resized(Anchor(63), 1, 0, pen);
    print_block_gone(Anchor(7), pen);
    print_slide(1, 0x9008, 0xa008, pen);
    print_slide(7, 0x9018, 0x9008, pen);
}

fn print_letters<P: Pen>(a: &Who<'_>, b: &Who<'_>, pen: &mut P) {
    print_takes(b, Action::DataSave, Ref(1), pen);
    print_sends(b, Action::RamFetch, Ref(2), a, pen);
    print_bytes_sent(5, b, 0x8114, pen);
    let gone = Who::Gone(Handle(2));
    print_returns(Action::RamFetch, Ref(2), &gone, pen);
    print_change(&messages_return(254), pen);
    print_fate(EventCode::User, a, b, pen);
    print_fate(EventCode::Acknowledge, a, b, pen);
    print_fate(EventCode::Recorded, &gone, b, pen);
    print_change(&messages_vanish(255), pen);
}

/// That a message of this task to that one vanishes.
fn print_fate<P: Pen>(code: EventCode, from: &Who<'_>, to: &Who<'_>, pen: &mut P) {
    print_change(
        &message_vanishes(Action::RamTransmit, Ref(3), code, to, from),
        pen,
    );
}
