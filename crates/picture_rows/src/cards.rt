//! Cards of a map: of a flex block, of a buffer, of a hole, and of what is left out.

use rh_defs::{Anchor, Ref};
use rh_lines::Pen;
use rh_map::{
    CardBlock, Usage, print_flex_card, print_hole_card, print_more_card, print_used_card,
};

/// A card of each kind.
pub(crate) fn print_cards<P: Pen>(pen: &mut P) {
    let flex = CardBlock {
        address: 0x9008,
        size: 5,
        front: &[0; 5],
        usage: Usage::Unused,
        fresh: true,
    };
    print_flex_card(Anchor(0), &flex, pen);
    let buffer = CardBlock {
        address: 0x8114,
        size: 8,
        front: &[1; 7],
        usage: Usage::In(Ref(1)),
        fresh: false,
    };
    print_used_card(&buffer, pen);
    print_hole_card(0x180_0010, 64, false, pen);
    print_hole_card(0x180_0060, 24, true, pen);
    print_more_card(2, pen);
}
