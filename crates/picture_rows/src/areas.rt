//! Headings of the pool, of slots and of the module area on a map, and lines of other areas.

use rh_defs::{Handle, Manner, Name, Ref};
use rh_lines::Pen;
use rh_map::{
    ScrapLine, SlotHeading, print_fixed_area, print_made_area, print_module_heading,
    print_pool_heading, print_slot_heading,
};

/// Headings, and then lines of made areas and of fixed ones.
pub(crate) fn print_areas<P: Pen>(a: &Name, pen: &mut P) {
    print_headings(a, pen);
    print_made_area(256, 2, &[5, 4], pen);
    print_made_area(257, 1, &[], pen);
    print_fixed_area(3, &[7], None, pen);
    let scrap = ScrapLine {
        size: 1,
        load: Ref(3),
    };
    print_fixed_area(5, &[2, 3], Some(scrap), pen);
}

fn print_headings<P: Pen>(a: &Name, pen: &mut P) {
    let slot = SlotHeading {
        name: a,
        mark: b'a',
        manner: Manner::Plain,
        handle: Handle(1),
        buffer: 100,
        pages: 3,
        budging: false,
    };
    print_pool_heading(5, 8, pen);
    print_slot_heading(&slot, pen);
    print_module_heading(1, pen);
}
