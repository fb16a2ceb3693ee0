//! The lines of maps and the elements of sheets: prints each of them for plain values.
#![tactic(auto)]

mod areas;
mod cards;
mod changes;
mod charts;
mod elements;
mod letterboxes;
mod map_rows;
mod messages;
mod pool;
mod sheet_rows;
mod sheet_steps;
mod steps;
mod transfers;

use rh_defs::Name;
use rh_lines::{Flagged, Pen, WriteFailed, WriterPen};

fn main(rt: HostRuntime) -> Result<(), WriteFailed> {
    let mut output = Flagged::new(rt.stdout());
    let mut pen = WriterPen::new(&mut output, &mut []);
    print_lines(&mut pen);
    print_elements(&mut pen);
    pen.finish()
}

/// Prints the lines of maps.
fn print_lines<P: Pen>(pen: &mut P) {
    let (Some(a), Some(b)) = (Name::new(b"a"), Name::new(b"b")) else {
        return;
    };
    map_rows::print_rows(pen);
    areas::print_areas(&a, pen);
    cards::print_cards(pen);
    changes::print_changes(&a, &b, pen);
    messages::print_messages(&a, &b, pen);
    letterboxes::print_letterboxes(&b, pen);
    transfers::print_transfers(&a, &b, pen);
    steps::print_steps(pen);
}

/// Prints the elements of sheets.
fn print_elements<P: Pen>(pen: &mut P) {
    let Some(a) = Name::new(b"a") else {
        return;
    };
    elements::print_texts(pen);
    sheet_rows::print_rows(pen);
    pool::print_pool(pen);
    charts::print_charts(&a, pen);
    sheet_steps::print_steps(pen);
}
