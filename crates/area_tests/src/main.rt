//! Calls on heaps, slots and the module area as rows of data. Standard input has sections, with an empty line between
//! them: a first line that says what the calls are made on, and a call in each other line. Each section is run over
//! each kind of store that it names, and each call is printed with its answer.
#![tactic(auto)]

mod answer;
mod drawn_heaps;
mod heaps;
mod images;
mod lent_heaps;
mod lent_slots;
mod mapped_heaps;
mod modules;
mod numbers;
mod row;
mod sections;
mod slot_images;
mod slots;
mod stores;

use std::io;

fn main(rt: HostRuntime) -> io::Result<()> {
    let text = io::read_to_string(rt.alloc(), rt.reader())?;
    for section in text.split("\n\n") {
        sections::run(&rt, section)?;
    }
    Ok(())
}
