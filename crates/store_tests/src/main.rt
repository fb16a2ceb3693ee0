//! Calls on the region, on both stores, on bytes that are lent and on numbers as rows of data. Standard input has
//! sections, with an empty line between them: a first line that says what the calls are made on, and a call in each
//! other line. Each section is run over each kind of store that it names, and each call is printed with its answer.
#![tactic(auto)]

mod answer;
mod called;
mod callers;
mod careful;
mod lent;
mod limits;
mod peaks;
mod places;
mod regions;
mod row;
mod sections;
mod stores;
mod sums;
mod words;

use std::io;

fn main(rt: HostRuntime) -> io::Result<()> {
    let text = io::read_to_string(rt.alloc(), rt.reader())?;
    for section in text.split("\n\n") {
        sections::run(&rt, section)?;
    }
    Ok(())
}
