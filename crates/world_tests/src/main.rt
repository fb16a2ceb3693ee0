//! Calls of a world as rows of data: commands, what it is asked, and what is read of it beside. Standard input has
//! sections, with an empty line between them: a first line that says with which numbers a world begins, and a call in
//! each other line. Each section is run over a plain store and over scattered pages, and each call is printed with its
//! answer.
#![tactic(auto)]

mod answer;
mod files;
mod lists;
mod replies;
mod row;
mod sections;
mod sights;
mod stores;
mod worlds;

use std::io;

fn main(rt: HostRuntime) -> io::Result<()> {
    let text = io::read_to_string(rt.alloc(), rt.reader())?;
    for section in text.split("\n\n") {
        sections::run(&rt, section)?;
    }
    Ok(())
}
