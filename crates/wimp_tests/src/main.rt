//! Calls on messages, on their queue and on the table that it keeps as rows of data. Standard input has sections, with
//! an empty line between them: a first line that says what the calls are made on, and a call in each other line. Each
//! section about a queue is run over a plain store and over scattered pages, and each call is printed with its answer.
#![tactic(auto)]

mod answer;
mod bodies;
mod images;
mod live;
mod queues;
mod row;
mod sections;
mod tables;

use std::io;

fn main(rt: HostRuntime) -> io::Result<()> {
    let text = io::read_to_string(rt.alloc(), rt.reader())?;
    for section in text.split("\n\n") {
        sections::run(&rt, section)?;
    }
    Ok(())
}
