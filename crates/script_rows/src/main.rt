//! Whole scripts: runs each that stands in its input, and prints its replies and how the run ended. It runs the same
//! over other stores and as maps and sheets, and tells where what is written differs. Then it runs a script whose
//! streams are slow, or fail.
#![tactic(auto)]

mod cases;
mod failing;
mod forms;
mod lines;
mod offers;
mod streams;

use std::io::{self, Read};

fn main(rt: HostRuntime) -> io::Result<()> {
    let alloc = rt.alloc();
    let mut rows = Vec::new(alloc);
    rt.stdin().read_to_end(&mut rows)?;
    let mut output = rt.stdout();
    cases::print_cases(alloc, rows.as_slice(), &mut output)?;
    failing::print_fronts(alloc, &mut output)?;
    streams::print_streams(alloc, &mut output)?;
    offers::print_offers(alloc, &mut output)
}
