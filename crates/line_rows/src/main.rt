//! What of lines, replies and streams can be seen without a desk: reads lines, and prints each with its meaning; then
//! what values are in range, replies as text, and what streams do that are short or fail.
#![tactic(auto)]

mod lent;
mod lines;
mod ranges;
mod replies;
mod streams;
mod texts;
mod values;

use rh_defs::{block_law, image_law};
use rh_lines::{Flagged, WriteFailed};
use std::io::{self, Read};

fn main(rt: HostRuntime) -> io::Result<()> {
    let alloc = rt.alloc();
    let mut text = Vec::new(alloc);
    rt.stdin().read_to_end(&mut text)?;
    let mut output = rt.stdout();
    image_law();
    block_law();
    lines::print_meanings(text.as_slice(), &mut output)?;
    values::print_values(alloc, &mut output)?;
    ranges::print_ranges(&mut output)?;
    texts::print_texts(&mut output)?;
    lent::print_lent(&mut output)?;
    streams::print_streams(alloc, &mut output)?;
    match replies::print_replies(&mut Flagged::new(output)) {
        Ok(()) => Ok(()),
        Err(WriteFailed) => Err(io::Error::from(io::ErrorKind::Other)),
    }
}
