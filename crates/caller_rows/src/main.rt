//! What the callers of `uses` answer, and a world after a list of commands: prints each answer, over a plain store and
//! over one of scattered pages.
#![tactic(auto)]

mod handed_over;
mod heaps;
mod messages;
mod module_blocks;
mod slots;
mod stores;
mod worlds;

use std::io;

fn main(rt: HostRuntime) -> io::Result<()> {
    let alloc = rt.alloc();
    let mut output = rt.stdout();
    heaps::print_heaps(alloc, &mut output)?;
    module_blocks::print_blocks(alloc, &mut output)?;
    slots::print_slots(alloc, &mut output)?;
    messages::print_messages(alloc, &mut output)?;
    worlds::print_worlds(alloc, &mut output)?;
    handed_over::print_handed_over(alloc, &mut output)
}
