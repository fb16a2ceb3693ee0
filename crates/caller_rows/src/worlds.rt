//! A world after a list of commands.

ghost use Rattle.std.specs.Prelude.{◌≡◌};
ghost use Rattle.rh_defs.specs.Memory.{fresh};

use crate::stores::{paged_store, plain_store};
use callers::{start_world, three_commands};
use rh_defs::{AreaItem, Command, Files};
use rh_received::run_commands;
use rh_store::Store;
use std::alloc::Global;
use std::io::{self, Write};

/// How many pages are free, and what is listed.
type Listed = (u32, Option<AreaItem>);

/// Prints areas of worlds, and where a block is once a claim has made it slide.
pub(crate) fn print_worlds<W: Write>(alloc: Global, output: &mut W) -> io::Result<()> {
    let plain = areas_of(alloc, plain_store(alloc)?);
    let paged = areas_of(alloc, paged_store(alloc)?);
    writeln!(output, "{plain:?}\n{paged:?}")?;
    let mut world = start_world(alloc)?;
    writeln!(output, "{:?}", three_commands(&mut world))
}

/// Makes area 256, gives it two pages, and claims a block for which the module area takes one more. Answers the module
/// area, area 256, and what stands behind it.
fn areas_of<S: Store + Drop>(alloc: Global, store: S) -> [Listed; 3]
    requires fresh { S.memory store ≡ fresh (S.memory store).pages }
    requires pages { (S.memory store).pages ≡ 8 }
{
    let commands = [
        Command::Make { most: 4 },
        Command::Area {
            number: 256,
            delta: 4097,
        },
        Command::RmaClaim { size: 5000 },
    ];
    let world = run_commands(store, Files::new(alloc), &commands);
    [world.areas(1), world.areas(6), world.areas(7)]
}
