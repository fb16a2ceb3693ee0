//! A whole session over a fresh store.

ghost use Rattle.std.specs.Prelude.{◌≡◌, ◌≤◌, true};
ghost use Rattle.rh_defs.specs.Memory.{Memory, fresh};
ghost use Rattle.rh_defs.specs.Range.{all_in_range};
ghost use Rattle.rh_defs.specs.Runs.{start};
ghost use Rattle.rh_defs.specs.declared.sizes.TheConstants.{MAX_PAGES, MIN_PAGES};
ghost use Rattle.rh_received.specs.Received.{HasRun, HoldsAllReceived, HoldsOffered, HoldsReceived};

use crate::laws::{received_law, run_law};
use rh_defs::Command;
use rh_store::Store;
use rh_tasks::{NamedFiles, World};

/// The world after these commands, each in range, from a fresh store of 8 to 1,024 pages with these files.
pub fn run_commands<S: Store, F: NamedFiles>(
    store: S,
    files: F,
    commands: &[Command],
) -> World<S, F>
    requires fresh { S.memory store ≡ fresh (S.memory store).pages }
    requires least { MIN_PAGES ≤ (S.memory store).pages }
    requires most { (S.memory store).pages ≤ MAX_PAGES }
    requires ranged { all_in_range commands.now ≡ true }
    ensures run { HasRun (start (S.memory store).pages (F.contents files)) commands.now result }
    ensures received { HoldsReceived result }
    ensures offered { HoldsOffered result }
    ensures all { HoldsAllReceived result }
{
    run_law();
    let mut world = World::new(store, files);
    for command in commands {
        world.apply(command);
    }
    received_law(&world);
    world
}
