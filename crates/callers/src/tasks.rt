//! A world over a plain store.
ghost use Rattle.std.specs.Prelude.{◌≡◌, [], Some, IfOk};
ghost use Rattle.rh_defs.specs.Order.{IsReordered};
ghost use Rattle.rh_defs.specs.Runs.{after, start};
ghost use Rattle.callers.specs.UsedTasks.{the_commands};

use rh_defs::{Anchor, Command, Files, Manner, Name, Reply};
use rh_store::{PlainStore, Store};
use rh_tasks::World;
use std::alloc::{AllocError, Global};

/// The first desk over 64 pages of a plain store, with no files. AllocError where memory is refused.
pub fn start_world(alloc: Global) -> Result<World<PlainStore>, AllocError>
    ensures { IfOk result (λ world. world.desk ≡ start 64 []) }
{
    let store = PlainStore::new(alloc, 64)?;
    Ok(World::new(store, Files::new(alloc)))
}

/// On the first desk starts a task, gives it a flex block, and then claims more of its C heap than there is: the heap
/// grows, and the flex block slides up. Answers the address of the claimed block.
pub fn three_commands<S: Store>(world: &mut World<S>) -> Option<u32>
    requires { world.old.desk ≡ start 64 [] }
    ensures answer { result ≡ Some 0x8114 }
    ensures desk { IsReordered (after (start 64 []) the_commands) world.new.desk }
{
    let name = Name::new(b"a").unwrap();
    let task = Command::Task {
        name: name.copied(),
        buffer: 100,
        manner: Manner::Plain,
    };
    let alloc = Command::Alloc {
        name: name.copied(),
        anchor: Anchor(0),
        size: 5,
    };
    let claim = Command::Claim { name, size: 4000 };
    world.apply(&task);
    world.apply(&alloc);
    match world.apply(&claim) {
        Reply::Block { address } => Some(address),
        _ => None,
    }
}
