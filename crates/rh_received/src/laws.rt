//! Laws over a world, each the contract of a function with nothing to do.

ghost use Rattle.rh_received.specs.Received.{HoldsAllReceived, HoldsOffered, HoldsReceived, RunsBegin, RunsGoOn};

use rh_store::Store;
use rh_tasks::{NamedFiles, World};

/// After any commands: what a task holds of a transfer stands in the store, in the task's slot, where the word of its
/// record's anchor says. A file that was offered begins with it, and is no longer where the record says Done. So it is
/// of each transfer that was offered, and of each that no task with code of its own began: of all, where none is
/// started.
pub fn received_law<S: Store, F: NamedFiles>(world: &World<S, F>)
    ensures received { HoldsReceived world.now }
    ensures offered { HoldsOffered world.now }
    ensures all { HoldsAllReceived world.now }
{
    world.recall_spelling();
}

/// What is shown at first is a run of no commands, and each command that a world applies takes a run on.
pub fn run_law()
    ensures begins { RunsBegin }
    ensures goes_on { RunsGoOn }
{}
