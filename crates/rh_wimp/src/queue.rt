//! The queue of messages: a chain of blocks for each live task.
ghost use Rattle.std.specs.Prelude.{◌≡◌, ◌<◌, ◌^◌, [], ◌∷◌, ◌++◌, length};
ghost use Rattle.rh_defs.specs.declared.sizes.TheConstants.{MAX_TASKS};
ghost use Rattle.rh_defs.specs.Heap.{Heap};
ghost use Rattle.rh_defs.specs.Memory.{Memory};
ghost use Rattle.rh_defs.specs.Post.{Post, post_join};
ghost use Rattle.rh_module.specs.ModuleArea.{IsModule};
ghost use Rattle.rh_module.specs.declared.module.Module.{Module};
ghost use Rattle.rh_wimp.specs.QueueCalls.{IsQueue, handles_of};
ghost use Rattle.rh_wimp.specs.Chains.{HasEntry, ArePostChains, joined_chains};

use crate::chain::Entry;
use crate::table::Table;
use rh_defs::sizes::MAX_TASKS;
use rh_defs::{Handle, Ref};
use std::marker::Model;

/// For each live task a chain of messages in blocks of the module area, and the message that it holds.
#[derive(Drop)]
pub struct Queue {
    /// The live handles in order, with room for all that can be.
    pub(crate) entries: Table<Entry, MAX_TASKS>,
    /// How many messages are live.
    pub(crate) live: usize,
    /// The ref that is given next; 2^32 where all were given.
    pub(crate) next_ref: u64,
}

impl Model for Queue {
    ghost use Rattle.std.specs.Prelude.{◌≤◌, ◌^◌};
    ghost use Rattle.rh_wimp.specs.Chains.{Chains};

    ghost Value = { Chains };

    ghost view = { λ q. record { entries = q.entries.items; live = q.live; next_ref = q.next_ref } };

    ghost invariant = { λ q. q.next_ref ≤ 2 ^ 32 };
}

impl Queue {
    /// An empty queue whose first ref is 1, with room for all tasks.
    pub fn new() -> Queue
        ensures value { result ≡ record { entries = []; live = 0; next_ref = 1 } }
        ensures starts { (m : Memory) (module_area : Module) → IsModule m module_area → IsQueue m module_area result }
    {
        Queue::with_next_ref(Ref(1))
    }

    /// An empty queue whose first ref is this one, with room for all tasks.
    pub fn with_next_ref(next_ref: Ref) -> Queue
        ensures word { next_ref < 2 ^ 32 }
        ensures value { result ≡ record { entries = []; live = 0; next_ref = next_ref } }
        ensures starts { (m : Memory) (module_area : Module) → IsModule m module_area → IsQueue m module_area result }
    {
        Queue {
            entries: Table::new(),
            live: 0,
            next_ref: u64::from(next_ref.0),
        }
    }

    /// The ref that is given next; 2^32 where all were given.
    pub fn next_ref(&self) -> u64
        ensures { result ≡ self.now.next_ref }
    {
        self.next_ref
    }

    /// Makes a handle live.
    pub fn join(&mut self, handle: Handle)
        requires few { length self.old.entries < MAX_TASKS }
        requires new { ¬ HasEntry handle self.old }
        ensures entries { self.new ≡ joined_chains handle self.old }
        ensures handles { handles_of self.new ≡ handles_of self.old ++ handle ∷ [] }
        ensures spells { (h : Heap) (post : Post) → ArePostChains h self.old post → ArePostChains h self.new
            (post_join handle post) }
        ensures still { (m : Memory) (module_area : Module) → IsQueue m module_area self.old
            → IsQueue m module_area self.new }
    {
        self.entries.push(Entry {
            handle,
            first: 0,
            last: 0,
            held: 0,
        });
    }
}
