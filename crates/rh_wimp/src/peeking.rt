//! What a poll would hand out, while nothing changes.
ghost use Rattle.std.specs.Prelude.{◌≡◌, ◌==◌, Option};
ghost use Rattle.std.specs.Option.{option_map};
ghost use Rattle.rh_defs.specs.Memory.{Memory};
ghost use Rattle.rh_defs.specs.Messages.{Parcel};
ghost use Rattle.rh_defs.specs.Post.{holds_such, post_poll};
ghost use Rattle.rh_defs.specs.RawTasks.{handed_parts};
ghost use Rattle.rh_module.specs.ModuleArea.{IsModule, module_heap_in};
ghost use Rattle.rh_wimp.specs.QueueCalls.{Answers, IsQueue};
ghost use Rattle.rh_wimp.specs.Chains.{HasEntry, Holds};
ghost use Rattle.rh_wimp.specs.QueueItems.{with_message};

use crate::chain::find;
use crate::layout::{MESSAGE, SENDER};
use crate::queue::Queue;
use crate::reading::{code_in, copy_block, parts_in};
use rh_defs::sizes::LONGEST_MESSAGE;
use rh_defs::{Data, EventCode, Handle};
use rh_module::Module;
use rh_store::Words;

impl Queue {
    /// Writes the message block that the next poll of a live task would hand out to the start of a lent block, and
    /// answers its event code; none, and the block left as it is, where that poll would hand out nothing. The rest of
    /// the block stays too.
    pub fn peek<S: Words>(
        &self,
        store: &S,
        module_area: Module,
        handle: Handle,
        block: &mut [u8; LONGEST_MESSAGE],
    ) -> Option<EventCode>
        requires queue { IsQueue (S.memory store.now) module_area self.now }
        requires live { HasEntry handle self.now }
        ensures code { Answers (S.memory store.now) module_area self.now
            (λ post. option_map (λ (p : Parcel). p.code) (post_poll handle post).1) result }
        ensures message { Answers (S.memory store.now) module_area self.now
            (λ post. with_message (post_poll handle post).1 block.old) block.new }
    {
        let Some(at) = find(&self.entries, handle) else {
            return None;
        };
        let entry = self.entries[at];
        if entry.first != 0 {
            copy_block(store, module_area, entry.first, block);
            return Some(code_in(store, module_area, entry.first));
        }
        if !holds_own(store, module_area, entry.held, handle) {
            return None;
        }
        // What the task holds would come back to itself.
        copy_block(store, module_area, entry.held, block);
        Some(EventCode::Acknowledge)
    }

    /// The sender of the message that the next poll of a live task would hand out, and its data; none where that poll
    /// would hand out nothing.
    pub fn next_parts<S: Words>(
        &self,
        store: &S,
        module_area: Module,
        handle: Handle,
    ) -> Option<(Handle, Data)>
        requires queue { IsQueue (S.memory store.now) module_area self.now }
        requires live { HasEntry handle self.now }
        ensures { Answers (S.memory store.now) module_area self.now
            (λ post. option_map handed_parts (post_poll handle post).1) result }
    {
        let Some(at) = find(&self.entries, handle) else {
            return None;
        };
        let entry = self.entries[at];
        if entry.first != 0 {
            return Some(parts_in(store, module_area, entry.first));
        }
        if !holds_own(store, module_area, entry.held, handle) {
            return None;
        }
        // What the task holds would come back to itself.
        Some(parts_in(store, module_area, entry.held))
    }
}

/// Whether the message that a task holds in a block, 0 for none, was sent by the task itself.
fn holds_own<S: Words>(store: &S, module_area: Module, held: usize, handle: Handle) -> bool
    requires module { IsModule (S.memory store.now) module_area }
    requires held { (o : Option Parcel) × Holds (module_heap_in (S.memory store.now) module_area) held o }
    ensures { (o : Option Parcel) → Holds (module_heap_in (S.memory store.now) module_area) held o → result
        ≡ holds_such (λ (p : Parcel). p.message.from == handle) o }
{
    if held == 0 {
        return false;
    }
    let from = Handle(module_area.read_word(store, held, MESSAGE + SENDER));
    from == handle
}
