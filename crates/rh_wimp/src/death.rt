//! The end of a live handle.
ghost use Rattle.std.specs.Prelude.{◌≡◌, ◌<◌, ◌==◌, filter, length, not};
ghost use Rattle.rh_defs.specs.declared.sizes.TheConstants.{MOST_MESSAGES};
ghost use Rattle.rh_defs.specs.Memory.{OnlyArea};
ghost use Rattle.rh_defs.specs.Messages.{Parcel};
ghost use Rattle.rh_defs.specs.Post.{Post, held_by, post_death};
ghost use Rattle.rh_module.specs.ModuleArea.{IsModule};
ghost use Rattle.rh_wimp.specs.QueueCalls.{IsQueue, LeavesChains, handles_of};
ghost use Rattle.rh_wimp.specs.Chains.{HasEntry, SpellsPostIn, entry_at};
ghost use Rattle.rh_wimp.specs.Inner.LooseMessages.{MayBounce};
ghost use Rattle.rh_wimp.specs.Inner.Deaths.{Drains, bounced_from, ended_from, settled_from};

use crate::chain::find;
use crate::layout::{MESSAGE, SENDER};
use crate::placing::free;
use crate::queue::Queue;
use crate::reading::read_code;
use rh_defs::Handle;
use rh_defs::sizes::MOST_MESSAGES;
use rh_module::Module;
use rh_store::Pages;

impl Queue {
    /// Ends a live handle. The message that it holds bounces, then the recorded messages queued for it bounce in order,
    /// and the others vanish. Those from the handle itself vanish too, as it isn't live any more.
    pub fn bounce_for_death<S: Pages>(&mut self, store: &mut S, module_area: Module, handle: Handle)
        requires queue { IsQueue (S.memory store.old) module_area self.old }
        requires live { HasEntry handle self.old }
        ensures leaves { LeavesChains (S.memory store.old) (S.memory store.new) module_area self.old self.new
            (post_death handle) }
        ensures handles { handles_of self.new ≡ filter (λ h. not (h == handle)) (handles_of self.old) }
    {
        let Some(at) = find(&self.entries, handle) else {
            return;
        };
        self.end_held(store, module_area, at, handle);
        self.end_chain(store, module_area, at, handle);
        self.entries.remove(at);
    }

    /// Bounces the message that a dying task holds, if there is one.
    fn end_held<S: Pages>(&mut self, store: &mut S, module_area: Module, at: usize, dying: Handle)
        requires module { IsModule (S.memory store.old) module_area }
        requires within { at < length self.old.entries }
        requires handle { (entry_at self.old.entries at).handle ≡ dying }
        requires post { (post : Post) × SpellsPostIn (S.memory store.old) module_area self.old post }
        ensures spells { (post : Post) → SpellsPostIn (S.memory store.old) module_area self.old post
            → SpellsPostIn (S.memory store.new) module_area self.new
            (settled_from dying (held_by dying post.seats) post) }
        ensures module { IsModule (S.memory store.new) module_area }
        ensures only { OnlyArea (S.memory store.old) (S.memory store.new) module_area.area.0 }
    {
        if let Some(block) = self.lift_held(at) {
            self.bounce_from(store, module_area, block, dying);
        }
    }

    /// Empties the chain of a dying task: recorded messages bounce, the others vanish.
    fn end_chain<S: Pages>(&mut self, store: &mut S, module_area: Module, at: usize, dying: Handle)
        requires module { IsModule (S.memory store.old) module_area }
        requires within { at < length self.old.entries }
        requires handle { (entry_at self.old.entries at).handle ≡ dying }
        requires post { (post : Post) × SpellsPostIn (S.memory store.old) module_area self.old post }
        ensures drains { (post : Post) → SpellsPostIn (S.memory store.old) module_area self.old post
            → Drains (S.memory store.new) module_area self.new post dying MOST_MESSAGES }
        ensures module { IsModule (S.memory store.new) module_area }
        ensures only { OnlyArea (S.memory store.old) (S.memory store.new) module_area.area.0 }
    {
        for _turn in 0..MOST_MESSAGES {
            let Some(block) = self.take_first(store, module_area, at) else {
                return;
            };
            self.end_message(store, module_area, block, dying);
        }
    }

    /// Bounces a message that was queued for a dying task, if it is a recorded one, and else frees its block.
    fn end_message<S: Pages>(
        &mut self,
        store: &mut S,
        module_area: Module,
        block: usize,
        dying: Handle,
    )
        requires module { IsModule (S.memory store.old) module_area }
        requires loose { (post : Post) × ((p : Parcel) × MayBounce
            (S.memory store.old) module_area self.old post p block) }
        ensures spells { (post : Post) (p : Parcel) → MayBounce (S.memory store.old) module_area self.old post p block
            → SpellsPostIn (S.memory store.new) module_area self.new (ended_from dying p post) }
        ensures module { IsModule (S.memory store.new) module_area }
        ensures only { OnlyArea (S.memory store.old) (S.memory store.new) module_area.area.0 }
    {
        if read_code(store, module_area, block).is_recorded() {
            self.bounce_from(store, module_area, block, dying);
        } else {
            free(store, module_area, block);
        }
    }

    /// Bounces a message that belongs to nobody, or frees its block where a dying task sent it.
    fn bounce_from<S: Pages>(
        &mut self,
        store: &mut S,
        module_area: Module,
        block: usize,
        dying: Handle,
    )
        requires module { IsModule (S.memory store.old) module_area }
        requires loose { (post : Post) × ((p : Parcel) × MayBounce
            (S.memory store.old) module_area self.old post p block) }
        ensures spells { (post : Post) (p : Parcel) → MayBounce (S.memory store.old) module_area self.old post p block
            → SpellsPostIn (S.memory store.new) module_area self.new (bounced_from dying p post) }
        ensures module { IsModule (S.memory store.new) module_area }
        ensures only { OnlyArea (S.memory store.old) (S.memory store.new) module_area.area.0 }
    {
        let from = Handle(module_area.read_word(store, block, MESSAGE + SENDER));
        if from == dying {
            free(store, module_area, block);
        } else {
            self.bounce(store, module_area, block);
        }
    }
}
