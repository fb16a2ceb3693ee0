//! The message that a task holds.
ghost use Rattle.std.specs.Prelude.{◌≡◌, ◌<◌, length};
ghost use Rattle.std.specs.Option.{option_map};
ghost use Rattle.rh_defs.specs.Messages.{Parcel};
ghost use Rattle.rh_defs.specs.Memory.{OnlyArea};
ghost use Rattle.rh_defs.specs.Post.{Post, held_by, put_down};
ghost use Rattle.rh_module.specs.ModuleArea.{IsModule};
ghost use Rattle.rh_wimp.specs.QueueCalls.{Answers, IsQueue, LeavesChains, handles_of};
ghost use Rattle.rh_wimp.specs.Chains.{HasEntry, SpellsPostIn, entry_at};

use crate::chain::find;
use crate::layout::{MESSAGE, MY_REF};
use crate::placing::free;
use crate::queue::Queue;
use crate::reading::read_message;
use rh_defs::{Handle, Message, Ref};
use rh_module::Module;
use rh_store::{Pages, Words};

impl Queue {
    /// The message that a live task holds, none where it holds none.
    pub fn held<S: Words>(&self, store: &S, module_area: Module, handle: Handle) -> Option<Message>
        requires queue { IsQueue (S.memory store.now) module_area self.now }
        requires live { HasEntry handle self.now }
        ensures { Answers (S.memory store.now) module_area self.now
            (λ post. option_map (λ (p : Parcel). p.message) (held_by handle post.seats)) result }
    {
        let Some(at) = find(&self.entries, handle) else {
            return None;
        };
        let entry = self.entries[at];
        if entry.held == 0 {
            return None;
        }
        Some(read_message(store, module_area, entry.held))
    }

    /// Says that the message which a live task holds is answered, and sends nothing: its block is freed, and its ref is
    /// the answer. None, and nothing changed, where the task holds none.
    pub fn put_down<S: Pages>(
        &mut self,
        store: &mut S,
        module_area: Module,
        handle: Handle,
    ) -> Option<Ref>
        requires queue { IsQueue (S.memory store.old) module_area self.old }
        requires live { HasEntry handle self.old }
        ensures answer { Answers (S.memory store.old) module_area self.old
            (λ post. option_map (λ (p : Parcel). p.message.my_ref) (held_by handle post.seats)) result }
        ensures leaves { LeavesChains (S.memory store.old) (S.memory store.new) module_area self.old self.new
            (put_down handle) }
        ensures handles { handles_of self.new ≡ handles_of self.old }
    {
        let Some(at) = find(&self.entries, handle) else {
            return None;
        };
        self.put_down_at(store, module_area, at)
    }

    /// Frees the block of the message that a task holds, and answers its ref; none where the task holds none.
    fn put_down_at<S: Pages>(
        &mut self,
        store: &mut S,
        module_area: Module,
        at: usize,
    ) -> Option<Ref>
        requires module { IsModule (S.memory store.old) module_area }
        requires within { at < length self.old.entries }
        requires post { (post : Post) × SpellsPostIn (S.memory store.old) module_area self.old post }
        ensures answer { (post : Post) → SpellsPostIn (S.memory store.old) module_area self.old post → result
            ≡ option_map (λ (p : Parcel). p.message.my_ref) (held_by (entry_at self.old.entries at).handle post.seats) }
        ensures spells { (post : Post) → SpellsPostIn (S.memory store.old) module_area self.old post
            → SpellsPostIn (S.memory store.new) module_area self.new
            (put_down (entry_at self.old.entries at).handle post) }
        ensures module { IsModule (S.memory store.new) module_area }
        ensures only { OnlyArea (S.memory store.old) (S.memory store.new) module_area.area.0 }
    {
        let Some(block) = self.lift_held(at) else {
            return None;
        };
        let my_ref = Ref(module_area.read_word(store, block, MESSAGE + MY_REF));
        free(store, module_area, block);
        Some(my_ref)
    }
}
