//! Messages out of the queue, and those that come back.
ghost use Rattle.std.specs.Prelude.{◌≡◌, ◌≢◌, ◌<◌, ◌∷◌, ℕ, true, Some, None, IfNone, IfSome, length};
ghost use Rattle.std.specs.Option.{option_map};
ghost use Rattle.rh_defs.specs.declared.sizes.TheConstants.{MOST_MESSAGES};
ghost use Rattle.rh_defs.specs.Heap.{Heap};
ghost use Rattle.rh_defs.specs.Memory.{OnlyArea};
ghost use Rattle.rh_defs.specs.Messages.{Parcel};
ghost use Rattle.rh_defs.specs.Post.{Post, bounce_held, bounced, held_by, post_poll, taken};
ghost use Rattle.rh_module.specs.ModuleArea.{IsModule, module_heap_in};
ghost use Rattle.rh_wimp.specs.QueueCalls.{Answers, IsQueue, LeavesChains, handles_of};
ghost use Rattle.rh_wimp.specs.Chains.{HasEntry, ArePostChains, SpellsPostIn, entry_at, event_as, event_of};
ghost use Rattle.rh_wimp.specs.Inner.LooseMessages.{TakesFirst, MayBounce};
ghost use Rattle.rh_wimp.specs.Inner.ChainEdits.{emptied_chains, holding_chains};

use crate::chain::{Entry, append, find, shortened};
use crate::layout::{CODE, LINK, MESSAGE, SENDER};
use crate::placing::free;
use crate::queue::Queue;
use crate::reading::{read_as, read_code};
use rh_defs::{Event, EventCode, Handle};
use rh_module::Module;
use rh_store::Pages;

impl Queue {
    /// Hands out the next message for a live task, none where there is none. First the message that it holds bounces:
    /// it goes back to its sender as event 19, or vanishes where that one isn't live. A recorded message (18) is held
    /// from then on; the block of any other is freed.
    pub fn poll<S: Pages>(
        &mut self,
        store: &mut S,
        module_area: Module,
        handle: Handle,
    ) -> Option<Event>
        requires queue { IsQueue (S.memory store.old) module_area self.old }
        requires live { HasEntry handle self.old }
        ensures answer { Answers (S.memory store.old) module_area self.old
            (λ post. option_map event_of (post_poll handle post).1) result }
        ensures leaves { LeavesChains (S.memory store.old) (S.memory store.new) module_area self.old self.new
            (λ post. (post_poll handle post).0) }
        ensures handles { handles_of self.new ≡ handles_of self.old }
    {
        let Some(at) = find(&self.entries, handle) else {
            return None;
        };
        self.bounce_held(store, module_area, at);
        self.take(store, module_area, at, false)
    }

    /// Does what `poll` does, and hands the message out as a task that the desk plays reads it.
    #[inline(always)]
    pub fn poll_read<S: Pages>(
        &mut self,
        store: &mut S,
        module_area: Module,
        handle: Handle,
    ) -> Option<Event>
        requires queue { IsQueue (S.memory store.old) module_area self.old }
        requires live { HasEntry handle self.old }
        ensures answer { Answers (S.memory store.old) module_area self.old
            (λ post. option_map (event_as true) (post_poll handle post).1) result }
        ensures leaves { LeavesChains (S.memory store.old) (S.memory store.new) module_area self.old self.new
            (λ post. (post_poll handle post).0) }
        ensures handles { handles_of self.new ≡ handles_of self.old }
    {
        let Some(at) = find(&self.entries, handle) else {
            return None;
        };
        self.bounce_held(store, module_area, at);
        self.take(store, module_area, at, true)
    }

    /// Bounces the message that a task holds, if there is one.
    fn bounce_held<S: Pages>(&mut self, store: &mut S, module_area: Module, at: usize)
        requires module { IsModule (S.memory store.old) module_area }
        requires within { at < length self.old.entries }
        requires post { (post : Post) × SpellsPostIn (S.memory store.old) module_area self.old post }
        ensures spells { (post : Post) → SpellsPostIn (S.memory store.old) module_area self.old post
            → SpellsPostIn (S.memory store.new) module_area self.new
            (bounce_held (entry_at self.old.entries at).handle
            (held_by (entry_at self.old.entries at).handle post.seats) post) }
        ensures module { IsModule (S.memory store.new) module_area }
        ensures only { OnlyArea (S.memory store.old) (S.memory store.new) module_area.area.0 }
    {
        if let Some(block) = self.lift_held(at) {
            self.bounce(store, module_area, block);
        }
    }

    /// Takes the message that a task holds off it, and answers its block.
    pub(crate) fn lift_held(&mut self, at: usize) -> Option<usize>
        requires within { at < length self.old.entries }
        requires post { (h : Heap) × ((post : Post) × ArePostChains h self.old post) }
        ensures none { IfNone result (((entry_at self.old.entries at).held ≡ 0) × (self.new ≡ self.old)) }
        ensures held { IfSome result (λ block. (block ≡ (entry_at self.old.entries at).held) ×
            ((entry_at self.old.entries at).held ≢ 0) × (self.new ≡ emptied_chains at self.old)) }
    {
        let entry = self.entries[at];
        if entry.held == 0 {
            return None;
        }
        self.entries[at] = Entry { held: 0, ..entry };
        self.live -= 1;
        Some(entry.held)
    }

    /// Sends a message that belongs to nobody back to its sender, or frees its block where that one isn't live.
    pub(crate) fn bounce<S: Pages>(&mut self, store: &mut S, module_area: Module, block: usize)
        requires module { IsModule (S.memory store.old) module_area }
        requires loose { (post : Post) × ((p : Parcel) × MayBounce
            (S.memory store.old) module_area self.old post p block) }
        ensures spells { (post : Post) (p : Parcel) → MayBounce (S.memory store.old) module_area self.old post p block
            → SpellsPostIn (S.memory store.new) module_area self.new (bounced p post) }
        ensures module { IsModule (S.memory store.new) module_area }
        ensures only { OnlyArea (S.memory store.old) (S.memory store.new) module_area.area.0 }
    {
        let from = Handle(module_area.read_word(store, block, MESSAGE + SENDER));
        let Some(to) = find(&self.entries, from) else {
            free(store, module_area, block);
            return;
        };
        module_area.write_word(store, block, CODE, EventCode::Acknowledge.number());
        append(store, module_area, &mut self.entries, to, block);
        self.live += 1;
    }

    /// Takes the first message off a task's chain, and answers its block.
    pub(crate) fn take_first<S: Pages>(
        &mut self,
        store: &mut S,
        module_area: Module,
        at: usize,
    ) -> Option<usize>
        requires module { IsModule (S.memory store.old) module_area }
        requires within { at < length self.old.entries }
        requires post { (post : Post) × SpellsPostIn (S.memory store.old) module_area self.old post }
        ensures lifts { (post : Post) → SpellsPostIn (S.memory store.old) module_area self.old post
            → TakesFirst (S.memory store.new) module_area self.new post (entry_at self.old.entries at).handle result }
        ensures module { IsModule (S.memory store.new) module_area }
        ensures only { OnlyArea (S.memory store.old) (S.memory store.new) module_area.area.0 }
    {
        let entry = self.entries[at];
        let block = entry.first;
        if block == 0 {
            return None;
        }
        let next = module_area.read_word(store, block, LINK) as usize;
        module_area.write_word(store, block, LINK, 0);
        self.entries[at] = shortened(entry, next);
        self.live -= 1;
        Some(block)
    }

    /// Makes a task that holds no message hold one.
    fn hold(&mut self, at: usize, block: usize)
        requires within { at < length self.old.entries }
        requires few { self.old.live < MOST_MESSAGES }
        ensures { self.new ≡ holding_chains at block self.old }
    {
        self.entries[at].held = block;
        self.live += 1;
    }

    /// Takes the first message of a task that holds none, as it is or as a task that the desk plays reads it.
    #[inline(always)]
    fn take<S: Pages>(
        &mut self,
        store: &mut S,
        module_area: Module,
        at: usize,
        played: bool,
    ) -> Option<Event>
        requires module { IsModule (S.memory store.old) module_area }
        requires within { at < length self.old.entries }
        requires post { (post : Post) × SpellsPostIn (S.memory store.old) module_area self.old post ×
            (held_by (entry_at self.old.entries at).handle post.seats ≡ None) }
        ensures answer { (post : Post) → SpellsPostIn (S.memory store.old) module_area self.old post → held_by
            (entry_at self.old.entries at).handle post.seats ≡ None
            → result ≡ option_map (event_as played) (taken (entry_at self.old.entries at).handle post).1 }
        ensures spells { (post : Post) → SpellsPostIn (S.memory store.old) module_area self.old post → held_by
            (entry_at self.old.entries at).handle post.seats ≡ None
            → SpellsPostIn (S.memory store.new) module_area self.new
            (taken (entry_at self.old.entries at).handle post).0 }
        ensures module { IsModule (S.memory store.new) module_area }
        ensures only { OnlyArea (S.memory store.old) (S.memory store.new) module_area.area.0 }
    {
        let Some(block) = self.take_first(store, module_area, at) else {
            return None;
        };
        let code = read_code(store, module_area, block);
        let message = read_as(store, module_area, block, played);
        if code.is_recorded() {
            self.hold(at, block);
        } else {
            free(store, module_area, block);
        }
        Some(Event { code, message })
    }
}
