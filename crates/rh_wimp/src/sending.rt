//! Letters into the queue.
ghost use Rattle.std.specs.Prelude.{◌≡◌, ◌<◌, ◌≤◌, ℕ, List, Some, None, OnErr, OnOk, IfOk, IfErr, length};
ghost use Rattle.rh_defs.specs.Chain.{answer_of, left_of};
ghost use Rattle.rh_defs.specs.Memory.{OnlyArea};
ghost use Rattle.rh_defs.specs.Post.{post_send, post_send_pages};
ghost use Rattle.rh_module.specs.ModuleArea.{IsModule, module_heap_in};
ghost use Rattle.rh_wimp.specs.QueueCalls.{Answers, IsQueue, LeavesChains, handles_of};
ghost use Rattle.rh_wimp.specs.Chains.{HasEntry, SeatRow, RowsLie, entry_at, row_at};
ghost use Rattle.rh_wimp.specs.Inner.LetterRefusals.{refusal_for};
ghost use Rattle.rh_wimp.specs.Inner.Settling.{Settled};

use crate::chain::{Entry, append, find};
use crate::encoding::body_length;
use crate::layout::{ACTION, MESSAGE};
use crate::placing::{holds_ref, place, put_down};
use crate::queue::Queue;
use crate::table::Table;
use rh_defs::sizes::{MAX_TASKS, MOST_MESSAGES};
use rh_defs::{Handle, Letter, Ref, Refusal};
use rh_module::Module;
use rh_store::{Pages, Words};

impl Queue {
    /// The pages that a send would take. Refused as the send is, but for `NoRoom`.
    pub fn send_pages<S: Words>(
        &self,
        store: &S,
        module_area: Module,
        letter: &Letter,
    ) -> Result<usize, Refusal>
        requires { IsQueue (S.memory store.now) module_area self.now }
        ensures { Answers (S.memory store.now) module_area self.now (post_send_pages letter.now) result }
    {
        let _to = self.admit(letter.to)?;
        let length = MESSAGE + ACTION + body_length(&letter.body);
        module_area.need_pages(store, length as u32)
    }

    /// Sends a letter: it gets the next ref, and goes to the end of its recipient's chain. Where it answers the message
    /// that the sender holds, that one's block is freed. Refused, and nothing changed: `NoTask` where the recipient
    /// isn't live, `NoRefs` where all refs were given, `QueueFull` where as many as can be are live, `NoRoom` where the
    /// module area can't grow.
    pub fn send<S: Pages>(
        &mut self,
        store: &mut S,
        module_area: Module,
        letter: Letter,
    ) -> Result<Ref, Refusal>
        requires queue { IsQueue (S.memory store.old) module_area self.old }
        requires from { HasEntry letter.from self.old }
        ensures answer { Answers (S.memory store.old) module_area self.old
            (λ post. answer_of (post_send (S.memory store.old).free letter post)) result }
        ensures leaves { LeavesChains (S.memory store.old) (S.memory store.new) module_area self.old self.new
            (λ post. left_of post (post_send (S.memory store.old).free letter post)) }
        ensures handles { handles_of self.new ≡ handles_of self.old }
        ensures err { OnErr result ((S.memory store.new ≡ S.memory store.old) × (self.new ≡ self.old)) }
    {
        self.send_lent(store, module_area, &letter)
    }

    /// Sends a letter that is lent, as `send` does.
    pub fn send_lent<S: Pages>(
        &mut self,
        store: &mut S,
        module_area: Module,
        letter: &Letter,
    ) -> Result<Ref, Refusal>
        requires queue { IsQueue (S.memory store.old) module_area self.old }
        requires from { HasEntry letter.now.from self.old }
        ensures answer { Answers (S.memory store.old) module_area self.old
            (λ post. answer_of (post_send (S.memory store.old).free letter.now post)) result }
        ensures leaves { LeavesChains (S.memory store.old) (S.memory store.new) module_area self.old self.new
            (λ post. left_of post (post_send (S.memory store.old).free letter.now post)) }
        ensures handles { handles_of self.new ≡ handles_of self.old }
        ensures err { OnErr result ((S.memory store.new ≡ S.memory store.old) × (self.new ≡ self.old)) }
    {
        let to = self.admit(letter.to)?;
        let my_ref = Ref(self.next_ref as u32);
        let block = place(store, module_area, letter, my_ref)?;
        append(store, module_area, &mut self.entries, to, block);
        let (from, your_ref) = (letter.from, letter.your_ref);
        let freed = answer(store, module_area, &mut self.entries, from, your_ref);
        self.live = self.live + 1 - freed;
        self.next_ref += 1;
        Ok(my_ref)
    }

    /// The place of a recipient, where a letter to it isn't refused before its block is claimed.
    fn admit(&self, to: Handle) -> Result<usize, Refusal>
        ensures found { IfOk result (λ i. (i < length self.now.entries) × ((entry_at self.now.entries i).handle ≡ to)) }
        ensures ok { OnOk result (refusal_for to self.now ≡ None) }
        ensures refused { IfErr result (λ refusal. refusal_for to self.now ≡ Some refusal) }
    {
        let Some(at) = find(&self.entries, to) else {
            return Err(Refusal::NoTask);
        };
        if self.next_ref > u64::from(u32::MAX) {
            return Err(Refusal::NoRefs);
        }
        if self.live >= MOST_MESSAGES {
            return Err(Refusal::QueueFull);
        }
        Ok(at)
    }
}

/// Frees the block that a task holds where its message has this ref, and answers how many messages that were.
fn answer<S: Pages>(
    store: &mut S,
    module_area: Module,
    entries: &mut Table<Entry, MAX_TASKS>,
    from: Handle,
    your_ref: Ref,
) -> usize
    requires module { IsModule (S.memory store.old) module_area }
    requires rows { (rows : List SeatRow) × RowsLie (module_heap_in
        (S.memory store.old) module_area) entries.old.items rows }
    ensures one { result ≤ 1 }
    ensures len { length entries.new.items ≡ length entries.old.items }
    ensures module { IsModule (S.memory store.new) module_area }
    ensures only { OnlyArea (S.memory store.old) (S.memory store.new) module_area.area.0 }
    ensures settles { (rows : List SeatRow) (i : ℕ) → RowsLie (module_heap_in
        (S.memory store.old) module_area) entries.old.items rows → i < length rows → (row_at rows i).handle ≡ from
        → Settled (S.memory store.old) (S.memory store.new) module_area entries.old.items entries.new.items i your_ref
        (row_at rows i).held result }
{
    let Some(at) = find(entries, from) else {
        return 0;
    };
    if !holds_ref(store, module_area, entries[at], your_ref) {
        return 0;
    }
    put_down(store, module_area, entries, at);
    1
}
