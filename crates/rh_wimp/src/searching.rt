//! Whether a message is in the queue.
ghost use Rattle.std.specs.Prelude.{◌≡◌, ◌<◌, ◌≤◌, ◌^◌, ℕ, List, Option, length};
ghost use Rattle.std.specs.List.{list_any};
ghost use Rattle.rh_defs.specs.declared.sizes.TheConstants.{MOST_MESSAGES};
ghost use Rattle.rh_defs.specs.Memory.{bytes};
ghost use Rattle.rh_defs.specs.Messages.{Parcel};
ghost use Rattle.rh_defs.specs.Post.{holds_such, post_is_live, post_is_message};
ghost use Rattle.rh_module.specs.ModuleArea.{IsModule, module_heap_in};
ghost use Rattle.rh_wimp.specs.QueueCalls.{Answers, IsQueue};
ghost use Rattle.rh_wimp.specs.Chains.{Chain, Holds, Lies, SeatRow, RowLies, RowsLie, first_block, row_parcels};
ghost use Rattle.rh_wimp.specs.Inner.Searches.{AreShortChains, has_code, rows_have, wants};

use crate::chain::Entry;
use crate::layout::{CODE, LINK, MESSAGE, MY_REF};
use crate::queue::Queue;
use crate::table::Table;
use rh_defs::sizes::{MAX_TASKS, MOST_MESSAGES};
use rh_defs::{EventCode, Ref};
use rh_module::Module;
use rh_store::Words;

/// What is looked for among the live messages.
#[derive(Debug, Drop)]
pub(crate) enum Wanted {
    /// The message that lies in this block.
    At(usize),
    /// The message with this ref.
    WithRef(Ref),
}

impl Queue {
    /// Whether a message, queued or held, lies in the block at an offset of the module area. Where no event code stands
    /// as a message has it, none is asked.
    pub fn is_message<S: Words>(&self, store: &S, module_area: Module, block: usize) -> bool
        requires { IsQueue (S.memory store.now) module_area self.now }
        ensures { Answers (S.memory store.now) module_area self.now (post_is_message block) result }
    {
        if !has_code(store, module_area, block) {
            return false;
        }
        any_entry(store, module_area, &self.entries, &Wanted::At(block))
    }

    /// Whether the message with a ref is queued or held.
    pub fn is_live<S: Words>(&self, store: &S, module_area: Module, my_ref: Ref) -> bool
        requires { IsQueue (S.memory store.now) module_area self.now }
        ensures { Answers (S.memory store.now) module_area self.now (post_is_live my_ref) result }
    {
        any_entry(store, module_area, &self.entries, &Wanted::WithRef(my_ref))
    }
}

/// Whether an event code stands where a message in the block at an offset of the module area has one.
fn has_code<S: Words>(store: &S, module_area: Module, block: usize) -> bool
    requires { IsModule (S.memory store.now) module_area }
    ensures { result ≡ has_code block (bytes (S.memory store.now) module_area.area.0) }
{
    let end = store.len(module_area.area);
    if end < block || end - block < MESSAGE {
        return false;
    }
    EventCode::from_number(store.word(module_area.area, block + CODE)).is_some()
}

/// Whether a message of some tasks is the one that is looked for.
fn any_entry<S: Words>(
    store: &S,
    module_area: Module,
    entries: &Table<Entry, MAX_TASKS>,
    wanted: &Wanted,
) -> bool
    requires module { IsModule (S.memory store.now) module_area }
    requires rows { (rows : List SeatRow) × (RowsLie
        (module_heap_in (S.memory store.now) module_area) entries.now.items rows × AreShortChains rows) }
    ensures { (rows : List SeatRow) → RowsLie (module_heap_in (S.memory store.now) module_area) entries.now.items rows
        → AreShortChains rows → result ≡ rows_have (wants wanted.now) rows }
{
    for entry in entries.as_slice() {
        if entry_has(store, module_area, *entry, wanted) {
            return true;
        }
    }
    false
}

/// Whether a message of a task is the one that is looked for.
fn entry_has<S: Words>(store: &S, module_area: Module, entry: Entry, wanted: &Wanted) -> bool
    requires module { IsModule (S.memory store.now) module_area }
    requires row { (r : SeatRow) × (RowLies (module_heap_in (S.memory store.now) module_area) entry r ×
        (length r.chain ≤ MOST_MESSAGES)) }
    ensures { (r : SeatRow) → RowLies (module_heap_in (S.memory store.now) module_area) entry r → length r.chain
        ≤ MOST_MESSAGES → result ≡ list_any (wants wanted.now) (row_parcels r) }
{
    if held_has(store, module_area, entry.held, wanted) {
        return true;
    }
    chain_has(store, module_area, entry.first, wanted)
}

/// Whether the message that is held in a block, 0 for none, is the one that is looked for.
fn held_has<S: Words>(store: &S, module_area: Module, held: usize, wanted: &Wanted) -> bool
    requires module { IsModule (S.memory store.now) module_area }
    requires held { (o : Option Parcel) × Holds (module_heap_in (S.memory store.now) module_area) held o }
    ensures { (o : Option Parcel) → Holds (module_heap_in (S.memory store.now) module_area) held o → result
        ≡ holds_such (wants wanted.now) o }
{
    if held == 0 {
        return false;
    }
    matches_wanted(store, module_area, held, wanted)
}

/// Whether a message of a chain is the one that is looked for.
fn chain_has<S: Words>(store: &S, module_area: Module, first: usize, wanted: &Wanted) -> bool
    requires module { IsModule (S.memory store.now) module_area }
    requires chain { (ps : List Parcel) × ((first ≡ first_block ps 0) × Chain
        (module_heap_in (S.memory store.now) module_area) ps 0 × (length ps ≤ MOST_MESSAGES)) }
    ensures { (ps : List Parcel) → first ≡ first_block ps 0 → Chain (module_heap_in
        (S.memory store.now) module_area) ps 0 → length ps ≤ MOST_MESSAGES → result ≡ list_any (wants wanted.now) ps }
{
    let mut block = first;
    for _turn in 0..MOST_MESSAGES {
        if block == 0 {
            return false;
        }
        if matches_wanted(store, module_area, block, wanted) {
            return true;
        }
        block = module_area.read_word(store, block, LINK) as usize;
    }
    false
}

/// Whether the message that lies in a block is the one that is looked for.
fn matches_wanted<S: Words>(store: &S, module_area: Module, block: usize, wanted: &Wanted) -> bool
    requires module { IsModule (S.memory store.now) module_area }
    requires lies { (link : ℕ) × ((p : Parcel) ×
        (Lies (module_heap_in (S.memory store.now) module_area) link p × (block ≡ p.block) × (link < 2 ^ 32))) }
    ensures { (link : ℕ) (p : Parcel) → Lies (module_heap_in (S.memory store.now) module_area) link p → block ≡ p.block
        → link < 2 ^ 32 → result ≡ wants wanted.now p }
{
    match wanted {
        Wanted::At(at) => block == *at,
        Wanted::WithRef(my_ref) => module_area.read_word(store, block, MESSAGE + MY_REF)
            == my_ref.0,
    }
}
