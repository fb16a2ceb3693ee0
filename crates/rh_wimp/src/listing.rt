//! The live messages, all at once.
ghost use Rattle.std.specs.Prelude.{◌≡◌, ◌+◌, ◌≤◌, ◌++◌, ℕ, List, Option, map, length, false, true};
ghost use Rattle.rh_defs.specs.declared.sizes.TheConstants.{MOST_MESSAGES};
ghost use Rattle.rh_defs.specs.Memory.{Memory};
ghost use Rattle.rh_defs.specs.Messages.{Parcel};
ghost use Rattle.rh_module.specs.ModuleArea.{IsModule, module_heap_in};
ghost use Rattle.rh_wimp.specs.QueueCalls.{Answers, IsQueue};
ghost use Rattle.rh_wimp.specs.Chains.{Chain, Holds, SeatRow, RowsLie, first_block, held_list};
ghost use Rattle.rh_wimp.specs.QueueItems.{LinksAt, held_items, message_item_of, message_items, waiting_items};

use crate::chain::Entry;
use crate::layout::LINK;
use crate::queue::Queue;
use crate::reading::{code_in, read_linked};
use crate::table::Table;
use arrayvec::ArrayVec;
use rh_defs::sizes::{MAX_TASKS, MOST_MESSAGES};
use rh_defs::{Handle, MessageItem, Ref};
use rh_module::Module;
use rh_store::Words;

impl Queue {
    /// Puts all live messages into a list, in place of what it held: those that wait, task by task in the order in
    /// which the handles joined, each task's as polls hand them out; then those that are held.
    pub fn list<S: Words>(
        &self,
        store: &S,
        module_area: Module,
        items: &mut ArrayVec<MessageItem, MOST_MESSAGES>,
    )
        requires { IsQueue (S.memory store.now) module_area self.now }
        ensures { Answers (S.memory store.now) module_area self.now message_items items.new.items }
    {
        items.clear();
        push_waiting(store, module_area, &self.entries, items);
        push_held(store, module_area, &self.entries, items);
    }
}

/// Appends the messages that wait, task by task.
fn push_waiting<S: Words>(
    store: &S,
    module_area: Module,
    entries: &Table<Entry, MAX_TASKS>,
    items: &mut ArrayVec<MessageItem, MOST_MESSAGES>,
)
    requires module { IsModule (S.memory store.now) module_area }
    requires rows { (rows : List SeatRow) × (RowsLie
        (module_heap_in (S.memory store.now) module_area) entries.now.items rows
        × (length items.old.items + length (waiting_items rows) ≤ MOST_MESSAGES)) }
    ensures { (rows : List SeatRow) → RowsLie (module_heap_in (S.memory store.now) module_area) entries.now.items rows
        → length items.old.items + length (waiting_items rows) ≤ MOST_MESSAGES
        → items.new.items ≡ items.old.items ++ waiting_items rows }
{
    for entry in entries.as_slice() {
        push_chain(store, module_area, entry.first, entry.handle, items);
    }
}

/// Appends the messages of a chain, which wait for a task.
fn push_chain<S: Words>(
    store: &S,
    module_area: Module,
    first: usize,
    to: Handle,
    items: &mut ArrayVec<MessageItem, MOST_MESSAGES>,
)
    requires module { IsModule (S.memory store.now) module_area }
    requires chain { (ps : List Parcel) × ((first ≡ first_block ps 0) × Chain
        (module_heap_in (S.memory store.now) module_area) ps 0 × (length items.old.items + length ps ≤ MOST_MESSAGES)) }
    ensures { (ps : List Parcel) → first ≡ first_block ps 0 → Chain (module_heap_in
        (S.memory store.now) module_area) ps 0 → length items.old.items + length ps ≤ MOST_MESSAGES
        → items.new.items ≡ items.old.items ++ map (message_item_of to false) ps }
{
    let mut block = first;
    for _turn in 0..MOST_MESSAGES {
        if block == 0 {
            return;
        }
        items.push(read_item(store, module_area, block, to, false));
        block = module_area.read_word(store, block, LINK) as usize;
    }
}

/// Appends the messages that are held, task by task.
fn push_held<S: Words>(
    store: &S,
    module_area: Module,
    entries: &Table<Entry, MAX_TASKS>,
    items: &mut ArrayVec<MessageItem, MOST_MESSAGES>,
)
    requires module { IsModule (S.memory store.now) module_area }
    requires rows { (rows : List SeatRow) × (RowsLie
        (module_heap_in (S.memory store.now) module_area) entries.now.items rows
        × (length items.old.items + length (held_items rows) ≤ MOST_MESSAGES)) }
    ensures { (rows : List SeatRow) → RowsLie (module_heap_in (S.memory store.now) module_area) entries.now.items rows
        → length items.old.items + length (held_items rows) ≤ MOST_MESSAGES
        → items.new.items ≡ items.old.items ++ held_items rows }
{
    for entry in entries.as_slice() {
        push_block(store, module_area, entry.held, entry.handle, items);
    }
}

/// Appends the message that a task holds in a block, 0 for none.
fn push_block<S: Words>(
    store: &S,
    module_area: Module,
    held: usize,
    to: Handle,
    items: &mut ArrayVec<MessageItem, MOST_MESSAGES>,
)
    requires module { IsModule (S.memory store.now) module_area }
    requires held { (o : Option Parcel) × (Holds (module_heap_in (S.memory store.now) module_area) held o ×
        (length items.old.items + length (held_list o) ≤ MOST_MESSAGES)) }
    ensures { (o : Option Parcel) → Holds (module_heap_in (S.memory store.now) module_area) held o
        → length items.old.items + length (held_list o) ≤ MOST_MESSAGES
        → items.new.items ≡ items.old.items ++ map (message_item_of to true) (held_list o) }
{
    if held == 0 {
        return;
    }
    items.push(read_item(store, module_area, held, to, true));
}

/// What is listed of the message that lies in a block.
fn read_item<S: Words>(
    store: &S,
    module_area: Module,
    block: usize,
    to: Handle,
    held: bool,
) -> MessageItem
    requires module { IsModule (S.memory store.now) module_area }
    requires lies { (link : ℕ) × ((p : Parcel) × LinksAt (S.memory store.now) module_area block link p) }
    ensures { (link : ℕ) (p : Parcel) → LinksAt (S.memory store.now) module_area block link p → result
        ≡ message_item_of to held p }
{
    let message = read_linked(store, module_area, block);
    MessageItem {
        block: block as u32,
        to,
        from: message.from,
        my_ref: message.my_ref,
        action: message.body.action(),
        code: code_in(store, module_area, block),
        held,
    }
}
