//! A live task's messages: the chain of those queued for it, and the one that it holds.
ghost use Rattle.std.specs.Prelude.{◌≡◌, ◌≢◌, ◌<◌, ◌^◌, ◌==◌, length, set, Some, None};
ghost use Rattle.std.specs.List.{position};
ghost use Rattle.rh_defs.specs.Memory.{Memory};
ghost use Rattle.rh_module.specs.ModuleArea.{IsModule, module_heap_in};
ghost use Rattle.rh_wimp.specs.Moves.{Relinks};
ghost use Rattle.rh_defs.specs.Blocks.{HasBlock};
ghost use Rattle.rh_wimp.specs.Chains.{entry_at, lengthened, shortened};
ghost use Rattle.rh_defs.specs.declared.sizes.TheConstants.{WORD};

use crate::layout::LINK;
use crate::table::Table;
use rh_defs::Handle;
use rh_defs::sizes::MAX_TASKS;
use rh_module::Module;
use rh_store::WordsMut;

/// So many entries are looked at in a turn.
const TURN: usize = 4;

/// A live handle, with the offsets in the module area of the first and last block of its chain and of the block that it
/// holds, 0 for none.
#[derive(Clone, Copy, Debug)]
pub(crate) struct Entry {
    pub handle: Handle,
    pub first: usize,
    pub last: usize,
    pub held: usize,
}

impl Default for Entry {
    fn default() -> Entry {
        Entry {
            handle: Handle(0),
            first: 0,
            last: 0,
            held: 0,
        }
    }
}

/// The place of the entry with a handle.
pub fn find(entries: &Table<Entry, MAX_TASKS>, handle: Handle) -> Option<usize>
    ensures { result ≡ position (λ e. e.handle == handle) entries.now.items }
{
    let all = entries.as_slice();
    let mut at = 0;
    while all.len() - at >= TURN {
        if let Some(i) = find_in(&all[at..at + TURN], handle) {
            return Some(at + i);
        }
        at += TURN;
    }
    match find_in(&all[at..], handle) {
        Some(i) => Some(at + i),
        None => None,
    }
}

/// The place of the entry with a handle among some.
#[inline(always)]
fn find_in(entries: &[Entry], handle: Handle) -> Option<usize>
    ensures { result ≡ position (λ e. e.handle == handle) entries.now }
{
    entries.iter().position(|e| e.handle == handle)
}

/// The entry without the first block of its chain, where the next one is this, 0 for none.
pub fn shortened(entry: Entry, next: usize) -> Entry
    ensures { result ≡ shortened next entry }
{
    Entry {
        first: next,
        last: if next == 0 { 0 } else { entry.last },
        ..entry
    }
}

/// Puts a block whose link is 0 at the end of a chain.
pub fn append<S: WordsMut>(
    store: &mut S,
    module_area: Module,
    entries: &mut Table<Entry, MAX_TASKS>,
    at: usize,
    block: usize,
)
    requires module { IsModule (S.memory store.old) module_area }
    requires within { at < length entries.old.items }
    requires last { (entry_at entries.old.items at).last ≢ 0
        → HasBlock (entry_at entries.old.items at).last WORD (module_heap_in (S.memory store.old) module_area) }
    requires small { block < 2 ^ 32 }
    ensures entries { entries.new.items ≡ set entries.old.items at (lengthened block (entry_at entries.old.items at)) }
    ensures len { length entries.new.items ≡ length entries.old.items }
    ensures heap { Relinks (S.memory store.old) (S.memory store.new) module_area
        (entry_at entries.old.items at).last block }
{
    let entry = entries[at];
    if entry.last == 0 {
        entries[at] = Entry {
            first: block,
            last: block,
            ..entry
        };
        return;
    }
    module_area.write_word(store, entry.last, LINK, block as u32);
    entries[at] = Entry {
        last: block,
        ..entry
    };
}
