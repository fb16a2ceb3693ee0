//! Messages into blocks of the module area, and blocks that go.
ghost use Rattle.std.specs.Prelude.{◌≡◌, ◌≢◌, ◌+◌, ◌<◌, ◌==◌, ◌++◌, ℕ, List, Some, None, Ok, false, OnErr, IfOk};
ghost use Rattle.std.specs.Prelude.{length, set};
ghost use Rattle.rh_defs.specs.Bytes.{word};
ghost use Rattle.rh_defs.specs.Chain.{answer_of};
ghost use Rattle.rh_defs.specs.Heap.{Heap, release_block};
ghost use Rattle.rh_defs.specs.Memory.{Memory, OnlyArea};
ghost use Rattle.rh_defs.specs.Module.{module_claim};
ghost use Rattle.rh_defs.specs.Post.{message_of};
ghost use Rattle.rh_module.specs.ModuleArea.{IsModule, module_heap_in};
ghost use Rattle.rh_wimp.specs.Moves.{Turns};
ghost use Rattle.rh_defs.specs.Blocks.{HasBlock, block_bytes, poked};
ghost use Rattle.rh_wimp.specs.Chains.{entry_at, emptied};
ghost use Rattle.rh_defs.specs.Bytes.{word_bytes};
ghost use Rattle.rh_defs.specs.Messages.{Fits, code_number, encoded, parcel_size};
ghost use Rattle.rh_defs.specs.declared.sizes.TheConstants.{WORD};
ghost use Rattle.rh_wimp.specs.declared.layout.TheConstants.{MESSAGE, MY_REF};

use crate::bytes::put_word;
use crate::chain::Entry;
use crate::encoding::encode_letter;
use crate::layout::{CODE, LINK, MESSAGE, MOST_PARCEL, MY_REF};
use crate::table::Table;
use rh_defs::sizes::MAX_TASKS;
use rh_defs::{Letter, Ref, Refusal};
use rh_module::Module;
use rh_store::{Pages, Words};

/// Claims a block and writes a letter's message into it, under this ref and with link 0. Refused (`NoRoom`), and
/// nothing changed, where the module area can't grow.
pub fn place<S: Pages>(
    store: &mut S,
    module_area: Module,
    letter: &Letter,
    my_ref: Ref,
) -> Result<usize, Refusal>
    requires { IsModule (S.memory store.old) module_area }
    ensures answer { result ≡ answer_of (module_claim (S.memory store.old).free
        (parcel_size (message_of letter.now my_ref)) (module_heap_in (S.memory store.old) module_area)) }
    ensures placed { (there : Heap × ℕ)
        → module_claim (S.memory store.old).free (parcel_size (message_of letter.now my_ref))
        (module_heap_in (S.memory store.old) module_area) ≡ Ok there
        → Turns (S.memory store.old) (S.memory store.new) module_area
        (poked there.1 0 (word_bytes 0 ++ (word_bytes (code_number letter.now.code)
        ++ encoded (message_of letter.now my_ref))) there.0) }
    ensures fits { Fits (message_of letter.now my_ref) }
    ensures err { OnErr result (S.memory store.new ≡ S.memory store.old) }
{
    let mut parcel = [0u8; MOST_PARCEL];
    put_word(&mut parcel, CODE, letter.code.number());
    let length = MESSAGE + encode_letter(letter, my_ref, &mut parcel[MESSAGE..]);
    let block = module_area.claim(store, length as u32)?;
    module_area.write_bytes(store, block, LINK, &parcel[..length]);
    Ok(block)
}

/// Whether a task holds a message with this ref.
pub fn holds_ref<S: Words>(store: &S, module_area: Module, entry: Entry, my_ref: Ref) -> bool
    requires module { IsModule (S.memory store.now) module_area }
    requires held { entry.held ≢ 0 → HasBlock entry.held (MESSAGE + MY_REF + WORD)
        (module_heap_in (S.memory store.now) module_area) }
    ensures none { entry.held ≡ 0 → result ≡ false }
    ensures some { entry.held ≢ 0 → (bytes : List ℕ) → block_bytes entry.held (module_heap_in
        (S.memory store.now) module_area) ≡ Some bytes → result ≡ (word bytes (MESSAGE + MY_REF) == my_ref) }
{
    if entry.held == 0 {
        return false;
    }
    module_area.read_word(store, entry.held, MESSAGE + MY_REF) == my_ref.0
}

/// Frees a block.
pub fn free<S: Pages>(store: &mut S, module_area: Module, block: usize)
    requires module { IsModule (S.memory store.old) module_area }
    requires block { HasBlock block WORD (module_heap_in (S.memory store.old) module_area) }
    ensures { Turns (S.memory store.old) (S.memory store.new) module_area
        (release_block block (module_heap_in (S.memory store.old) module_area)) }
{
    module_area.free(store, block).unwrap();
}

/// Frees the block that a task holds.
pub fn put_down<S: Pages>(
    store: &mut S,
    module_area: Module,
    entries: &mut Table<Entry, MAX_TASKS>,
    at: usize,
)
    requires module { IsModule (S.memory store.old) module_area }
    requires within { at < length entries.old.items }
    requires held { HasBlock (entry_at entries.old.items at).held WORD
        (module_heap_in (S.memory store.old) module_area) }
    ensures entries { entries.new.items ≡ set entries.old.items at (emptied (entry_at entries.old.items at)) }
    ensures len { length entries.new.items ≡ length entries.old.items }
    ensures heap { Turns (S.memory store.old) (S.memory store.new) module_area
        (release_block (entry_at entries.old.items at).held (module_heap_in (S.memory store.old) module_area)) }
{
    let entry = entries[at];
    free(store, module_area, entry.held);
    entries[at] = Entry { held: 0, ..entry };
}
