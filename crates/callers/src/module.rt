//! A block of the module area.
ghost use Rattle.std.specs.Prelude.{◌≡◌, ◌^◌, ◌<◌, ℕ, List, Some, length, replicate, IfOk, OnErr};
ghost use Rattle.rh_defs.specs.Blocks.{Frees, HasBlock, PutsBlock, block_bytes, poked};
ghost use Rattle.rh_defs.specs.Bytes.{part, with_part};
ghost use Rattle.rh_defs.specs.Chain.{answer_of, left_of};
ghost use Rattle.rh_defs.specs.Heap.{block_room, release_block};
ghost use Rattle.rh_defs.specs.Memory.{OnlyArea};
ghost use Rattle.rh_defs.specs.Module.{module_claim};
ghost use Rattle.rh_module.specs.ModuleArea.{IsModule, module_heap_in};

use rh_defs::Refusal;
use rh_module::Module;
use rh_store::Pages;

/// Claims a block and writes bytes into it; the block's bytes behind them are 0. Answers its address. Refused, and
/// nothing changed, as the claim is: `BadSize` for no bytes, `NoRoom`. (OS_Module 6.)
pub fn keep_bytes<S: Pages>(
    store: &mut S,
    module_area: Module,
    bytes: &[u8],
) -> Result<usize, Refusal>
    requires module { IsModule (S.memory store.old) module_area }
    requires fits { length bytes.now < 2 ^ 32 }
    ensures module { IsModule (S.memory store.new) module_area }
    ensures answer { result ≡ answer_of
        (module_claim (S.memory store.old).free (length bytes.now) (module_heap_in (S.memory store.old) module_area)) }
    ensures heap { IfOk result (λ address. module_heap_in (S.memory store.new) module_area ≡ poked address 0 bytes.now
        (left_of (module_heap_in (S.memory store.old) module_area)
        (module_claim (S.memory store.old).free (length bytes.now)
        (module_heap_in (S.memory store.old) module_area)))) }
    ensures kept { IfOk result (PutsBlock (with_part (replicate (block_room (length bytes.now)) 0) 0 bytes.now)
        (module_heap_in (S.memory store.old) module_area) (module_heap_in (S.memory store.new) module_area)) }
    ensures block { IfOk result (λ address. HasBlock address (length bytes.now)
        (module_heap_in (S.memory store.new) module_area)) }
    ensures only { OnlyArea (S.memory store.old) (S.memory store.new) module_area.area.0 }
    ensures err { OnErr result (S.memory store.new ≡ S.memory store.old) }
{
    let address = module_area.claim(store, bytes.len() as u32)?;
    module_area.write_bytes(store, address, 0, bytes);
    Ok(address)
}

/// Reads the first bytes of a block, and frees it. (OS_Module 7.)
pub fn give_bytes<S: Pages>(store: &mut S, module_area: Module, address: usize, to: &mut [u8])
    requires module { IsModule (S.memory store.old) module_area }
    requires block { HasBlock address (length to.old) (module_heap_in (S.memory store.old) module_area) }
    ensures module { IsModule (S.memory store.new) module_area }
    ensures read { (bytes : List ℕ) → block_bytes address (module_heap_in (S.memory store.old) module_area) ≡ Some bytes
        → to.new ≡ part bytes 0 (length to.old) }
    ensures heap { module_heap_in (S.memory store.new) module_area ≡ release_block address
        (module_heap_in (S.memory store.old) module_area) }
    ensures freed { Frees address (module_heap_in (S.memory store.old) module_area)
        (module_heap_in (S.memory store.new) module_area) }
    ensures only { OnlyArea (S.memory store.old) (S.memory store.new) module_area.area.0 }
{
    module_area.read_bytes(store, address, 0, to);
    module_area.free(store, address).unwrap();
}
