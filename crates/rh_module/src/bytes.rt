//! The bytes of blocks in the module area.
ghost use Rattle.std.specs.Prelude.{◌≡◌, ℕ, ◌+◌, List, Some, length};
ghost use Rattle.rh_defs.specs.Blocks.{HasBlock, block_bytes};
ghost use Rattle.rh_defs.specs.Bytes.{part, word, word_bytes};
ghost use Rattle.rh_module.specs.ModuleArea.{IsModule, module_heap_in};
ghost use Rattle.rh_module.specs.Writes.{Wrote};

use crate::module::Module;
use rh_heap::{keep_map, take_map};
use rh_store::{Words, WordsMut};

impl Module {
    /// The word at an offset of the block at an address.
    pub fn read_word<S: Words>(self, store: &S, address: usize, offset: usize) -> u32
        requires module { IsModule (S.memory store.now) self }
        requires block { HasBlock address (offset + 4) (module_heap_in (S.memory store.now) self) }
        ensures { (bytes : List ℕ) → block_bytes address (module_heap_in (S.memory store.now) self) ≡ Some bytes
            → result ≡ word bytes offset }
    {
        store.word(self.area, address + offset)
    }

    /// Fills a slice with the bytes of the block at an address, from an offset on.
    pub fn read_bytes<S: Words>(self, store: &S, address: usize, offset: usize, to: &mut [u8])
        requires module { IsModule (S.memory store.now) self }
        requires block { HasBlock address (offset + length to.old) (module_heap_in (S.memory store.now) self) }
        ensures { (bytes : List ℕ) → block_bytes address (module_heap_in (S.memory store.now) self) ≡ Some bytes
            → to.new ≡ part bytes offset (length to.old) }
    {
        store.copy_out(self.area, address + offset, to);
    }

    /// Writes a word at an offset of the block at an address.
    pub fn write_word<S: WordsMut>(self, store: &mut S, address: usize, offset: usize, w: u32)
        requires module { IsModule (S.memory store.old) self }
        requires block { HasBlock address (offset + 4) (module_heap_in (S.memory store.old) self) }
        ensures { Wrote (S.memory store.old) (S.memory store.new) self address offset (word_bytes w) }
    {
        let map = take_map(store, self.span());
        store.set_word(self.area, address + offset, w);
        keep_map(store, self.span(), map);
    }

    /// Writes bytes into the block at an address, from an offset on.
    pub fn write_bytes<S: WordsMut>(self, store: &mut S, address: usize, offset: usize, from: &[u8])
        requires module { IsModule (S.memory store.old) self }
        requires block { HasBlock address (offset + length from.now) (module_heap_in (S.memory store.old) self) }
        ensures { Wrote (S.memory store.old) (S.memory store.new) self address offset from.now }
    {
        let map = take_map(store, self.span());
        store.copy_in(self.area, address + offset, from);
        keep_map(store, self.span(), map);
    }
}
