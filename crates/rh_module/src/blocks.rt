//! Blocks in the module area, which grows where its heap is too short.
ghost use Rattle.std.specs.Prelude.{◌≡◌, is_some, ok_or};
ghost use Rattle.std.specs.Option.{option_map};
ghost use Rattle.rh_defs.specs.Chain.{no_answer};
ghost use Rattle.rh_defs.specs.Heap.{block_around, block_size, segment_at};
ghost use Rattle.rh_defs.specs.Module.{module_claim, module_free, module_resize, module_need_pages};
ghost use Rattle.rh_heap.specs.Listed.{segments_from};
ghost use Rattle.rh_heap.specs.Segments.{piece};
ghost use Rattle.rh_module.specs.ModuleArea.{IsModule, module_heap_in};
ghost use Rattle.rh_module.specs.ModuleCalls.{LeavesModule};

use crate::module::Module;
use arrayvec::ArrayVec;
use rh_defs::Refusal;
use rh_defs::sizes::{SEGMENTS_AT_ONCE, pages_for};
use rh_heap::{Segment, claim, need, release, resize, resize_need};
use rh_store::{Pages, Words};

impl Module {
    /// Claims a block where the heap as it is refused one: it is too short and grows first, or refuses again.
    fn claim_growing<S: Pages>(self, store: &mut S, n: u32) -> Result<usize, Refusal>
        requires { IsModule (S.memory store.old) self }
        ensures { LeavesModule (S.memory store.old) (S.memory store.new) self
            (module_claim (S.memory store.old).free n (module_heap_in (S.memory store.old) self)) result }
    {
        let span = self.span();
        let shortage = need(store, span, n)?;
        self.lengthen(store, pages_for(shortage))?;
        // The heap has room now.
        Ok(claim(store, span, n).unwrap())
    }

    /// Claims a block of `n` bytes at least, all 0, and answers its address. The area grows where the heap is too
    /// short. Refused, and nothing changed: `BadSize` for 0 bytes, `NoRoom` where too few pages are free. (OS_Module
    /// 6.)
    pub fn claim<S: Pages>(self, store: &mut S, n: u32) -> Result<usize, Refusal>
        requires { IsModule (S.memory store.old) self }
        ensures { LeavesModule (S.memory store.old) (S.memory store.new) self
            (module_claim (S.memory store.old).free n (module_heap_in (S.memory store.old) self)) result }
    {
        match claim(store, self.span(), n) {
            Ok(address) => Ok(address),
            Err(_) => self.claim_growing(store, n),
        }
    }

    /// Frees the block at an address. Refused (`NotABlock`), and nothing changed, exactly where no block begins there.
    /// (OS_Module 7.)
    pub fn free<S: Pages>(self, store: &mut S, address: usize) -> Result<(), Refusal>
        requires { IsModule (S.memory store.old) self }
        ensures { LeavesModule (S.memory store.old) (S.memory store.new) self
            (no_answer (module_free address (module_heap_in (S.memory store.old) self))) result }
    {
        release(store, self.span(), address)?;
        Ok(())
    }

    /// Changes a block's size where the heap as it is refused it: it is too short and grows first, or refuses again.
    fn resize_growing<S: Pages>(
        self,
        store: &mut S,
        address: usize,
        delta: i32,
    ) -> Result<usize, Refusal>
        requires { IsModule (S.memory store.old) self }
        ensures { LeavesModule (S.memory store.old) (S.memory store.new) self
            (module_resize (S.memory store.old).free address delta (module_heap_in (S.memory store.old) self)) result }
    {
        let span = self.span();
        let shortage = resize_need(store, span, address, delta)?;
        self.lengthen(store, pages_for(shortage))?;
        // The heap has room now.
        Ok(resize(store, span, address, delta).unwrap())
    }

    /// Gives the block at an address `delta` bytes more, or fewer where `delta` is negative, and answers its address,
    /// which may be another. Bytes past the old ones are 0, and the area grows where the heap is too short. Refused,
    /// and nothing changed: `NotABlock`, `BadSize` where fewer than 1 byte would be left, `NoRoom`. (OS_Module 13.)
    pub fn resize<S: Pages>(
        self,
        store: &mut S,
        address: usize,
        delta: i32,
    ) -> Result<usize, Refusal>
        requires { IsModule (S.memory store.old) self }
        ensures { LeavesModule (S.memory store.old) (S.memory store.new) self
            (module_resize (S.memory store.old).free address delta (module_heap_in (S.memory store.old) self)) result }
    {
        match resize(store, self.span(), address, delta) {
            Ok(address) => Ok(address),
            Err(_) => self.resize_growing(store, address, delta),
        }
    }

    /// The pages that a claim of `n` bytes would take. Refused (`BadSize`) for 0 bytes.
    pub fn need_pages<S: Words>(self, store: &S, n: u32) -> Result<usize, Refusal>
        requires { IsModule (S.memory store.now) self }
        ensures { result ≡ module_need_pages n (module_heap_in (S.memory store.now) self) }
    {
        let shortage = need(store, self.span(), n)?;
        Ok(pages_for(shortage))
    }

    /// The bytes of the block at an address. Refused (`NotABlock`) exactly where no block begins there. (OS_Heap 6.)
    pub fn block_size<S: Words>(self, store: &S, address: usize) -> Result<usize, Refusal>
        requires { IsModule (S.memory store.now) self }
        ensures { result ≡ ok_or (block_size address (module_heap_in (S.memory store.now) self)) Refusal.NotABlock }
    {
        let size = rh_heap::block_size(store, self.span(), address)?;
        Ok(size)
    }

    /// The segment that begins at a place, in bytes from the area's first one.
    pub fn segment<S: Words>(self, store: &S, place: usize) -> Option<Segment>
        requires { IsModule (S.memory store.now) self }
        ensures { result ≡ option_map piece (segment_at place (module_heap_in (S.memory store.now) self)) }
    {
        rh_heap::segment(store, self.span(), place)
    }

    /// Up to 64 segments in order of place, from the one that begins at `place` on; none where none begins there.
    pub fn segments_from<S: Words>(
        self,
        store: &S,
        place: usize,
    ) -> ArrayVec<Segment, SEGMENTS_AT_ONCE>
        requires { IsModule (S.memory store.now) self }
        ensures { result.items ≡ segments_from place (module_heap_in (S.memory store.now) self) }
    {
        let mut segments = ArrayVec::new();
        rh_heap::segments_from(store, self.span(), place, &mut segments);
        segments
    }

    /// Whether the `n` bytes at an address lie whole in one block, also where `n` is 0. Any address and any `n` may be
    /// asked for.
    pub fn holds<S: Words>(self, store: &S, address: usize, n: usize) -> bool
        requires { IsModule (S.memory store.now) self }
        ensures { result ≡ is_some (block_around address n (module_heap_in (S.memory store.now) self)) }
    {
        rh_heap::holds(store, self.span(), address, n)
    }
}
