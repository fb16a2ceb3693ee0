//! The area's length, which its heap fills.
ghost use Rattle.std.specs.Prelude.{◌≡◌, ◌^◌, ◌<◌, ◌≤◌, length, OnOk, OnErr, IfErr};
ghost use Rattle.rh_defs.specs.Memory.{IsOpen, OnlyArea, bytes};
ghost use Rattle.rh_defs.specs.Heap.{base, empty_heap, free_bytes, largest};
ghost use Rattle.rh_defs.specs.Module.{module_change};
ghost use Rattle.rh_module.specs.ModuleArea.{IsModule, SpellsModuleIn, module_heap_in};
ghost use Rattle.rh_module.specs.ModuleCalls.{LeavesModule};
ghost use Rattle.rh_module.specs.Inner.Lengths.{longer, shorter};

use crate::module::Module;
use rh_defs::Refusal;
use rh_defs::sizes::{PAGE, pages_for};
use rh_heap::{extend_heap, init};
use rh_store::{AreaId, Pages, Words};

impl Module {
    /// Makes an area of at least one page an empty heap as long as the area.
    pub fn start<S: Pages>(store: &mut S, area: AreaId) -> Module
        requires opened { IsOpen (S.memory store.old) area.0 }
        requires page { PAGE ≤ length (bytes (S.memory store.old) area.0) }
        ensures area { result.area ≡ area }
        ensures heap { module_heap_in (S.memory store.new) result ≡ empty_heap
            (length (bytes (S.memory store.old) area.0)) }
        ensures spells { SpellsModuleIn (S.memory store.new) result
            (empty_heap (length (bytes (S.memory store.old) area.0))) }
        ensures still { IsModule (S.memory store.new) result }
        ensures only { OnlyArea (S.memory store.old) (S.memory store.new) area.0 }
    {
        let module = Module { area };
        let end = store.len(area);
        init(store, module.span(), end);
        module
    }

    /// Makes the area longer or shorter by an amount of bytes whose magnitude is rounded up to whole pages, and answers
    /// the bytes moved. Refused, and nothing changed: `ExcessiveShrink` where the heap's base would lie above the end,
    /// `NoRoom` where too few pages are free. (OS_ChangeDynamicArea.)
    pub fn change<S: Pages>(self, store: &mut S, delta: i32) -> Result<usize, Refusal>
        requires { IsModule (S.memory store.old) self }
        ensures { LeavesModule (S.memory store.old) (S.memory store.new) self
            (module_change (S.memory store.old).free delta (module_heap_in (S.memory store.old) self)) result }
    {
        let pages = pages_for(delta.unsigned_abs() as usize);
        if delta < 0 {
            self.shorten(store, pages)?;
        } else {
            self.lengthen(store, pages)?;
        }
        Ok(pages * PAGE)
    }

    /// Makes the area and its heap longer by this many pages. Refused (`NoRoom`), and nothing changed, exactly where
    /// fewer are free.
    pub(crate) fn lengthen<S: Pages>(self, store: &mut S, pages: usize) -> Result<(), Refusal>
        requires { IsModule (S.memory store.old) self }
        ensures spells { OnOk result (SpellsModuleIn (S.memory store.new) self
            (longer pages (module_heap_in (S.memory store.old) self))) }
        ensures room { OnOk result (pages ≤ (S.memory store.old).free) }
        ensures refused { OnErr result ((S.memory store.old).free < pages) }
        ensures reason { IfErr result (λ refusal. refusal ≡ Refusal.NoRoom) }
        ensures only { OnlyArea (S.memory store.old) (S.memory store.new) self.area.0 }
        ensures err { OnErr result (S.memory store.new ≡ S.memory store.old) }
    {
        let Ok(()) = store.grow(self.area, pages) else {
            return Err(Refusal::NoRoom);
        };
        extend_heap(store, self.span(), (pages * PAGE) as i32).unwrap();
        Ok(())
    }

    /// Makes the area and its heap shorter by this many pages. Refused (`ExcessiveShrink`), and nothing changed,
    /// exactly where the heap's base would lie above the end.
    fn shorten<S: Pages>(self, store: &mut S, pages: usize) -> Result<(), Refusal>
        requires module { IsModule (S.memory store.old) self }
        requires small { pages ≤ 2 ^ 19 }
        ensures spells { OnOk result (SpellsModuleIn (S.memory store.new) self
            (shorter pages (module_heap_in (S.memory store.old) self))) }
        ensures room { OnOk result (base (module_heap_in (S.memory store.old) self) ≤
            (shorter pages (module_heap_in (S.memory store.old) self)).end) }
        ensures refused { OnErr result ((shorter pages (module_heap_in (S.memory store.old) self)).end < base
            (module_heap_in (S.memory store.old) self)) }
        ensures reason { IfErr result (λ refusal. refusal ≡ Refusal.ExcessiveShrink) }
        ensures only { OnlyArea (S.memory store.old) (S.memory store.new) self.area.0 }
        ensures err { OnErr result (S.memory store.new ≡ S.memory store.old) }
    {
        let delta = -((pages * PAGE) as i64) as i32;
        extend_heap(store, self.span(), delta)?;
        store.shrink(self.area, pages);
        Ok(())
    }

    /// The heap's end in bytes, which is the area's.
    pub fn end<S: Words>(self, store: &S) -> usize
        requires { IsModule (S.memory store.now) self }
        ensures { result ≡ (module_heap_in (S.memory store.now) self).end }
    {
        store.len(self.area)
    }

    /// The bytes of the largest block that a claim would be given without growth, and the bytes of all holes and the
    /// top. (OS_Heap 1.)
    pub fn describe<S: Words>(self, store: &S) -> (usize, usize)
        requires { IsModule (S.memory store.now) self }
        ensures largest { result.0 ≡ largest (module_heap_in (S.memory store.now) self) }
        ensures total { result.1 ≡ free_bytes (module_heap_in (S.memory store.now) self) }
    {
        rh_heap::describe(store, self.span())
    }
}
