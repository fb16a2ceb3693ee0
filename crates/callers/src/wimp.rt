//! A message from one task to another.
ghost use Rattle.std.specs.Prelude.{◌≡◌, [], ◌∷◌, Some, IfOk, OnErr};
ghost use Rattle.rh_defs.specs.Chain.{outcome_of, refuse_if};
ghost use Rattle.rh_defs.specs.Heap.{need};
ghost use Rattle.rh_defs.specs.Memory.{Memory, OnlyArea};
ghost use Rattle.rh_defs.specs.Pieces.{lacks_pages};
ghost use Rattle.rh_defs.specs.declared.message.Body.TheVariants.{RamFetch};
ghost use Rattle.rh_defs.specs.declared.message.EventCode.TheVariants.{User};
ghost use Rattle.rh_module.specs.ModuleArea.{IsModule, module_heap_in};
ghost use Rattle.rh_module.specs.declared.module.Module.{Module};
ghost use Rattle.rh_wimp.specs.QueueCalls.{IsQueue, handles_of};
ghost use Rattle.rh_wimp.specs.Chains.{SpellsPostIn};
ghost use Rattle.callers.specs.Wimp.{post_asked, fetch_size, two_idle};

use rh_defs::{Body, Event, EventCode, Handle, Letter, Ref, Refusal};
use rh_module::Module;
use rh_store::Pages;
use rh_wimp::Queue;

/// A queue with tasks 1 and 2, and no message.
pub fn two_tasks() -> Queue
    ensures queue { (m : Memory) (module_area : Module) → IsModule m module_area → IsQueue m module_area result }
    ensures handles { handles_of result ≡ 1 ∷ 2 ∷ [] }
    ensures idle { (m : Memory) (module_area : Module) → IsModule m module_area
        → SpellsPostIn m module_area result (two_idle (module_heap_in m module_area)) }
{
    let mut queue = Queue::new();
    queue.join(Handle(1));
    queue.join(Handle(2));
    queue
}

/// Task 1 asks task 2 for bytes, in a message that wants no answer, and task 2 polls. Refused (`NoRoom`), and nothing
/// changed, where the module area has no room for it and too few pages are free. (Message_RAMFetch, Wimp_Poll.)
pub fn ask_for_bytes<S: Pages>(
    store: &mut S,
    module_area: Module,
    queue: &mut Queue,
    buffer: u32,
    length: u32,
) -> Result<Option<Event>, Refusal>
    requires queue { IsQueue (S.memory store.old) module_area queue.old }
    requires handles { handles_of queue.old ≡ 1 ∷ 2 ∷ [] }
    requires idle { SpellsPostIn (S.memory store.old) module_area queue.old
        (two_idle (module_heap_in (S.memory store.old) module_area)) }
    ensures answer { outcome_of result ≡ refuse_if
        (lacks_pages (S.memory store.old).free (need fetch_size
        (module_heap_in (S.memory store.old) module_area))) Refusal.NoRoom }
    ensures queue { IsQueue (S.memory store.new) module_area queue.new }
    ensures handles { handles_of queue.new ≡ 1 ∷ 2 ∷ [] }
    ensures event { IfOk result (λ event. event ≡ Some (record {
      code = User;
      message = record { from = 1; my_ref = 1; your_ref = 0; body = RamFetch buffer length };
    })) }
    ensures post { IfOk result (λ event. SpellsPostIn (S.memory store.new) module_area queue.new
        (post_asked (S.memory store.old).free buffer length (module_heap_in (S.memory store.old) module_area))) }
    ensures only { OnlyArea (S.memory store.old) (S.memory store.new) module_area.area.0 }
    ensures err { OnErr result ((S.memory store.new ≡ S.memory store.old) × (queue.new ≡ queue.old)) }
{
    let letter = Letter {
        code: EventCode::User,
        from: Handle(1),
        to: Handle(2),
        your_ref: Ref(0),
        body: Body::RamFetch { buffer, length },
    };
    queue.send(store, module_area, letter)?;
    Ok(queue.poll(store, module_area, Handle(2)))
}
