//! What is read of a named task's slot, where a name that no task has stands for a slot with nothing in it.

ghost use Rattle.std.specs.Prelude.{◌≡◌, ◌+◌, ◌≤◌, ◌<◌, ◌^◌, Ok, Err, IfOk, IfErr, length, take, drop};
ghost use Rattle.rh_defs.specs.Slot.{anchor_count};
ghost use Rattle.rh_defs.specs.Heap.{IsHeap};
ghost use Rattle.rh_tasks.specs.WorldLists.{segment_items_at};
ghost use Rattle.rh_defs.specs.Questions.{Bytes, show};
ghost use Rattle.rh_defs.specs.declared.question.Numbers.TheVariants as Numbers;
ghost use Rattle.rh_script.specs.NamedSlots.{AreHeld, bytes_named_at, bytes_of_named, heap_of_named};

use arrayvec::ArrayVec;
use rh_defs::sizes::SEGMENTS_AT_ONCE;
use rh_defs::{Anchor, Name, Refusal, SegmentItem};
use rh_store::Store;
use rh_tasks::{NamedFiles, World};

/// Puts up to 64 segments of the task's C heap into a list, in place of what it held: in order of place, from the one
/// that begins at a place on, in bytes from the heap's first one.
pub fn segments_of<S: Store, F: NamedFiles>(
    world: &World<S, F>,
    name: &Name,
    place: u32,
    items: &mut ArrayVec<SegmentItem, SEGMENTS_AT_ONCE>,
)
    ensures items { items.new.items ≡ segment_items_at place (heap_of_named name.now world.now.desk) }
    ensures heap { IsHeap (heap_of_named name.now world.now.desk) }
    ensures short { (heap_of_named name.now world.now.desk).end < 2 ^ 23 }
{
    world.recall_spelling();
    match world.segments_of(name, place, items) {
        Ok(()) => {}
        Err(_) => items.clear(),
    }
}

/// The size in bytes of the task's block at the anchor; NoName, NoBlock.
pub fn size_of_block<S: Store, F: NamedFiles>(
    world: &World<S, F>,
    name: &Name,
    anchor: Anchor,
) -> Result<u32, Refusal>
    ensures shown { IfOk result (λ size. show world.now.desk name.now anchor ≡ Ok
        (Numbers.Shown size, Bytes (bytes_of_named name.now anchor world.now.desk))) }
    ensures size { IfOk result (λ size. size ≡ length (bytes_of_named name.now anchor world.now.desk)) }
    ensures anchor { IfOk result (λ size. anchor < anchor_count) }
    ensures refused { IfErr result (λ refusal. show world.now.desk name.now anchor ≡ Err refusal) }
{
    world.recall_spelling();
    if !anchor.is_valid() {
        return match world.status(name) {
            Ok(_) => Err(Refusal::NoBlock),
            Err(refusal) => Err(refusal),
        };
    }
    world.show(name, anchor, 0, &mut [])
}

/// Reads a part of that block's bytes, from an offset on.
pub fn read_block<S: Store, F: NamedFiles>(
    world: &World<S, F>,
    name: &Name,
    anchor: Anchor,
    offset: u32,
    to: &mut [u8],
)
    requires anchor { anchor < anchor_count }
    requires within { offset + length to.old ≤ length (bytes_of_named name.now anchor world.now.desk) }
    ensures { to.new ≡ take (length to.old) (drop offset (bytes_of_named name.now anchor world.now.desk)) }
{
    // Refused only where the task has no such block, and no byte is wanted.
    let _size = world.show(name, anchor, offset, to);
}

/// Reads all of that block's bytes.
pub fn read_whole<S: Store, F: NamedFiles>(
    world: &World<S, F>,
    name: &Name,
    anchor: Anchor,
    to: &mut [u8],
)
    requires anchor { anchor < anchor_count }
    requires whole { length to.old ≡ length (bytes_of_named name.now anchor world.now.desk) }
    ensures { to.new ≡ bytes_of_named name.now anchor world.now.desk }
{
    read_block(world, name, anchor, 0, to);
}

/// Reads a part of the bytes at an address of the task's slot, from an offset on.
pub fn read_held<S: Store, F: NamedFiles>(
    world: &World<S, F>,
    name: &Name,
    address: u32,
    size: u32,
    offset: u32,
    to: &mut [u8],
)
    requires held { AreHeld name.now address size world.now.desk }
    requires within { offset + length to.old ≤ size }
    ensures { to.new ≡ take (length to.old) (drop offset (bytes_named_at name.now address size world.now.desk)) }
{
    // Never refused: the bytes are held.
    let _read = world.read_part(name, address, size, offset, to);
}
