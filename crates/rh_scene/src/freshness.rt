//! What a command has changed, block by block.

ghost use Rattle.std.specs.Prelude.{◌≡◌, ◌+◌, ◌==◌, ◌&&◌, length, nat_le, nat_lt};
ghost use Rattle.std.specs.Option.{option_map};
ghost use Rattle.rh_defs.specs.Desk.{Desk, Task};
ghost use Rattle.rh_figure.specs.Figure.{is_drawn as is_drawn_in, is_put_in as is_put_in_slot};
ghost use Rattle.rh_figure.specs.Figure.{is_recipient as is_recipient_of};
ghost use Rattle.rh_figure.specs.Layout.{had_block as had_block_of, is_fresh_block as is_fresh_block_in};
ghost use Rattle.rh_figure.specs.Layout.{is_fresh_flex as is_fresh_flex_in, is_put as is_put_of};
ghost use Rattle.rh_figure.specs.Layout.{vacates};
ghost use Rattle.rh_scene.specs.Seen.{handle_for, letter_seen};
ghost use Rattle.rh_scene.specs.Steps.{scene_at};

use crate::marks::Marks;
use crate::sight::HeapOf;
use crate::step::Step;
use rh_defs::{Anchor, BlockItem, Handle, Ref};
use rh_figure::HeapEffect;
use rh_figure::limits::MOST_SLOTS;

/// Whether the command has changed the flex block of a task: wrote to it, or is about the task, and none of that anchor
/// and size was there before.
pub fn is_fresh_flex(step: &Step<'_>, handle: Handle, anchor: Anchor, size: u32) -> bool
    ensures { (d : Desk) → result ≡ is_fresh_flex_in (scene_at d step.now) handle anchor size }
{
    is_put(step.marks.put, handle, anchor)
        || handle == step.marks.handle && !had_block(step.kept.blocks(), anchor, size)
}

/// Whether the flex block of a task is the one that was written to.
fn is_put(put: Option<(Handle, Anchor)>, handle: Handle, anchor: Anchor) -> bool
    ensures { result ≡ is_put_of handle anchor put }
{
    match put {
        Some((owner, written)) => owner == handle && written == anchor,
        None => false,
    }
}

/// Whether a block of that anchor and size was there.
fn had_block(before: &[BlockItem], anchor: Anchor, size: u32) -> bool
    ensures { result ≡ had_block_of anchor size before.now }
{
    before
        .iter()
        .any(|block| block.anchor == anchor && block.size == size)
}

/// Whether the command made or changed the block of a task's C heap.
pub fn is_fresh_block(step: &Step<'_>, handle: Handle, address: u32) -> bool
    ensures { (d : Desk) → result ≡ is_fresh_block_in (scene_at d step.now) handle address }
{
    step.marks.heap.handle == handle && step.marks.heap.address == address
}

/// Whether the block that the command released, or moved away, lay among so many bytes at an address of a heap, that of
/// the task with the handle or of the module area.
pub fn is_vacated(step: &Step<'_>, heap: HeapOf, handle: Handle, address: u32, size: u32) -> bool
    ensures { (d : Desk) → result
        ≡ vacates (handle_for heap handle) address size (scene_at d step.now).marks.heap_effect }
{
    match step.marks.heap_effect {
        HeapEffect::Released {
            handle: owner,
            address: at,
        }
        | HeapEffect::Resized {
            handle: owner,
            from: at,
            ..
        } => { owner == handle_of(heap, handle) && lies_among(at, address, size) }
        _ => false,
    }
}

/// The handle by which the effect on a heap is told.
fn handle_of(heap: HeapOf, handle: Handle) -> Handle
    ensures { result ≡ handle_for heap handle }
{
    match heap {
        HeapOf::Task(_) => handle,
        HeapOf::Module => Handle(0),
    }
}

/// Whether an address is one of so many bytes from another on.
fn lies_among(at: u32, address: u32, size: u32) -> bool
    ensures { result ≡ (nat_le address at && nat_lt at (address + size)) }
{
    address <= at && u64::from(at) < u64::from(address) + u64::from(size)
}

/// Whether the message with the ref was sent by the command.
pub fn is_new_ref(step: &Step<'_>, my_ref: Ref) -> bool
    ensures { result ≡ (my_ref == step.now.kept.now.next_ref) }
{
    u64::from(my_ref.0) == step.kept.next_ref()
}

/// Whether the slot of a task is drawn, where so many tasks are live: all slots of few tasks are, and of many those
/// that the command is about.
pub fn is_drawn(step: &Step<'_>, tasks: usize, handle: Handle) -> bool
    ensures { (d : Desk) (t : Task) → tasks ≡ length d.tasks → handle ≡ t.handle → result
        ≡ is_drawn_in (scene_at d step.now) t }
{
    tasks <= MOST_SLOTS
        || handle == step.marks.handle
        || handle == step.marks.heap.handle
        || is_put_in(step.marks.put, handle)
        || is_recipient(&step.marks, handle)
}

/// Whether the flex block that was written to is the task's.
fn is_put_in(put: Option<(Handle, Anchor)>, handle: Handle) -> bool
    ensures { result ≡ is_put_in_slot handle put }
{
    match put {
        Some((owner, _)) => owner == handle,
        None => false,
    }
}

/// Whether the letter that the command sent is for the task.
fn is_recipient(marks: &Marks<'_>, handle: Handle) -> bool
    ensures { result ≡ is_recipient_of handle (option_map letter_seen marks.now.sent) }
{
    match marks.sent {
        Some((letter, _)) => letter.to == handle,
        None => false,
    }
}
