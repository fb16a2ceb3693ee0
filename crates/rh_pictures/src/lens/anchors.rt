//! The anchors of a slot that a lens shows.

ghost use Rattle.std.specs.Prelude.{◌≡◌, ◌==◌, ◌&&◌, ◌||◌, if◌then◌else◌, None, Some, is_some, not};
ghost use Rattle.rh_defs.specs.Desk.{Desk, Task};
ghost use Rattle.rh_defs.specs.Questions.{block_items};
ghost use Rattle.rh_lens.specs.Anchors.{is_same_address, leads_now, led_before, shown_anchor};
ghost use Rattle.rh_lens.specs.Anchors.{shown_anchors as shown_anchors_in};
ghost use Rattle.rh_scene.specs.Steps.{scene_at};
ghost use Rattle.rh_sheet.specs.Slides.{address_in};

use arrayvec::ArrayVec;
use rh_defs::sizes::ANCHORS;
use rh_defs::{Anchor, BlockItem, Handle};
use rh_lens::ShownAnchor;
use rh_scene::Step;

/// The anchors of a slot that are shown.
pub type ShownAnchors = ArrayVec<ShownAnchor, ANCHORS>;

/// Puts those anchors of a task, which has these blocks, that lead to a block, now or before the command, into a list
/// in place of what it held.
pub fn shown_anchors(
    step: &Step<'_>,
    handle: Handle,
    blocks: &[BlockItem],
    anchors: &mut ShownAnchors,
)
    ensures { (d : Desk) (t : Task) → t.handle ≡ handle → block_items t.slot ≡ blocks.now →
        anchors.new.items ≡ shown_anchors_in (scene_at d step.now) t }
{
    anchors.clear();
    for k in 0..ANCHORS {
        if let Some(anchor) = anchor_if_shown(step, handle, blocks, Anchor(k as u8)) {
            anchors.push(anchor);
        }
    }
}

/// An anchor of a task that has these blocks, if it leads to a block, now or before the command.
fn anchor_if_shown(
    step: &Step<'_>,
    handle: Handle,
    blocks: &[BlockItem],
    anchor: Anchor,
) -> Option<ShownAnchor>
    ensures { (d : Desk) (t : Task) → t.handle ≡ handle → block_items t.slot ≡ blocks.now →
        result ≡ if leads_now t anchor || led_before (scene_at d step.now) t anchor
        then Some (shown_anchor (scene_at d step.now) t anchor) else None }
{
    let held = address_of(blocks, anchor);
    let before = address_before(step, handle, anchor);
    if !is_shown(held, before) {
        return None;
    }
    Some(ShownAnchor {
        number: u32::from(anchor.0),
        held,
        is_moved: is_moved(step, handle, before, held),
    })
}

/// Whether an anchor leads to a block, now or before the command.
fn is_shown(held: Option<u32>, before: Option<u32>) -> bool
    ensures { result ≡ (is_some held || is_some before) }
{
    held.is_some() || before.is_some()
}

/// Whether the command names the task, and gave an anchor of it another address.
fn is_moved(step: &Step<'_>, handle: Handle, before: Option<u32>, held: Option<u32>) -> bool
    ensures { result ≡ (handle == step.now.kept.now.handle && not (is_same_address before held)) }
{
    handle == step.kept.handle() && !is_same(before, held)
}

/// The address of the block at an anchor.
fn address_of(blocks: &[BlockItem], anchor: Anchor) -> Option<u32>
    ensures { result ≡ address_in anchor blocks.now }
{
    for block in blocks {
        if block.anchor == anchor {
            return Some(block.address);
        }
    }
    None
}

/// The address of the block that a task had at an anchor before the command, if the command names the task.
fn address_before(step: &Step<'_>, handle: Handle, anchor: Anchor) -> Option<u32>
    ensures { result ≡ if handle == step.now.kept.now.handle then address_in anchor step.now.kept.now.blocks else None }
{
    if handle != step.kept.handle() {
        return None;
    }
    address_of(step.kept.blocks(), anchor)
}

/// Whether two anchors hold the same address, or none.
fn is_same(a: Option<u32>, b: Option<u32>) -> bool
    ensures { result ≡ is_same_address a b }
{
    match (a, b) {
        (None, None) => true,
        (Some(a), Some(b)) => a == b,
        _ => false,
    }
}
