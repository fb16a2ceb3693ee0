//! What has become of a heap and its blocks.

ghost use Rattle.std.specs.Prelude.{◌≡◌, ◌<◌, ◌+◌, ◌^◌, ◌++◌, IfSome, flat_map};
ghost use Rattle.rh_defs.specs.Desk.{task_at};
ghost use Rattle.rh_figure.specs.HeapChanges.{buffer_fetched, buffer_new, buffer_text, claimed_text, grown_text};
ghost use Rattle.rh_figure.specs.HeapChanges.{heap_text, hole_left_text, released_text, resized_text, vacated_text};
ghost use Rattle.rh_figure.specs.HeapSegments.{found_size, item_end, segment_seen as segment_seen_of};
ghost use Rattle.rh_scene.specs.Seen.{letter_seen};
ghost use Rattle.rh_scene.specs.Steps.{scene_at};

use crate::artist::Artist;
use rh_defs::{Action, Body, Handle, Letter, Ref, SegmentItem};
use rh_figure::HeapEffect;
use rh_lines::Pen;
use rh_map::{
    buffer_claimed, heap_block_claimed, heap_block_moved, heap_block_released, heap_block_resized,
    heap_grown, hole_left, top_left,
};
use rh_scene::{Sight, Step, block_size, segment_seen, task_with, top_size};

/// Shows that the C heap of the named task has grown, if it has.
pub fn show_growth<S: Sight, A: Artist, P: Pen>(sight: &S, step: &Step<'_>, artist: &A, pen: &mut P)
    ensures { let x = scene_at (S.desk sight.now) step.now in P.offered pen.new ≡ P.offered pen.old
        ++ flat_map A.change_text (grown_text x (task_at x.before.handle x.desk)) }
{
    let Some(i) = task_with(sight, step.kept.handle()) else {
        return;
    };
    let had = step.kept.heap_end();
    match sight.task(i) {
        Some(task) if had < task.heap_end => {
            artist.change(&heap_grown(task.name, had, task.heap_end), pen);
        }
        _ => {}
    }
}

/// Shows that the named task claimed a buffer for the offer that it took, if it did.
pub fn show_buffer<S: Sight, A: Artist, P: Pen>(sight: &S, step: &Step<'_>, artist: &A, pen: &mut P)
    ensures { let x = scene_at (S.desk sight.now) step.now in P.offered pen.new ≡ P.offered pen.old
        ++ flat_map A.change_text (buffer_text x x.marks.taken x.marks.sent) }
{
    let Some((id, action)) = step.marks.taken else {
        return;
    };
    if let Some((letter, _)) = step.marks.sent {
        show_fetched(sight, step, id, action, letter, artist, pen);
    }
}

/// Shows that a buffer is new, if a letter is a fetch for an offer that was taken.
fn show_fetched<S: Sight, A: Artist, P: Pen>(
    sight: &S,
    step: &Step<'_>,
    id: Ref,
    action: Action,
    letter: &Letter,
    artist: &A,
    pen: &mut P,
)
    ensures { P.offered pen.new ≡ P.offered pen.old ++ flat_map A.change_text (buffer_fetched
        (scene_at (S.desk sight.now) step.now) (id, action) letter.now.from letter.now.body) }
{
    if !matches!(action, Action::DataSave) {
        return;
    }
    if let Body::RamFetch { buffer, .. } = &letter.body {
        show_buffer_new(sight, step, letter.from, *buffer, id, artist, pen);
    }
}

/// Shows that the buffer of a transfer is new.
fn show_buffer_new<S: Sight, A: Artist, P: Pen>(
    sight: &S,
    step: &Step<'_>,
    handle: Handle,
    address: u32,
    id: Ref,
    artist: &A,
    pen: &mut P,
)
    ensures { P.offered pen.new ≡ P.offered pen.old
        ++ flat_map A.change_text (buffer_new (scene_at (S.desk sight.now) step.now) handle address id) }
{
    let (size, next) = size_and_next(sight, handle, address);
    artist.change(&buffer_claimed(address, id, size, next), pen);
}

/// Shows what has become of a block of a heap, and what is where it was.
pub fn show_heap_change<S: Sight, A: Artist, P: Pen>(
    sight: &S,
    step: &Step<'_>,
    artist: &A,
    pen: &mut P,
)
    ensures { let x = scene_at (S.desk sight.now) step.now in
        P.offered pen.new ≡ P.offered pen.old ++ flat_map A.change_text (heap_text x x.marks.heap_effect) }
{
    match step.marks.heap_effect {
        HeapEffect::Nothing => {}
        HeapEffect::Claimed { handle, address } => show_claimed(
            sight, step, handle, address, artist, pen,
        ),
        HeapEffect::Released { handle, address } => show_released(
            sight, step, handle, address, artist, pen,
        ),
        HeapEffect::Resized { handle, from, to } => show_resized(
            sight, step, handle, from, to, artist, pen,
        ),
    }
}

/// Shows that a block was claimed.
fn show_claimed<S: Sight, A: Artist, P: Pen>(
    sight: &S,
    step: &Step<'_>,
    handle: Handle,
    address: u32,
    artist: &A,
    pen: &mut P,
)
    ensures { P.offered pen.new ≡ P.offered pen.old
        ++ flat_map A.change_text (claimed_text (scene_at (S.desk sight.now) step.now) handle address) }
{
    let (size, next) = size_and_next(sight, handle, address);
    artist.change(&heap_block_claimed(handle, address, size, next), pen);
}

/// Shows that a block was released, and what is where it was.
fn show_released<S: Sight, A: Artist, P: Pen>(
    sight: &S,
    step: &Step<'_>,
    handle: Handle,
    address: u32,
    artist: &A,
    pen: &mut P,
)
    ensures { P.offered pen.new ≡ P.offered pen.old
        ++ flat_map A.change_text (released_text (scene_at (S.desk sight.now) step.now) handle address) }
{
    artist.change(&heap_block_released(handle, address, step.kept.size()), pen);
    show_vacated(sight, step, handle, address, artist, pen);
}

/// Shows that a block has another size, or has moved, and what is where it was.
fn show_resized<S: Sight, A: Artist, P: Pen>(
    sight: &S,
    step: &Step<'_>,
    handle: Handle,
    from: u32,
    to: u32,
    artist: &A,
    pen: &mut P,
)
    ensures { P.offered pen.new ≡ P.offered pen.old
        ++ flat_map A.change_text (resized_text (scene_at (S.desk sight.now) step.now) handle from to) }
{
    let (size, next) = size_and_next(sight, handle, to);
    if from == to {
        artist.change(&heap_block_resized(handle, to, step.kept.size(), size), pen);
    } else {
        artist.change(&heap_block_moved(handle, from, to, size, next), pen);
        show_vacated(sight, step, handle, from, artist, pen);
    }
}

/// Shows what is where a block was.
fn show_vacated<S: Sight, A: Artist, P: Pen>(
    sight: &S,
    step: &Step<'_>,
    handle: Handle,
    address: u32,
    artist: &A,
    pen: &mut P,
)
    ensures { P.offered pen.new ≡ P.offered pen.old
        ++ flat_map A.change_text (vacated_text (scene_at (S.desk sight.now) step.now) handle address) }
{
    let had = step.kept.size();
    match segment_seen(sight, handle, address) {
        None => artist.change(&top_left(top_size(sight, handle)), pen),
        Some(SegmentItem::Hole { size, .. }) => artist.change(&hole_left(had, size), pen),
        Some(SegmentItem::Used { .. }) => {}
    }
}

/// The size of the block of a heap at an address, and the segment behind it.
fn size_and_next<S: Sight>(sight: &S, handle: Handle, address: u32) -> (u32, Option<SegmentItem>)
    ensures size { result.0 ≡ found_size (segment_seen_of handle address (S.desk sight.now)) }
    ensures next { result.1 ≡ segment_seen_of handle (address + result.0) (S.desk sight.now) }
    ensures small { result.0 < 2 ^ 25 }
    ensures near { IfSome result.1 (λ i. item_end i < 2 ^ 25) }
{
    let size = block_size(segment_seen(sight, handle, address));
    (size, segment_seen(sight, handle, address + size))
}
