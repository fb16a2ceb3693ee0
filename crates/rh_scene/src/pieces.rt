//! The pieces of an area, one after the other.

ghost use Rattle.std.specs.Prelude.{◌≡◌, ◌≤◌, ◌<◌, ◌+◌, ◌-◌, ◌^◌, ◌++◌, ℕ, List, false, length, slice_get, take};
ghost use Rattle.std.specs.Prelude.{IfSome, IsSome, Some};
ghost use Rattle.rh_defs.specs.Pieces.{total};
ghost use Rattle.rh_defs.specs.Heap.{Segment, first_place, place_after};
ghost use Rattle.rh_defs.specs.Desk.{Desk, Task};
ghost use Rattle.rh_defs.specs.Questions.{block_items, segment_item, segment_items_from};
ghost use Rattle.rh_defs.specs.declared.sizes.TheConstants.{MODULE_START};
ghost use Rattle.rh_figure.specs.Layout.{heap_pieces, module_legend, module_pieces as module_pieces_of, segment_piece};
ghost use Rattle.rh_figure.specs.Layout.{segment_pieces, slot_pieces as slot_pieces_of};
ghost use Rattle.rh_figure.specs.declared.piece.Kind.TheVariants.{FreeHole, FreeTop};
ghost use Rattle.rh_figure.specs.declared.limits.TheConstants.{MOST_SEGMENTS};
ghost use Rattle.rh_scene.specs.Seen.{IsTaskSeen, heap_seen, heap_start_of};
ghost use Rattle.rh_scene.specs.Steps.{IsStepOf, scene_at};
ghost use Rattle.rh_scene.specs.Inner.WalkItems.{area_start_of, IsInArea, item_pieces, item_weight, kind_and_freshness};
ghost use Rattle.rh_scene.specs.Inner.WalkItems.{legend_of};
ghost use Rattle.rh_scene.specs.declared.pieces.TheConstants.{MOST_PIECES};

use crate::freshness::{is_fresh_block, is_fresh_flex, is_new_ref, is_vacated};
use crate::message_list::message_in;
use crate::sight::{HeapOf, Sight, TaskSight};
use crate::step::Step;
use crate::walk::{heap_address, place_behind, take_census};
use arrayvec::ArrayVec;
use rh_defs::sizes::{
    ANCHORS, C_HEAP_PLACE, HEAP_FIRST, MODULE_START, PAGE, SEGMENTS_AT_ONCE, SLOT_START, WORD,
    flex_weight,
};
use rh_defs::{BlockItem, Handle, SegmentItem};
use rh_figure::limits::MOST_SEGMENTS;
use rh_figure::{Kind, Piece};

/// A slot has at most so many pieces: anchor words, a heap's descriptor, segments, a piece for more segments, the
/// heap's top, flex blocks, and what is unused.
pub const MOST_PIECES: usize = MOST_SEGMENTS + ANCHORS + 5;

/// The pieces of an area.
pub type Pieces = ArrayVec<Piece, MOST_PIECES>;

/// A heap that is drawn, with the handle of its task; 0 for that of the module area.
#[derive(Clone, Copy)]
struct DrawnHeap {
    heap: HeapOf,
    handle: Handle,
}

/// Puts the pieces of the slot of a task, which has these blocks, into a list in place of what it held.
pub fn slot_pieces<S: Sight>(
    sight: &S,
    step: &Step<'_>,
    i: usize,
    task: &TaskSight<'_>,
    blocks: &[BlockItem],
    pieces: &mut Pieces,
)
    requires step { IsStepOf (S.desk sight.now) step.now }
    requires task { (t : Task) × (slice_get (S.desk sight.now).tasks i ≡ Some t) × IsTaskSeen task.now t
        × (blocks.now ≡ block_items t.slot) }
    ensures { (t : Task) → slice_get (S.desk sight.now).tasks i ≡ Some t →
        pieces.new.items ≡ slot_pieces_of (scene_at (S.desk sight.now) step.now) t.handle t.slot }
{
    sight.recall_desk();
    pieces.clear();
    pieces.push(plain(Kind::AnchorWords, 0, C_HEAP_PLACE));
    let drawn = DrawnHeap {
        heap: HeapOf::Task(i),
        handle: task.handle,
    };
    push_heap(sight, step, &drawn, pieces);
    let end = push_blocks(
        step,
        task.handle,
        blocks,
        C_HEAP_PLACE + task.heap_end as usize,
        pieces,
    );
    let unused = PAGE * task.pages as usize - end;
    pieces.push(plain(Kind::Unused, end, unused));
}

/// Puts the pieces of the module area into a list in place of what it held.
pub fn module_pieces<S: Sight>(sight: &S, step: &Step<'_>, pieces: &mut Pieces)
    requires { IsStepOf (S.desk sight.now) step.now }
    ensures { pieces.new.items ≡ module_pieces_of (scene_at (S.desk sight.now) step.now) }
{
    pieces.clear();
    let drawn = DrawnHeap {
        heap: HeapOf::Module,
        handle: Handle(0),
    };
    push_heap(sight, step, &drawn, pieces);
}

/// A piece that no command changes.
fn plain(kind: Kind, at: usize, size: usize) -> Piece
    ensures { result ≡ record { kind = kind; at = at; size = size; fresh = false } }
{
    Piece {
        kind,
        at,
        size,
        fresh: false,
    }
}

/// Appends flex blocks that lie from an offset on, and answers where the last ends.
fn push_blocks(
    step: &Step<'_>,
    handle: Handle,
    blocks: &[BlockItem],
    at: usize,
    pieces: &mut Pieces,
) -> usize
    requires few { length pieces.old.items + length blocks.now ≤ MOST_PIECES }
    requires small { at + total item_weight blocks.now < 2 ^ 40 }
    ensures pieces { (d : Desk) → pieces.new.items ≡ pieces.old.items
        ++ item_pieces (scene_at d step.now) handle at blocks.now }
    ensures end { result ≡ at + total item_weight blocks.now }
{
    let mut end = at;
    for block in blocks {
        let size = flex_weight(block.size as usize);
        pieces.push(Piece {
            kind: Kind::FlexBlock {
                anchor: u32::from(block.anchor.0),
                size: block.size,
            },
            at: end,
            size,
            fresh: is_fresh_flex(step, handle, block.anchor, block.size),
        });
        end += size;
    }
    end
}

/// Appends the pieces of a heap.
fn push_heap<S: Sight>(sight: &S, step: &Step<'_>, drawn: &DrawnHeap, pieces: &mut Pieces)
    requires step { IsStepOf (S.desk sight.now) step.now }
    requires few { length pieces.old.items + MOST_SEGMENTS + 3 ≤ MOST_PIECES }
    requires heap { IsSome (heap_seen drawn.now.heap (S.desk sight.now)) }
    ensures { IfSome (heap_seen drawn.now.heap (S.desk sight.now)) (λ h. pieces.new.items ≡ pieces.old.items
        ++ heap_pieces (legend_of (scene_at (S.desk sight.now) step.now) drawn.now.heap drawn.now.handle)
        (heap_start_of drawn.now.heap - area_start_of drawn.now.heap) h) }
{
    sight.recall_desk();
    let at = (heap_address(drawn.heap) - area_address(drawn.heap)) as usize;
    pieces.push(plain(Kind::Descriptor, at, HEAP_FIRST));
    let place = push_segments(sight, step, drawn, pieces);
    let others = take_census(sight, drawn.heap, place);
    if others.count > 0 {
        let kind = Kind::MoreSegments {
            count: others.count,
        };
        pieces.push(plain(kind, at + place as usize, (others.end - place) as usize));
    }
    let top = sight.heap_end(drawn.heap) - others.end;
    pieces.push(top_piece(step, drawn, others.end, top));
}

/// What is free above a heap's last segment, which ends so many bytes from the heap's first one.
fn top_piece(step: &Step<'_>, drawn: &DrawnHeap, end: u32, size: u32) -> Piece
    requires { end ≤ 2 ^ 22 }
    ensures { (d : Desk) → result ≡ record {
      kind = FreeTop;
      at = heap_start_of drawn.now.heap - area_start_of drawn.now.heap + end;
      size = size;
      fresh = (legend_of (scene_at d step.now) drawn.now.heap drawn.now.handle).is_vacated
          (heap_start_of drawn.now.heap + end) size;
    } }
{
    let start = heap_address(drawn.heap);
    Piece {
        kind: Kind::FreeTop,
        at: (start - area_address(drawn.heap)) as usize + end as usize,
        size: size as usize,
        fresh: is_vacated_in(step, drawn, start + end, size),
    }
}

/// Appends the segments that are drawn one by one, and answers where the last ends, in bytes from the heap's first
/// one.
fn push_segments<S: Sight>(
    sight: &S,
    step: &Step<'_>,
    drawn: &DrawnHeap,
    pieces: &mut Pieces,
) -> u32
    requires step { IsStepOf (S.desk sight.now) step.now }
    requires few { length pieces.old.items + MOST_SEGMENTS ≤ MOST_PIECES }
    requires heap { IsSome (heap_seen drawn.now.heap (S.desk sight.now)) }
    ensures pieces { IfSome (heap_seen drawn.now.heap (S.desk sight.now)) (λ h. pieces.new.items ≡ pieces.old.items
        ++ segment_pieces (legend_of (scene_at (S.desk sight.now) step.now) drawn.now.heap drawn.now.handle)
        (heap_start_of drawn.now.heap - area_start_of drawn.now.heap + first_place) (take MOST_SEGMENTS h.segments)) }
    ensures place { IfSome (heap_seen drawn.now.heap (S.desk sight.now))
        (λ h. result ≡ place_after (take MOST_SEGMENTS h.segments)) }
{
    sight.recall_desk();
    let mut place = HEAP_FIRST as u32;
    for _turn in 0..MOST_SEGMENTS / SEGMENTS_AT_ONCE {
        let items = sight.segments(drawn.heap, place);
        push_items(step, drawn, &items, pieces);
        if let Some(last) = items.last() {
            place = place_behind(drawn.heap, last);
        }
    }
    place
}

/// Appends segments.
fn push_items(step: &Step<'_>, drawn: &DrawnHeap, items: &[SegmentItem], pieces: &mut Pieces)
    requires few { length pieces.old.items + length items.now ≤ MOST_PIECES }
    requires items { (place : ℕ) × (segments : List Segment)
        × (items.now ≡ segment_items_from (heap_start_of drawn.now.heap + place) segments) }
    ensures { (d : Desk) (place : ℕ) (segments : List Segment) → IsStepOf d step.now → items.now
        ≡ segment_items_from (heap_start_of drawn.now.heap + place) segments →
        pieces.new.items ≡ pieces.old.items ++ segment_pieces (legend_of
        (scene_at d step.now) drawn.now.heap drawn.now.handle)
        (heap_start_of drawn.now.heap - area_start_of drawn.now.heap + place) segments }
{
    for item in items {
        pieces.push(piece_of(step, drawn, item));
    }
}

/// The piece of a segment.
fn piece_of(step: &Step<'_>, drawn: &DrawnHeap, item: &SegmentItem) -> Piece
    requires { IsInArea drawn.now.heap item.now }
    ensures { (d : Desk) (place : ℕ) (segment : Segment) → IsStepOf d step.now → item.now
        ≡ segment_item (heap_start_of drawn.now.heap + place) segment →
        result ≡ segment_piece (legend_of (scene_at d step.now) drawn.now.heap drawn.now.handle)
        (heap_start_of drawn.now.heap - area_start_of drawn.now.heap + place) segment }
{
    let start = area_address(drawn.heap);
    match item {
        SegmentItem::Used { address, size } => {
            let (kind, fresh) = block_kind(step, drawn, *address, *size);
            Piece {
                kind,
                at: (*address - start) as usize - WORD,
                size: WORD + *size as usize,
                fresh,
            }
        }
        SegmentItem::Hole { address, size } => hole_piece(step, drawn, *address, *size),
    }
}

/// The piece of a hole.
fn hole_piece(step: &Step<'_>, drawn: &DrawnHeap, address: u32, size: u32) -> Piece
    requires { area_start_of drawn.now.heap ≤ address }
    ensures { (d : Desk) → result ≡ record {
      kind = FreeHole;
      at = address - area_start_of drawn.now.heap;
      size = size;
      fresh = (legend_of (scene_at d step.now) drawn.now.heap drawn.now.handle).is_vacated address size;
    } }
{
    Piece {
        kind: Kind::FreeHole,
        at: (address - area_address(drawn.heap)) as usize,
        size: size as usize,
        fresh: is_vacated_in(step, drawn, address, size),
    }
}

/// Whether the block that the command released, or moved away, lay among so many bytes at an address of a heap.
fn is_vacated_in(step: &Step<'_>, drawn: &DrawnHeap, address: u32, size: u32) -> bool
    ensures { (d : Desk) → result
        ≡ (legend_of (scene_at d step.now) drawn.now.heap drawn.now.handle).is_vacated address size }
{
    is_vacated(step, drawn.heap, drawn.handle, address, size)
}

/// What the block of a heap at an address is, and whether the command has changed it.
fn block_kind(step: &Step<'_>, drawn: &DrawnHeap, address: u32, size: u32) -> (Kind, bool)
    requires { area_start_of drawn.now.heap ≤ address }
    ensures { (d : Desk) → IsStepOf d step.now →
        result ≡ kind_and_freshness (legend_of (scene_at d step.now) drawn.now.heap drawn.now.handle) address size }
{
    match drawn.heap {
        HeapOf::Task(_) => (
            Kind::Claimed { size },
            is_fresh_block(step, drawn.handle, address),
        ),
        HeapOf::Module => module_kind(step, address, size),
    }
}

/// What the block of the module area at an address is, and whether the command has changed it.
fn module_kind(step: &Step<'_>, address: u32, size: u32) -> (Kind, bool)
    requires { MODULE_START ≤ address }
    ensures { (d : Desk) → IsStepOf d step.now →
        result ≡ kind_and_freshness (module_legend (scene_at d step.now)) address size }
{
    let changed = step.marks.module_block == address;
    match message_in(step.messages, address - MODULE_START as u32) {
        Some(message) => (
            Kind::Posted {
                message: message.my_ref.0,
            },
            changed || is_new_ref(step, message.my_ref),
        ),
        None => (Kind::Claimed { size }, changed),
    }
}

/// The address of the first byte of the area that has a heap.
fn area_address(heap: HeapOf) -> u32
    ensures { result ≡ area_start_of heap }
{
    match heap {
        HeapOf::Task(_) => SLOT_START as u32,
        HeapOf::Module => MODULE_START as u32,
    }
}
