//! The lens of a task's slot.

ghost use Rattle.std.specs.Prelude.{◌≡◌, ◌++◌, Some, slice_get};
ghost use Rattle.rh_defs.specs.Desk.{Task};
ghost use Rattle.rh_figure.specs.declared.piece.Kind.TheVariants.{Claimed, FlexBlock};
ghost use Rattle.rh_lens.specs.Lens.{slot_lens};
ghost use Rattle.rh_lens.specs.Items.{bare};
ghost use Rattle.rh_lens.specs.ToldInside.{IsTold};
ghost use Rattle.rh_pictures.specs.LensContents.{IsSlotPiece, slot_item_in};
ghost use Rattle.rh_pictures.specs.LensSizes.{IsLensSize};
ghost use Rattle.rh_scene.specs.Seen.{IsTaskSeen};
ghost use Rattle.rh_scene.specs.Steps.{IsStepOf, scene_at};

use crate::lens::anchors::{ShownAnchors, shown_anchors};
use crate::lens::fronts::{read_claimed, read_flex, tell_nothing};
use crate::lens::size::LensSize;
use crate::lists::Lists;
use crate::walks::usage::{use_of_block, use_of_buffer};
use arrayvec::ArrayVec;
use rh_defs::sizes::{C_HEAP_PLACE, FLEX_HEADER, SLOT_START, WORD};
use rh_defs::{Anchor, BlockItem};
use rh_elements::Tint;
use rh_figure::{Kind, Piece};
use rh_lens::{Contents, Inside, SlotView, print_slot_lens};
use rh_lines::Pen;
use rh_scene::{HeapOf, PagesOf, Sight, Step, TaskSight, pages_of, slot_pieces};

/// What tells of the pieces of a task's slot: the task's place in order of handle, and what is seen of it.
#[derive(Drop)]
struct SlotContents<'a, S> {
    sight: &'a S,
    i: usize,
    task: &'a TaskSight<'a>,
}

impl<S: Sight> Contents for SlotContents<'_, S> {
    ghost use Rattle.std.specs.Prelude.{slice_get};
    ghost use Rattle.rh_pictures.specs.LensContents.{IsSlotPiece, slot_item_in};

    ghost item = { λ c p. slot_item_in (slice_get (S.desk c.sight.now).tasks c.i) p };

    ghost has_piece = { λ c p. IsSlotPiece (S.desk c.sight.now) c.i c.task.now p };

    fn recall_items(&self) {}

    fn tell(&self, piece: &Piece, inside: &mut Inside) {
        tell_nothing(inside);
        match piece.kind {
            Kind::FlexBlock { anchor, size } => self.tell_flex(piece, anchor, size, inside),
            Kind::Claimed { size } => self.tell_block(piece, size, inside),
            _ => {}
        }
    }
}

impl<S: Sight> SlotContents<'_, S> {
    /// Tells of a flex block.
    fn tell_flex(&self, piece: &Piece, anchor: u32, size: u32, inside: &mut Inside)
        requires piece { IsSlotPiece (S.desk self.now.sight.now) self.now.i self.now.task.now piece.now }
        requires kind { piece.now.kind ≡ FlexBlock anchor size }
        requires nothing { IsTold inside.old piece.now (bare piece.now) }
        ensures { IsTold inside.new piece.now
            (slot_item_in (slice_get (S.desk self.now.sight.now).tasks self.now.i) piece.now) }
    {
        self.sight.recall_desk();
        let block = BlockItem {
            anchor: Anchor(anchor as u8),
            address: (SLOT_START + piece.at + FLEX_HEADER) as u32,
            size,
        };
        read_flex(self.sight, self.i, &block, &mut inside.bytes);
        inside.usage = use_of_block(self.task.sending, self.task.taking, block.anchor);
    }

    /// Tells of a block of the C heap.
    fn tell_block(&self, piece: &Piece, size: u32, inside: &mut Inside)
        requires piece { IsSlotPiece (S.desk self.now.sight.now) self.now.i self.now.task.now piece.now }
        requires kind { piece.now.kind ≡ Claimed size }
        requires nothing { IsTold inside.old piece.now (bare piece.now) }
        ensures { IsTold inside.new piece.now
            (slot_item_in (slice_get (S.desk self.now.sight.now).tasks self.now.i) piece.now) }
    {
        self.sight.recall_desk();
        let place = (piece.at - C_HEAP_PLACE) as u32;
        let heap = HeapOf::Task(self.i);
        read_claimed(self.sight, heap, place, size, &mut inside.bytes);
        let address = (SLOT_START + piece.at + WORD) as u32;
        inside.usage = use_of_buffer(self.task.taking, address);
    }
}

/// Writes the lens of the slot of a task.
pub fn print_lens_of_slot<S: Sight, P: Pen>(
    sight: &S,
    step: &Step<'_>,
    i: usize,
    task: &TaskSight<'_>,
    size: LensSize,
    lists: &mut Lists,
    pen: &mut P,
)
    requires step { IsStepOf (S.desk sight.now) step.now }
    requires task { (t : Task) × (slice_get (S.desk sight.now).tasks i ≡ Some t) × IsTaskSeen task.now t }
    requires size { IsLensSize size }
    ensures { (t : Task) → slice_get (S.desk sight.now).tasks i ≡ Some t → P.offered pen.new ≡ P.offered pen.old
        ++ slot_lens (scene_at (S.desk sight.now) step.now) t size.width size.scale }
{
    sight.recall_desk();
    sight.blocks(i, &mut lists.blocks);
    slot_pieces(sight, step, i, task, &lists.blocks, &mut lists.pieces);
    let mut anchors: ShownAnchors = ArrayVec::new();
    shown_anchors(step, task.handle, &lists.blocks, &mut anchors);
    let pieces = lists.pieces.as_slice();
    let above = pieces.len() - lists.blocks.len() - 1;
    let view = SlotView {
        name: task.name.as_bytes(),
        tint: Tint::Slot(task.handle.0),
        pages: pages_of(sight, step.pages, PagesOf::Slot(i)),
        pieces,
        heap: &pieces[1..above],
        flex: &pieces[above..],
        anchors: &anchors,
    };
    let contents = SlotContents { sight, i, task };
    print_slot_lens(&contents, &view, size.width, size.scale, pen);
}
