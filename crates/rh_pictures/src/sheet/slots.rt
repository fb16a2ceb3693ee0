//! The figures of slots.

ghost use Rattle.std.specs.Prelude.{◌≡◌, ◌<◌, ◌++◌, IfSome, length, slice_get, Some};
ghost use Rattle.std.specs.List.{AllByRecursion, flat_map};
ghost use Rattle.rh_defs.specs.Desk.{Task};
ghost use Rattle.rh_defs.specs.Slot.{anchor_count, slot_length};
ghost use Rattle.rh_defs.specs.declared.question.BlockItem.{BlockItem};
ghost use Rattle.rh_elements.specs.DrawRows.{plot_of};
ghost use Rattle.rh_figure.specs.Figure.{slot_note};
ghost use Rattle.rh_figure.specs.Scene.{Scene};
ghost use Rattle.rh_pictures.specs.Inner.Figures.{IsSlotPlan};
ghost use Rattle.rh_pictures.specs.LensSizes.{IsLensSize};
ghost use Rattle.rh_pictures.specs.SheetForms.{looks_of};
ghost use Rattle.rh_sheet.specs.SheetAreas.{slot_body, slot_description, slot_figure, slot_lenses, slot_plot};
ghost use Rattle.rh_sheet.specs.SheetAreas.{ticks_text};
ghost use Rattle.rh_sheet.specs.Markup.{escape, heading_text};
ghost use Rattle.rh_sheet.specs.SheetSteps.{slot_part};
ghost use Rattle.rh_scene.specs.Seen.{IsTaskSeen};
ghost use Rattle.rh_scene.specs.Steps.{IsStepOf, scene_at};

use crate::counts::count_tasks;
use crate::lens::size::LensSize;
use crate::lens::slots::print_lens_of_slot;
use crate::lists::Lists;
use crate::sheet::arrows::print_arrow_of;
use crate::sheet::bands::BandForm;
use crate::sheet::rows::{put_pages, rows_for};
use crate::walks::flex_cards::show_flex_cards;
use crate::walks::heap_cards::{Band, show_heap_cards};
use rh_defs::BlockItem;
use rh_defs::sizes::{C_HEAP_PLACE, HEAP_FIRST, SLOT_START};
use rh_elements::{
    Plot, Tint, foot, height, print_described, print_figure_end, print_figure_open, print_heading,
    print_lens_above, print_lens_below, print_rows, print_tick, put_escaped, row_y, top,
};
use rh_lines::{Pen, Row};
use rh_map::{SlotHeading, add_size, add_slot_note};
use rh_scene::{
    Census, HeapOf, Owner, PagesOf, Sight, Step, TaskSight, is_drawn, pages_of, slot_pieces,
    take_census,
};
use rh_sheet::Frame;
use rh_sheet::sizes::{FIGURE_WIDTH, LENS_HEIGHT};

/// What the figure of a task's slot is drawn from: the task's place in order of handle, its blocks, how the figure's
/// parts stand, its rows, and how many segments its C heap has.
#[derive(Clone, Copy)]
struct Plan<'a> {
    i: usize,
    blocks: &'a [BlockItem],
    frame: Frame,
    plot: Plot<'a>,
    census: Census,
}

/// Writes the heading of each slot, in order of handle, and its figure where it is drawn.
pub fn print_slots<S: Sight, P: Pen>(
    sight: &S,
    step: &Step<'_>,
    lens: Option<LensSize>,
    lists: &mut Lists,
    pen: &mut P,
)
    requires step { IsStepOf (S.desk sight.now) step.now }
    requires lens { IfSome lens IsLensSize }
    ensures { let x = scene_at (S.desk sight.now) step.now in
        P.offered pen.new ≡ P.offered pen.old ++ flat_map (slot_part (looks_of lens) x) x.desk.tasks }
{
    sight.recall_desk();
    let tasks = count_tasks(sight);
    let mut i = 0;
    'tasks: while let Some(task) = sight.task(i) {
        print_slot(sight, step, tasks, i, &task, lens, lists, pen);
        i += 1;
    }
}

/// Writes the slot of a task, where so many tasks are live.
fn print_slot<S: Sight, P: Pen>(
    sight: &S,
    step: &Step<'_>,
    tasks: usize,
    i: usize,
    task: &TaskSight<'_>,
    lens: Option<LensSize>,
    lists: &mut Lists,
    pen: &mut P,
)
    requires step { IsStepOf (S.desk sight.now) step.now }
    requires tasks { tasks ≡ length (S.desk sight.now).tasks }
    requires lens { IfSome lens IsLensSize }
    requires task { (t : Task) × (slice_get (S.desk sight.now).tasks i ≡ Some t) × IsTaskSeen task.now t }
    ensures { (t : Task) → slice_get (S.desk sight.now).tasks i ≡ Some t →
        P.offered pen.new ≡ P.offered pen.old
        ++ slot_part (looks_of lens) (scene_at (S.desk sight.now) step.now) t }
{
    sight.recall_desk();
    print_slot_heading(task, pen);
    if !is_drawn(step, tasks, task.handle) {
        return;
    }
    print_bytes(sight, step, i, task, lens, lists, pen);
}

/// Writes what lies in the slot of a task, through a lens or at true scale.
fn print_bytes<S: Sight, P: Pen>(
    sight: &S,
    step: &Step<'_>,
    i: usize,
    task: &TaskSight<'_>,
    lens: Option<LensSize>,
    lists: &mut Lists,
    pen: &mut P,
)
    requires step { IsStepOf (S.desk sight.now) step.now }
    requires task { (t : Task) × (slice_get (S.desk sight.now).tasks i ≡ Some t) × IsTaskSeen task.now t }
    requires lens { IfSome lens IsLensSize }
    ensures { (t : Task) → slice_get (S.desk sight.now).tasks i ≡ Some t → P.offered pen.new ≡ P.offered pen.old
        ++ (looks_of lens).slot (scene_at (S.desk sight.now) step.now) t }
{
    match lens {
        Some(size) => print_lens_of_slot(sight, step, i, task, size, lists, pen),
        None => print_figure(sight, step, i, task, lists, pen),
    }
}

/// Writes the heading of a task's slot.
fn print_slot_heading<P: Pen>(task: &TaskSight<'_>, pen: &mut P)
    ensures { (t : Task) → IsTaskSeen task.now t →
        P.offered pen.new ≡ P.offered pen.old ++ heading_text t.name (slot_note t) }
{
    let heading = SlotHeading {
        name: task.name,
        mark: b' ',
        manner: task.manner,
        handle: task.handle,
        buffer: task.buffer,
        pages: task.pages,
        budging: task.budging,
    };
    let mut note = Row::new();
    add_slot_note(&mut note, &heading);
    print_heading(task.name.as_bytes(), note.as_slice(), pen);
}

/// Writes the figure of the slot of a task.
fn print_figure<S: Sight, P: Pen>(
    sight: &S,
    step: &Step<'_>,
    i: usize,
    task: &TaskSight<'_>,
    lists: &mut Lists,
    pen: &mut P,
)
    requires step { IsStepOf (S.desk sight.now) step.now }
    requires task { (t : Task) × (slice_get (S.desk sight.now).tasks i ≡ Some t) × IsTaskSeen task.now t }
    ensures { (t : Task) → slice_get (S.desk sight.now).tasks i ≡ Some t →
        P.offered pen.new ≡ P.offered pen.old ++ slot_figure (scene_at (S.desk sight.now) step.now) t }
{
    sight.recall_desk();
    sight.blocks(i, &mut lists.blocks);
    slot_pieces(sight, step, i, task, &lists.blocks, &mut lists.pieces);
    let pages = pages_of(sight, step.pages, PagesOf::Slot(i));
    let census = take_census(sight, HeapOf::Task(i), HEAP_FIRST as u32);
    let frame = Frame {
        pages: rows_for(step, Owner::Slot(task.handle), pages),
        above: lists.blocks.len(),
        below: census.count as usize,
    };
    let plot = Plot {
        start: SLOT_START as u32,
        pages,
        pieces: &lists.pieces,
        tint: Tint::Slot(task.handle.0),
    };
    let plan = Plan {
        i,
        blocks: &lists.blocks,
        frame,
        plot,
        census,
    };
    print_plan(sight, step, task, &plan, pen);
}

/// Writes a figure as it is planned.
fn print_plan<S: Sight, P: Pen>(
    sight: &S,
    step: &Step<'_>,
    task: &TaskSight<'_>,
    plan: &Plan<'_>,
    pen: &mut P,
)
    requires step { IsStepOf (S.desk sight.now) step.now }
    requires task { (t : Task) × (slice_get (S.desk sight.now).tasks plan.now.i ≡ Some t) × IsTaskSeen task.now t
        × IsSlotPlan (scene_at (S.desk sight.now) step.now) t plan.now }
    ensures { (t : Task) → slice_get (S.desk sight.now).tasks plan.now.i ≡ Some t →
        P.offered pen.new ≡ P.offered pen.old ++ slot_figure (scene_at (S.desk sight.now) step.now) t }
{
    let mut title = Row::new();
    title.text(b"The slot of ");
    title.text(task.name.as_bytes());
    print_figure_open(FIGURE_WIDTH, height(plan.frame), title.as_slice(), pen);
    print_description(sight, step, task, plan, pen);
    print_described(pen);
    print_body(sight, step, task, plan, pen);
    print_figure_end(pen);
}

/// Writes a slot as it is read out.
fn print_description<S: Sight, P: Pen>(
    sight: &S,
    step: &Step<'_>,
    task: &TaskSight<'_>,
    plan: &Plan<'_>,
    pen: &mut P,
)
    requires step { IsStepOf (S.desk sight.now) step.now }
    requires task { (t : Task) × (slice_get (S.desk sight.now).tasks plan.now.i ≡ Some t) × IsTaskSeen task.now t
        × IsSlotPlan (scene_at (S.desk sight.now) step.now) t plan.now }
    ensures { (t : Task) → slice_get (S.desk sight.now).tasks plan.now.i ≡ Some t →
        P.offered pen.new ≡ P.offered pen.old ++ escape (slot_description (scene_at (S.desk sight.now) step.now) t) }
{
    sight.recall_desk();
    put_pages(plan.plot.pages, pen);
    let mut row = Row::new();
    row.text(b"C heap of ");
    add_size(&mut row, task.heap_end);
    row.text(b". ");
    put_escaped(row.as_slice(), pen);
    let band = Band {
        heap: HeapOf::Task(plan.i),
        handle: task.handle,
        taking: task.taking,
    };
    show_heap_cards(sight, step, &band, &BandForm::Told, pen);
    show_flex_cards(sight, step, plan.i, task, plan.blocks, &BandForm::Told, pen);
}

/// Writes what leads to the cards, cards of flex blocks, rows, ticks, the arrow of a slide, and cards of the C heap.
fn print_body<S: Sight, P: Pen>(
    sight: &S,
    step: &Step<'_>,
    task: &TaskSight<'_>,
    plan: &Plan<'_>,
    pen: &mut P,
)
    requires step { IsStepOf (S.desk sight.now) step.now }
    requires task { (t : Task) × (slice_get (S.desk sight.now).tasks plan.now.i ≡ Some t) × IsTaskSeen task.now t
        × IsSlotPlan (scene_at (S.desk sight.now) step.now) t plan.now }
    ensures { (t : Task) → slice_get (S.desk sight.now).tasks plan.now.i ≡ Some t →
        P.offered pen.new ≡ P.offered pen.old ++ slot_body (scene_at (S.desk sight.now) step.now) t }
{
    sight.recall_desk();
    let frame = plan.frame;
    print_lenses(sight, step, task, plan, pen);
    let above = BandForm::Above(top(frame).saturating_sub(LENS_HEIGHT));
    show_flex_cards(sight, step, plan.i, task, plan.blocks, &above, pen);
    print_rows(frame, &plan.plot, pen);
    print_ticks(row_y(frame, 0), plan.blocks, pen);
    print_arrow_of(step, frame, task.handle, plan.blocks, pen);
    let below = BandForm::Below(foot(frame) + LENS_HEIGHT);
    let band = Band {
        heap: HeapOf::Task(plan.i),
        handle: task.handle,
        taking: task.taking,
    };
    show_heap_cards(sight, step, &band, &below, pen);
}

/// Writes what leads from the rows to the cards.
fn print_lenses<S: Sight, P: Pen>(
    sight: &S,
    step: &Step<'_>,
    task: &TaskSight<'_>,
    plan: &Plan<'_>,
    pen: &mut P,
)
    requires step { IsStepOf (S.desk sight.now) step.now }
    requires task { (t : Task) × (slice_get (S.desk sight.now).tasks plan.now.i ≡ Some t) × IsTaskSeen task.now t
        × IsSlotPlan (scene_at (S.desk sight.now) step.now) t plan.now }
    ensures { (t : Task) → slice_get (S.desk sight.now).tasks plan.now.i ≡ Some t →
        P.offered pen.new ≡ P.offered pen.old ++ slot_lenses plan.now.frame t.slot }
{
    sight.recall_desk();
    let low = C_HEAP_PLACE + task.heap_end as usize;
    let high = flex_end(&plan.plot);
    let count = plan.blocks.len() as u32;
    print_lens_above(plan.frame, low, high, count, pen);
    let low = C_HEAP_PLACE + HEAP_FIRST;
    let high = C_HEAP_PLACE + plan.census.end as usize;
    print_lens_below(plan.frame, low, high, plan.census.count, pen);
}

/// Where the flex blocks of a slot end, from its first byte: there its last piece begins, what is unused.
fn flex_end(plot: &Plot<'_>) -> usize
    ensures { (x : Scene) (t : Task) → plot_of plot.now ≡ slot_plot x t → result ≡ slot_length t.slot }
{
    match plot.pieces.last() {
        Some(piece) => piece.at,
        None => 0,
    }
}

/// Writes ticks in the anchor words of blocks, in a row at a height.
fn print_ticks<P: Pen>(y: u32, blocks: &[BlockItem], pen: &mut P)
    requires { AllByRecursion (λ (b : BlockItem). b.anchor < anchor_count) blocks.now }
    ensures { P.offered pen.new ≡ P.offered pen.old ++ ticks_text y blocks.now }
{
    for block in blocks {
        print_tick(y, u32::from(block.anchor.0), pen);
    }
}
