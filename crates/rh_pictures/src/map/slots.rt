//! Slots: a heading for each, and its rows and cards where it is drawn.

ghost use Rattle.std.specs.Prelude.{◌≡◌, ◌<◌, ◌∷◌, ◌++◌, [], length, slice_get, Some};
ghost use Rattle.std.specs.List.{position};
ghost use Rattle.rh_defs.specs.Desk.{Task, most_tasks};
ghost use Rattle.rh_pictures.specs.Parts.{slot_lines, slot_panels, lines_of_slots};
ghost use Rattle.rh_pictures.specs.Inner.PartsBehind.{slot_heading};
ghost use Rattle.rh_figure.specs.Figure.{slot_drawing, Panel};
ghost use Rattle.rh_figure.specs.Map.{drawing_lines};
ghost use Rattle.rh_figure.specs.Scene.{Scene};
ghost use Rattle.rh_figure.specs.Share.{SlotOf, is_owner};
ghost use Rattle.rh_map.specs.Written.{shown_lines};
ghost use Rattle.rh_scene.specs.Seen.{IsTaskSeen};
ghost use Rattle.rh_scene.specs.Steps.{IsStepOf, scene_at};

use crate::counts::count_tasks;
use crate::lists::Lists;
use crate::map::artist::MapArtist;
use crate::walks::flex_cards::show_flex_cards;
use crate::walks::heap_cards::{Band, show_heap_cards};
use rh_defs::sizes::SLOT_START;
use rh_lines::Pen;
use rh_map::{AreaBytes, SlotHeading, print_area, print_slot_heading, slot_mark};
use rh_scene::{HeapOf, PagesOf, Sight, Step, TaskSight, is_drawn, pages_of, slot_pieces};

/// Writes all slots, in order of handle.
pub fn print_slot_part<S: Sight, P: Pen>(sight: &S, step: &Step<'_>, lists: &mut Lists, pen: &mut P)
    requires { IsStepOf (S.desk sight.now) step.now }
    ensures { P.offered pen.new ≡ P.offered pen.old
        ++ shown_lines (lines_of_slots (scene_at (S.desk sight.now) step.now)) }
{
    sight.recall_desk();
    let tasks = count_tasks(sight);
    let mut i = 0;
    'tasks: while let Some(task) = sight.task(i) {
        print_one(sight, step, tasks, i, &task, lists, pen);
        i += 1;
    }
}

/// Writes the slot of a task, where so many tasks are live.
fn print_one<S: Sight, P: Pen>(
    sight: &S,
    step: &Step<'_>,
    tasks: usize,
    i: usize,
    task: &TaskSight<'_>,
    lists: &mut Lists,
    pen: &mut P,
)
    requires step { IsStepOf (S.desk sight.now) step.now }
    requires tasks { tasks ≡ length (S.desk sight.now).tasks }
    requires task { (t : Task) × (slice_get (S.desk sight.now).tasks i ≡ Some t) × IsTaskSeen task.now t }
    ensures { (t : Task) → slice_get (S.desk sight.now).tasks i ≡ Some t → P.offered pen.new ≡ P.offered pen.old
        ++ shown_lines (slot_lines (scene_at (S.desk sight.now) step.now) t) }
{
    sight.recall_desk();
    print_heading(i, task, pen);
    if !is_drawn(step, tasks, task.handle) {
        return;
    }
    print_slot(sight, step, i, task, lists, pen);
}

/// Writes the heading of the slot of a task, which stands at a place in order of handle.
fn print_heading<P: Pen>(i: usize, task: &TaskSight<'_>, pen: &mut P)
    requires { i < most_tasks }
    ensures { (x : Scene) (t : Task) → IsTaskSeen task.now t → slice_get x.desk.tasks i ≡ Some t
        → position (λ (p : Panel). is_owner p.owner (SlotOf t.handle)) (slot_panels x) ≡ Some i
        → P.offered pen.new ≡ P.offered pen.old ++ shown_lines (slot_heading x t ∷ []) }
{
    let heading = SlotHeading {
        name: task.name,
        mark: slot_mark(i),
        manner: task.manner,
        handle: task.handle,
        buffer: task.buffer,
        pages: task.pages,
        budging: task.budging,
    };
    print_slot_heading(&heading, pen);
}

/// Writes the rows of a task's slot, and the cards of its flex blocks and its C heap.
fn print_slot<S: Sight, P: Pen>(
    sight: &S,
    step: &Step<'_>,
    i: usize,
    task: &TaskSight<'_>,
    lists: &mut Lists,
    pen: &mut P,
)
    requires step { IsStepOf (S.desk sight.now) step.now }
    requires task { (t : Task) × (slice_get (S.desk sight.now).tasks i ≡ Some t) × IsTaskSeen task.now t }
    ensures { (t : Task) → slice_get (S.desk sight.now).tasks i ≡ Some t → P.offered pen.new ≡ P.offered pen.old
        ++ shown_lines (drawing_lines (Some (slot_drawing (scene_at (S.desk sight.now) step.now) t))) }
{
    sight.recall_desk();
    sight.blocks(i, &mut lists.blocks);
    slot_pieces(sight, step, i, task, &lists.blocks, &mut lists.pieces);
    let area = AreaBytes {
        start: SLOT_START as u32,
        pages: pages_of(sight, step.pages, PagesOf::Slot(i)),
        pieces: &lists.pieces,
    };
    print_area(&area, pen);
    show_flex_cards(sight, step, i, task, &lists.blocks, &MapArtist, pen);
    let band = Band {
        heap: HeapOf::Task(i),
        handle: task.handle,
        taking: task.taking,
    };
    show_heap_cards(sight, step, &band, &MapArtist, pen);
}
