//! A whole figure: the memory, and what stands beside it.

ghost use Rattle.std.specs.Prelude.{◌≡◌, ◌≤◌, ◌++◌, IfSome, length};
ghost use Rattle.rh_sheet.specs.SheetSteps.{figure_text, memory_text};
ghost use Rattle.rh_pictures.specs.LensSizes.{IsLensSize};
ghost use Rattle.rh_pictures.specs.SheetForms.{looks_of};
ghost use Rattle.rh_scene.specs.Steps.{IsStepOf, scene_at};
ghost use Rattle.rh_defs.specs.Post.{most_messages};

use crate::lens::size::LensSize;
use crate::lists::Lists;
use crate::sheet::artist::SheetArtist;
use crate::sheet::aside::print_aside;
use crate::sheet::modules::print_module_part;
use crate::sheet::notes::Notes;
use crate::sheet::pool::print_pool_figure;
use crate::sheet::slots::print_slots;
use crate::walks::areas::show_areas;
use rh_lines::Pen;
use rh_scene::{Sight, Step};

/// Writes the figure of a desk behind a step with a number.
pub fn print_figure<S: Sight, P: Pen>(
    sight: &S,
    step: &Step<'_>,
    notes: &Notes,
    number: u32,
    lens: Option<LensSize>,
    lists: &mut Lists,
    pen: &mut P,
)
    requires step { IsStepOf (S.desk sight.now) step.now }
    requires few { length step.now.messages.now ≤ most_messages }
    requires lens { IfSome lens IsLensSize }
    ensures { P.offered pen.new ≡ P.offered pen.old
        ++ figure_text (looks_of lens) (scene_at (S.desk sight.now) step.now) notes.now.items number }
{
    print_memory(sight, step, lens, lists, pen);
    print_aside(sight, step, notes, number, pen);
}

/// Writes the pool, areas, slots and the module area.
fn print_memory<S: Sight, P: Pen>(
    sight: &S,
    step: &Step<'_>,
    lens: Option<LensSize>,
    lists: &mut Lists,
    pen: &mut P,
)
    requires step { IsStepOf (S.desk sight.now) step.now }
    requires lens { IfSome lens IsLensSize }
    ensures { P.offered pen.new ≡ P.offered pen.old
        ++ memory_text (looks_of lens) (scene_at (S.desk sight.now) step.now) }
{
    pen.put(b"<div class=\"memory\">\n");
    print_pool_figure(sight, step, pen);
    show_areas(sight, step, &SheetArtist, pen);
    print_slots(sight, step, lens, lists, pen);
    print_module_part(sight, step, lens, lists, pen);
    pen.put(b"</div>\n");
}
