//! A whole figure.

ghost use Rattle.std.specs.Prelude.{◌≡◌, ◌≤◌, ◌++◌, length};
ghost use Rattle.rh_figure.specs.Figure.{figure};
ghost use Rattle.rh_figure.specs.Map.{figure_lines};
ghost use Rattle.rh_map.specs.Written.{shown_lines};
ghost use Rattle.rh_scene.specs.Steps.{IsStepOf, scene_at};
ghost use Rattle.rh_defs.specs.Post.{most_messages};

use crate::lists::Lists;
use crate::map::artist::MapArtist;
use crate::map::letters::print_letter_part;
use crate::map::modules::print_module_part;
use crate::map::pool::print_pool_part;
use crate::map::slots::print_slot_part;
use crate::map::transfers::print_transfer_part;
use crate::walks::areas::show_areas;
use crate::walks::changes::show_changes;
use rh_lines::Pen;
use rh_map::put_line;
use rh_scene::{Sight, Step};

/// Writes what a step has changed, and the figure of the desk behind it.
pub fn print_figure<S: Sight, P: Pen>(sight: &S, step: &Step<'_>, lists: &mut Lists, pen: &mut P)
    requires step { IsStepOf (S.desk sight.now) step.now }
    requires few { length step.now.messages.now ≤ most_messages }
    ensures { P.offered pen.new ≡ P.offered pen.old
        ++ shown_lines (figure_lines (figure (scene_at (S.desk sight.now) step.now))) }
{
    show_changes(sight, step, lists, &MapArtist, pen);
    put_line(b"", pen);
    print_pool_part(sight, step, lists, pen);
    show_areas(sight, step, &MapArtist, pen);
    print_slot_part(sight, step, lists, pen);
    print_module_part(sight, step, lists, pen);
    print_letter_part(sight, step, pen);
    print_transfer_part(sight, pen);
    put_line(b"", pen);
}
