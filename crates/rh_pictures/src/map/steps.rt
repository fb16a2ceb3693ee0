//! A step of a map: its line, its reply, and its figure.

ghost use Rattle.std.specs.Prelude.{◌≡◌, ◌≤◌, ◌++◌, ℕ, List, length};
ghost use Rattle.rh_pictures.specs.DrawnReplies.{Excerpts};
ghost use Rattle.rh_figure.specs.Map.{step_lines};
ghost use Rattle.rh_map.specs.Written.{shown_lines};
ghost use Rattle.rh_scene.specs.Steps.{IsStepOf, scene_at};
ghost use Rattle.rh_defs.specs.Post.{most_messages};

use crate::deeds::Above;
use crate::lists::Lists;
use crate::map::figure::print_figure;
use rh_lines::Pen;
use rh_map::{print_reply_lines, print_step_line, print_still};
use rh_scene::{Sight, Step};

/// Writes a step.
pub fn print_step<S: Sight, P: Pen>(
    sight: &S,
    step: &Step<'_>,
    above: &Above<'_>,
    lists: &mut Lists,
    pen: &mut P,
)
    requires step { IsStepOf (S.desk sight.now) step.now }
    requires few { length step.now.messages.now ≤ most_messages }
    ensures { (reply : List ℕ) → Excerpts above.now.front.now above.now.count reply
        → P.offered pen.new ≡ P.offered pen.old ++ shown_lines (step_lines above.now.is_still above.now.number
        above.now.line.now reply (scene_at (S.desk sight.now) step.now)) }
{
    print_step_line(above.number, above.line, pen);
    print_reply_lines(above.front, above.count, pen);
    if above.is_still {
        print_still(pen);
        return;
    }
    print_figure(sight, step, lists, pen);
}
