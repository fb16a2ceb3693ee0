//! Letterboxes of a map: a line for each task that has messages, below a heading.

ghost use Rattle.std.specs.Prelude.{◌≡◌, ◌≤◌, ◌++◌, length};
ghost use Rattle.rh_defs.specs.Post.{most_messages};
ghost use Rattle.rh_pictures.specs.Parts.{letter_part};
ghost use Rattle.rh_map.specs.Written.{shown_lines};
ghost use Rattle.rh_scene.specs.Steps.{IsStepOf, scene_at};

use crate::map::artist::MapArtist;
use crate::walks::letters::{has_letterboxes, show_letterboxes};
use rh_lines::Pen;
use rh_map::put_line;
use rh_scene::{Sight, Step};

/// Writes the messages of each task that has some, below a heading.
pub fn print_letter_part<S: Sight, P: Pen>(sight: &S, step: &Step<'_>, pen: &mut P)
    requires step { IsStepOf (S.desk sight.now) step.now }
    requires few { length step.now.messages.now ≤ most_messages }
    ensures { P.offered pen.new ≡ P.offered pen.old
        ++ shown_lines (letter_part (scene_at (S.desk sight.now) step.now)) }
{
    sight.recall_desk();
    if !has_letterboxes(sight, step.messages) {
        return;
    }
    put_line(b"Messages", pen);
    show_letterboxes(sight, step, &MapArtist, pen);
}
