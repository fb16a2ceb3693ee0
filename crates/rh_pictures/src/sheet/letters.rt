//! The table of messages: what each task holds, and what waits for it.

ghost use Rattle.std.specs.Prelude.{◌≡◌, ◌≤◌, ◌++◌, length};
ghost use Rattle.rh_figure.specs.Figure.{letterboxes};
ghost use Rattle.rh_sheet.specs.Tables.{messages_table};
ghost use Rattle.rh_scene.specs.Steps.{IsStepOf, scene_at};
ghost use Rattle.rh_defs.specs.Post.{most_messages};

use crate::sheet::artist::SheetArtist;
use crate::walks::letters::{has_letterboxes, show_letterboxes};
use rh_lines::Pen;
use rh_scene::{Sight, Step};

/// Writes the table of the messages of each task that has some.
pub fn print_messages<S: Sight, P: Pen>(sight: &S, step: &Step<'_>, pen: &mut P)
    requires step { IsStepOf (S.desk sight.now) step.now }
    requires few { length step.now.messages.now ≤ most_messages }
    ensures { P.offered pen.new ≡ P.offered pen.old
        ++ messages_table (letterboxes (scene_at (S.desk sight.now) step.now)) }
{
    sight.recall_desk();
    if !has_letterboxes(sight, step.messages) {
        return;
    }
    pen.put(b"<table><caption>Messages</caption>\n");
    pen.put(b"<thead><tr><th>for</th><th>held</th><th>waiting</th></tr></thead>\n<tbody>\n");
    show_letterboxes(sight, step, &SheetArtist, pen);
    pen.put(b"</tbody></table>\n");
}
