//! What stands beside the memory: the chart of the last messages, the table of messages, and that of transfers.

ghost use Rattle.std.specs.Prelude.{◌≡◌, ◌≤◌, ◌++◌, length};
ghost use Rattle.rh_sheet.specs.SheetSteps.{aside_text, has_aside as has_aside_at};
ghost use Rattle.rh_sheet.specs.declared.sizes.TheConstants.{MOST_NOTES};
ghost use Rattle.rh_scene.specs.Steps.{IsStepOf, scene_at};
ghost use Rattle.rh_defs.specs.Post.{most_messages};

use crate::sheet::chart::print_chart;
use crate::sheet::letters::print_messages;
use crate::sheet::transfers::print_transfers;
use crate::walks::letters::has_letterboxes;
use crate::walks::transfers::has_transfers;
use rh_lines::Pen;
use rh_scene::{Sight, Step};
use rh_sheet::Note;

/// Writes what stands beside the memory at a step with a number, if something does.
pub fn print_aside<S: Sight, P: Pen>(
    sight: &S,
    step: &Step<'_>,
    notes: &[Note],
    number: u32,
    pen: &mut P,
)
    requires step { IsStepOf (S.desk sight.now) step.now }
    requires few { length step.now.messages.now ≤ most_messages }
    requires notes { length notes.now ≤ MOST_NOTES }
    ensures { P.offered pen.new ≡ P.offered pen.old
        ++ aside_text (scene_at (S.desk sight.now) step.now) notes.now number }
{
    if !has_aside(sight, step, notes) {
        return;
    }
    pen.put(b"<aside>\n");
    print_chart(sight, notes, number, pen);
    print_messages(sight, step, pen);
    print_transfers(sight, pen);
    pen.put(b"</aside>\n");
}

/// Whether something stands beside the memory.
fn has_aside<S: Sight>(sight: &S, step: &Step<'_>, notes: &[Note]) -> bool
    requires { IsStepOf (S.desk sight.now) step.now }
    ensures { result ≡ has_aside_at (scene_at (S.desk sight.now) step.now) notes.now }
{
    sight.recall_desk();
    if !notes.is_empty() {
        return true;
    }
    has_letterboxes(sight, step.messages) || has_transfers(sight)
}
