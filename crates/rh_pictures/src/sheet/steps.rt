//! A step of a sheet behind its remarks: its command, its reply, what has changed, and its figure.

ghost use Rattle.std.specs.Prelude.{◌≡◌, ◌≤◌, ◌++◌, ◌∷◌, ℕ, IfSome, List, [], length};
ghost use Rattle.std.specs.List.{concat};
ghost use Rattle.rh_pictures.specs.DrawnReplies.{Excerpts};
ghost use Rattle.rh_pictures.specs.LensSizes.{IsLensSize};
ghost use Rattle.rh_pictures.specs.SheetForms.{looks_of};
ghost use Rattle.rh_figure.specs.Phrases.{where_so};
ghost use Rattle.rh_sheet.specs.SheetSteps.{said_end, step_end, step_text};
ghost use Rattle.rh_scene.specs.Steps.{IsStepOf, scene_at};
ghost use Rattle.rh_defs.specs.Post.{most_messages};

use crate::deeds::Above;
use crate::lens::size::LensSize;
use crate::lists::Lists;
use crate::sheet::artist::SheetArtist;
use crate::sheet::figure::print_figure;
use crate::sheet::notes::Notes;
use crate::walks::changes::show_changes;
use rh_elements::{print_said, print_still};
use rh_lines::Pen;
use rh_scene::{Sight, Step};

/// The end of what is said at a step.
const SAID_END: &[u8] = b"</div>\n";

/// The end of a step.
const STEP_END: &[u8] = b"</section>\n";

/// Writes a step, where the last figure is that of step `last`, 0 for none; areas are drawn through a lens, or without
/// one at true scale.
pub fn print_step<S: Sight, P: Pen>(
    sight: &S,
    step: &Step<'_>,
    above: &Above<'_>,
    notes: &Notes,
    last: u32,
    lens: Option<LensSize>,
    lists: &mut Lists,
    pen: &mut P,
)
    requires step { IsStepOf (S.desk sight.now) step.now }
    requires few { length step.now.messages.now ≤ most_messages }
    requires lens { IfSome lens IsLensSize }
    ensures { (reply : List ℕ) → Excerpts above.now.front.now above.now.count reply
        → P.offered pen.new ≡ P.offered pen.old
        ++ step_text (looks_of lens) above.now.is_still above.now.number above.now.line.now reply
        (scene_at (S.desk sight.now) step.now) notes.now.items last }
{
    print_said(above.number, above.line, above.front, above.count, pen);
    if above.is_still {
        print_still(last, pen);
        print_end(pen);
        return;
    }
    show_changes(sight, step, lists, &SheetArtist, pen);
    pen.put(SAID_END);
    print_figure(sight, step, notes, above.number, lens, lists, pen);
    pen.put(STEP_END);
}

/// Writes the end of a step that a remark has begun and no command has ended, if there is one.
pub fn print_rest<P: Pen>(opened: bool, pen: &mut P)
    ensures { P.offered pen.new ≡ P.offered pen.old ++ where_so opened (concat (said_end ∷ step_end ∷ [])) }
{
    if !opened {
        return;
    }
    print_end(pen);
}

/// Writes the end of a step without a figure.
fn print_end<P: Pen>(pen: &mut P)
    ensures { P.offered pen.new ≡ P.offered pen.old ++ concat (said_end ∷ step_end ∷ []) }
{
    pen.put(SAID_END);
    pen.put(STEP_END);
}
