//! What a step has changed, one thing after the other.

ghost use Rattle.std.specs.Prelude.{◌≡◌, ◌≤◌, ◌++◌, flat_map, length};
ghost use Rattle.rh_defs.specs.Post.{most_messages};
ghost use Rattle.rh_figure.specs.Changes.{changes};
ghost use Rattle.rh_scene.specs.Steps.{IsStepOf, scene_at};

use crate::artist::Artist;
use crate::lists::Lists;
use crate::walks::block_changes::show_block_changes;
use crate::walks::effect_changes::show_effect;
use crate::walks::heap_changes::{show_buffer, show_growth, show_heap_change};
use crate::walks::page_changes::show_page_changes;
use crate::walks::post_changes::show_post_changes;
use crate::walks::taken_changes::{show_back, show_held};
use rh_lines::Pen;
use rh_scene::{Sight, Step};

/// Shows what a step has changed: its effect, and what has changed of the pool, of a heap, of the named task's flex
/// blocks, and of the messages; and whether the one that it took has come back, or is held.
pub fn show_changes<S: Sight, A: Artist, P: Pen>(
    sight: &S,
    step: &Step<'_>,
    lists: &mut Lists,
    artist: &A,
    pen: &mut P,
)
    requires step { IsStepOf (S.desk sight.now) step.now }
    requires few { length step.now.messages.now ≤ most_messages }
    ensures { P.offered pen.new ≡ P.offered pen.old
        ++ flat_map A.change_text (changes (scene_at (S.desk sight.now) step.now)) }
{
    show_effect(sight, step, artist, pen);
    show_page_changes(sight, step, artist, pen);
    show_growth(sight, step, artist, pen);
    show_heap_change(sight, step, artist, pen);
    show_buffer(sight, step, artist, pen);
    show_block_changes(sight, step, &mut lists.blocks, artist, pen);
    show_back(sight, step, artist, pen);
    show_post_changes(sight, step, artist, pen);
    show_held(sight, step, artist, pen);
}
