//! What a command did that nothing in the desk behind it tells.

ghost use Rattle.std.specs.Prelude.{◌≡◌, ◌++◌, flat_map};
ghost use Rattle.rh_figure.specs.Changes.{effect_text};
ghost use Rattle.rh_scene.specs.Steps.{scene_at};

use crate::artist::Artist;
use crate::who::who_of;
use rh_lines::Pen;
use rh_map::{
    area_has_fewer, area_has_more, area_made, area_removed, budging_set, bytes_copied,
    bytes_stored, bytes_written, message_acknowledged, task_begun, task_ended, transfer_given_up,
};
use rh_scene::{Effect, Sight, Step};

/// Shows what a command did, if nothing in the desk behind it tells that.
pub fn show_effect<S: Sight, A: Artist, P: Pen>(sight: &S, step: &Step<'_>, artist: &A, pen: &mut P)
    ensures { let x = scene_at (S.desk sight.now) step.now in
        P.offered pen.new ≡ P.offered pen.old ++ flat_map A.change_text (effect_text x x.marks.effect) }
{
    match step.marks.effect {
        Effect::None => {}
        Effect::Begun { name, handle } => artist.change(&task_begun(name, handle), pen),
        Effect::Ended(name) => artist.change(&task_ended(name), pen),
        Effect::Budging { name, was, on } => artist.change(&budging_set(name, was, on), pen),
        Effect::Longer { number, bytes } => artist.change(&area_has_more(number, bytes), pen),
        Effect::Shorter { number, bytes } => artist.change(&area_has_fewer(number, bytes), pen),
        Effect::Made { number, most } => artist.change(&area_made(number, most), pen),
        Effect::Removed(number) => artist.change(&area_removed(number), pen),
        Effect::GivenUp(name) => artist.change(&transfer_given_up(name), pen),
        Effect::Written {
            anchor,
            offset,
            bytes,
        } => artist.change(&bytes_written(anchor, offset, bytes), pen),
        Effect::Stored {
            name,
            address,
            bytes,
        } => artist.change(&bytes_stored(name, address, bytes), pen),
        Effect::Copied {
            name,
            size,
            address,
            to,
            place,
        } => {
            let who = who_of(sight, to);
            artist.change(&bytes_copied(name, size, address, &who, place), pen);
        }
        Effect::Acknowledged { name, my_ref } => {
            artist.change(&message_acknowledged(name, my_ref), pen)
        }
    }
}
