//! Transfers of a map: a line for each, below a heading.

ghost use Rattle.std.specs.Prelude.{◌≡◌, ◌++◌};
ghost use Rattle.rh_pictures.specs.Parts.{transfer_part};
ghost use Rattle.rh_figure.specs.Scene.{Before, Marks, scene_of};
ghost use Rattle.rh_figure.specs.Share.{Share};
ghost use Rattle.rh_map.specs.Written.{shown_lines};

use crate::map::artist::MapArtist;
use crate::walks::transfers::{has_transfers, show_transfers};
use rh_lines::Pen;
use rh_map::put_line;
use rh_scene::Sight;

/// Writes the transfers that go out, each with the side that comes in, and those that only come in, below a heading.
pub fn print_transfer_part<S: Sight, P: Pen>(sight: &S, pen: &mut P)
    ensures { (s : Share) (b : Before) (m : Marks) → P.offered pen.new ≡ P.offered pen.old
        ++ shown_lines (transfer_part (scene_of (S.desk sight.now) s b m)) }
{
    if !has_transfers(sight) {
        return;
    }
    put_line(b"Transfers", pen);
    show_transfers(sight, &MapArtist, pen);
}
