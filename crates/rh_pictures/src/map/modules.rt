//! The module area: its heading, rows and cards.

ghost use Rattle.std.specs.Prelude.{◌≡◌, ◌++◌};
ghost use Rattle.rh_pictures.specs.Parts.{lines_of_module};
ghost use Rattle.rh_map.specs.Written.{shown_lines};
ghost use Rattle.rh_scene.specs.Steps.{IsStepOf, scene_at};

use crate::lists::Lists;
use crate::map::artist::MapArtist;
use crate::walks::heap_cards::{Band, show_heap_cards};
use rh_defs::Handle;
use rh_defs::sizes::{MODULE_AREA, MODULE_START};
use rh_lines::Pen;
use rh_map::{AreaBytes, print_area, print_module_heading};
use rh_scene::{HeapOf, PagesOf, Sight, Step, module_pieces, pages_of};

/// Writes the module area.
pub fn print_module_part<S: Sight, P: Pen>(
    sight: &S,
    step: &Step<'_>,
    lists: &mut Lists,
    pen: &mut P,
)
    requires { IsStepOf (S.desk sight.now) step.now }
    ensures { P.offered pen.new ≡ P.offered pen.old
        ++ shown_lines (lines_of_module (scene_at (S.desk sight.now) step.now)) }
{
    sight.recall_desk();
    print_module_heading(sight.fixed_pages(MODULE_AREA), pen);
    module_pieces(sight, step, &mut lists.pieces);
    let area = AreaBytes {
        start: MODULE_START as u32,
        pages: pages_of(sight, step.pages, PagesOf::Fixed(MODULE_AREA)),
        pieces: &lists.pieces,
    };
    print_area(&area, pen);
    let band = Band {
        heap: HeapOf::Module,
        handle: Handle(0),
        taking: &[],
    };
    show_heap_cards(sight, step, &band, &MapArtist, pen);
}
