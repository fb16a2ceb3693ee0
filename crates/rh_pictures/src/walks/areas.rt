//! Areas that are pages alone.

ghost use Rattle.std.specs.Prelude.{◌≡◌, ◌<◌, ◌==◌, ◌++◌, [], flat_map, if◌then◌else◌, map, slice_index};
ghost use Rattle.rh_figure.specs.Figure.{area_panels, fixed_panel, made_panel, scrap_text};
ghost use Rattle.rh_map.specs.MapAreas.{scrap_note_of};
ghost use Rattle.rh_scene.specs.Steps.{IsStepOf, scene_at};
ghost use Rattle.rh_defs.specs.declared.sizes.TheConstants.{FIXED_AREAS};

use crate::artist::Artist;
use rh_defs::sizes::{FIXED_AREAS, MODULE_AREA, SCRAP_AREA};
use rh_lines::Pen;
use rh_map::ScrapLine;
use rh_scene::{PagesOf, Sight, Step, pages_of};

/// Shows each of areas 0 to 5 that has pages, but the module area, and each made area.
pub fn show_areas<S: Sight, A: Artist, P: Pen>(sight: &S, step: &Step<'_>, artist: &A, pen: &mut P)
    requires { IsStepOf (S.desk sight.now) step.now }
    ensures { P.offered pen.new ≡ P.offered pen.old
        ++ flat_map A.area_text (area_panels (scene_at (S.desk sight.now) step.now)) }
{
    sight.recall_desk();
    for number in 0..FIXED_AREAS as u32 {
        show_fixed(sight, step, number, artist, pen);
    }
    show_made(sight, step, artist, pen);
}

/// Shows one of areas 0 to 5, where it has pages and isn't the module area.
fn show_fixed<S: Sight, A: Artist, P: Pen>(
    sight: &S,
    step: &Step<'_>,
    number: u32,
    artist: &A,
    pen: &mut P,
)
    requires step { IsStepOf (S.desk sight.now) step.now }
    requires number { number < FIXED_AREAS }
    ensures { P.offered pen.new ≡ P.offered pen.old
        ++ flat_map A.area_text (fixed_panel (scene_at (S.desk sight.now) step.now)
        (number, slice_index (S.desk sight.now).areas number)) }
{
    sight.recall_desk();
    if number == MODULE_AREA || sight.fixed_pages(number) == 0 {
        return;
    }
    let pages = pages_of(sight, step.pages, PagesOf::Fixed(number));
    artist.fixed_area(number, pages, scrap_in(sight, number), pen);
}

/// The scrap file, if it lies in the area with the number.
fn scrap_in<S: Sight>(sight: &S, number: u32) -> Option<ScrapLine>
    ensures { scrap_note_of result ≡ (if number == 5 then scrap_text (S.desk sight.now).scrap else []) }
{
    if number != SCRAP_AREA {
        return None;
    }
    let scrap = sight.scrap()?;
    Some(ScrapLine {
        size: scrap.size,
        load: scrap.load,
    })
}

/// Shows the made areas.
fn show_made<S: Sight, A: Artist, P: Pen>(sight: &S, step: &Step<'_>, artist: &A, pen: &mut P)
    requires { IsStepOf (S.desk sight.now) step.now }
    ensures { P.offered pen.new ≡ P.offered pen.old
        ++ flat_map A.area_text (map (made_panel (scene_at (S.desk sight.now) step.now)) (S.desk sight.now).made) }
{
    sight.recall_desk();
    let mut i = 0;
    'areas: while let Some(area) = sight.made(i) {
        let pages = pages_of(sight, step.pages, PagesOf::Made(i));
        artist.made_area(area.number, area.most, pages, pen);
        i += 1;
    }
}
