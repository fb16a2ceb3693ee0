//! The figure of the module area.

ghost use Rattle.std.specs.Prelude.{◌≡◌, ◌≤◌, ◌++◌, IfSome, length};
ghost use Rattle.rh_defs.specs.Heap.{first_place};
ghost use Rattle.rh_defs.specs.declared.sizes.TheConstants.{MAX_PAGES};
ghost use Rattle.rh_elements.specs.DrawRows.{plot_of};
ghost use Rattle.rh_figure.specs.Share.{AreaOf};
ghost use Rattle.rh_pictures.specs.LensSizes.{IsLensSize};
ghost use Rattle.rh_pictures.specs.SheetForms.{looks_of};
ghost use Rattle.rh_sheet.specs.SheetAreas.{module_body, module_description, module_figure, module_frame, module_plot};
ghost use Rattle.rh_sheet.specs.Markup.{escape};
ghost use Rattle.rh_sheet.specs.SheetSteps.{module_part};
ghost use Rattle.rh_scene.specs.Steps.{IsStepOf, scene_at};
ghost use Rattle.rh_scene.specs.Walks.{census_of};

use crate::lens::modules::print_lens_of_module;
use crate::lens::size::LensSize;
use crate::lists::Lists;
use crate::sheet::areas::print_area_heading;
use crate::sheet::bands::BandForm;
use crate::sheet::rows::{put_pages, rows_for};
use crate::walks::heap_cards::{Band, show_heap_cards};
use rh_defs::Handle;
use rh_defs::sizes::{HEAP_FIRST, MODULE_AREA, MODULE_START};
use rh_elements::{
    Plot, Tint, foot, height, print_described, print_figure_end, print_figure_open,
    print_lens_below, print_rows,
};
use rh_lines::{Pen, Row};
use rh_map::add_pages;
use rh_scene::{Census, HeapOf, Owner, PagesOf, Sight, Step, module_pieces, pages_of, take_census};
use rh_sheet::Frame;
use rh_sheet::sizes::{FIGURE_WIDTH, LENS_HEIGHT};

/// Writes the heading and the figure of the module area.
pub fn print_module_part<S: Sight, P: Pen>(
    sight: &S,
    step: &Step<'_>,
    lens: Option<LensSize>,
    lists: &mut Lists,
    pen: &mut P,
)
    requires step { IsStepOf (S.desk sight.now) step.now }
    requires lens { IfSome lens IsLensSize }
    ensures { P.offered pen.new ≡ P.offered pen.old
        ++ module_part (looks_of lens) (scene_at (S.desk sight.now) step.now) }
{
    sight.recall_desk();
    let mut note = Row::new();
    add_pages(&mut note, sight.fixed_pages(MODULE_AREA));
    print_area_heading(MODULE_AREA, &note, pen);
    print_bytes(sight, step, lens, lists, pen);
}

/// Writes what lies in the module area, through a lens or at true scale.
fn print_bytes<S: Sight, P: Pen>(
    sight: &S,
    step: &Step<'_>,
    lens: Option<LensSize>,
    lists: &mut Lists,
    pen: &mut P,
)
    requires step { IsStepOf (S.desk sight.now) step.now }
    requires lens { IfSome lens IsLensSize }
    ensures { P.offered pen.new ≡ P.offered pen.old
        ++ (looks_of lens).module_area (scene_at (S.desk sight.now) step.now) }
{
    match lens {
        Some(size) => print_lens_of_module(sight, step, size, lists, pen),
        None => print_module_figure(sight, step, lists, pen),
    }
}

/// Writes the figure of the module area.
fn print_module_figure<S: Sight, P: Pen>(sight: &S, step: &Step<'_>, lists: &mut Lists, pen: &mut P)
    requires { IsStepOf (S.desk sight.now) step.now }
    ensures { P.offered pen.new ≡ P.offered pen.old ++ module_figure (scene_at (S.desk sight.now) step.now) }
{
    sight.recall_desk();
    module_pieces(sight, step, &mut lists.pieces);
    let pages = pages_of(sight, step.pages, PagesOf::Fixed(MODULE_AREA));
    let census = take_census(sight, HeapOf::Module, HEAP_FIRST as u32);
    let frame = Frame {
        pages: rows_for(step, Owner::Area(MODULE_AREA), pages),
        above: 0,
        below: census.count as usize,
    };
    let plot = Plot {
        start: MODULE_START as u32,
        pages,
        pieces: &lists.pieces,
        tint: Tint::Module,
    };
    print_figure_open(FIGURE_WIDTH, height(frame), b"The module area", pen);
    print_description(sight, step, pages, pen);
    print_described(pen);
    print_body(sight, step, frame, &plot, census, pen);
    print_figure_end(pen);
}

/// Writes the module area, which has these pages, as it is read out.
fn print_description<S: Sight, P: Pen>(sight: &S, step: &Step<'_>, pages: &[u16], pen: &mut P)
    requires step { IsStepOf (S.desk sight.now) step.now }
    requires pages { pages.now ≡ (scene_at (S.desk sight.now) step.now).share.pages_of (AreaOf 1) }
    requires few { length pages.now ≤ MAX_PAGES }
    ensures { P.offered pen.new ≡ P.offered pen.old
        ++ escape (module_description (scene_at (S.desk sight.now) step.now)) }
{
    put_pages(pages, pen);
    let band = Band {
        heap: HeapOf::Module,
        handle: Handle(0),
        taking: &[],
    };
    show_heap_cards(sight, step, &band, &BandForm::Told, pen);
}

/// Writes what leads to the cards, the rows, and the cards.
fn print_body<S: Sight, P: Pen>(
    sight: &S,
    step: &Step<'_>,
    frame: Frame,
    plot: &Plot<'_>,
    census: Census,
    pen: &mut P,
)
    requires step { IsStepOf (S.desk sight.now) step.now }
    requires frame { frame ≡ module_frame (scene_at (S.desk sight.now) step.now) }
    requires plot { plot_of plot.now ≡ module_plot (scene_at (S.desk sight.now) step.now) }
    requires census { census ≡ census_of first_place (S.desk sight.now).post.heap.segments }
    ensures { P.offered pen.new ≡ P.offered pen.old ++ module_body (scene_at (S.desk sight.now) step.now) }
{
    sight.recall_desk();
    let high = census.end as usize;
    print_lens_below(frame, HEAP_FIRST, high, census.count, pen);
    print_rows(frame, plot, pen);
    let below = BandForm::Below(foot(frame) + LENS_HEIGHT);
    let band = Band {
        heap: HeapOf::Module,
        handle: Handle(0),
        taking: &[],
    };
    show_heap_cards(sight, step, &band, &below, pen);
}
