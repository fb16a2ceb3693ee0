//! The pool: a character for each page, that of its owner.

ghost use Rattle.std.specs.Prelude.{◌≡◌, ◌∷◌, ◌++◌, [], length, map, replicate};
ghost use Rattle.std.specs.List.{range_with_len};
ghost use Rattle.rh_pictures.specs.Parts.{pool_part, slot_panels};
ghost use Rattle.rh_pictures.specs.Inner.Marked.{made_pages, marked, marked_all, slot_pages_from};
ghost use Rattle.rh_figure.specs.Figure.{owner_of};
ghost use Rattle.rh_figure.specs.Rows.{page_mark};
ghost use Rattle.rh_map.specs.Written.{shown_lines};
ghost use Rattle.rh_scene.specs.SightPages.{share_in};
ghost use Rattle.rh_scene.specs.Steps.{IsStepOf, scene_at};

use crate::lists::Lists;
use rh_defs::sizes::FIXED_AREAS;
use rh_lines::Pen;
use rh_map::{area_mark, print_pool, print_pool_heading, slot_mark};
use rh_scene::{PagesOf, Sight, Step, pages_of};

/// The character of a free page.
const FREE: u8 = b'.';

/// Writes how many pages are free, and the rows of the pool.
pub fn print_pool_part<S: Sight, P: Pen>(sight: &S, step: &Step<'_>, lists: &mut Lists, pen: &mut P)
    requires { IsStepOf (S.desk sight.now) step.now }
    ensures { P.offered pen.new ≡ P.offered pen.old ++ shown_lines (pool_part (scene_at (S.desk sight.now) step.now)) }
{
    sight.recall_desk();
    let pool = step.pages.len();
    print_pool_heading(sight.free_pages(), pool as u32, pen);
    let marks = &mut lists.marks[..pool];
    mark_pool(sight, step, marks);
    print_pool(marks, pen);
}

/// Writes the character of each page's owner over a row of as many characters as the pool has pages.
fn mark_pool<S: Sight>(sight: &S, step: &Step<'_>, marks: &mut [u8])
    requires step { IsStepOf (S.desk sight.now) step.now }
    requires pool { length marks.old ≡ (S.desk sight.now).pool }
    ensures { let x = scene_at (S.desk sight.now) step.now in
        marks.new ≡ map (λ k. page_mark (slot_panels x) (owner_of x k)) (range_with_len 0 (S.desk sight.now).pool) }
{
    sight.recall_desk();
    clear(marks);
    for number in 0..FIXED_AREAS as u32 {
        let pages = pages_of(sight, step.pages, PagesOf::Fixed(number));
        mark_pages(marks, pages, area_mark(number));
    }
    mark_made(sight, step, marks);
    mark_slots(sight, step, marks);
}

/// Marks all pages as free.
fn clear(marks: &mut [u8])
    ensures { marks.new ≡ replicate (length marks.old) 46 }
{
    for mark in marks.iter_mut() {
        *mark = FREE;
    }
}

/// Marks the pages of the made areas.
fn mark_made<S: Sight>(sight: &S, step: &Step<'_>, marks: &mut [u8])
    requires { IsStepOf (S.desk sight.now) step.now }
    ensures { marks.new ≡ marked_all (map (made_pages (share_in step.now.pages.now (S.desk sight.now)))
        (S.desk sight.now).made) marks.old }
{
    sight.recall_desk();
    let mut i = 0;
    'areas: while let Some(area) = sight.made(i) {
        let pages = pages_of(sight, step.pages, PagesOf::Made(i));
        mark_pages(marks, pages, area_mark(area.number));
        i += 1;
    }
}

/// Marks the pages of the slots.
fn mark_slots<S: Sight>(sight: &S, step: &Step<'_>, marks: &mut [u8])
    requires { IsStepOf (S.desk sight.now) step.now }
    ensures { marks.new ≡ marked_all (slot_pages_from (share_in step.now.pages.now (S.desk sight.now)) 0
        (S.desk sight.now).tasks) marks.old }
{
    sight.recall_desk();
    let mut i = 0;
    'tasks: while let Some(_task) = sight.task(i) {
        let pages = pages_of(sight, step.pages, PagesOf::Slot(i));
        mark_pages(marks, pages, slot_mark(i));
        i += 1;
    }
}

/// Writes a character over those of these pages that are still free.
fn mark_pages(marks: &mut [u8], pages: &[u16], mark: u8)
    ensures { marks.new ≡ marked pages.now mark marks.old }
{
    for page in pages {
        mark_page(marks, *page, mark);
    }
}

/// Writes a character over a page that is still free.
fn mark_page(marks: &mut [u8], page: u16, mark: u8)
    ensures { marks.new ≡ marked (page ∷ []) mark marks.old }
{
    let k = usize::from(page);
    if k < marks.len() && marks[k] == FREE {
        marks[k] = mark;
    }
}
