//! The figure of the pool: a square for each page, with its owner's tint and tag.

ghost use Rattle.std.specs.Prelude.{◌≡◌, ◌≤◌, ◌<◌, ◌∷◌, ◌++◌, [], codes, length};
ghost use Rattle.std.specs.List.{concat, flat_map};
ghost use Rattle.rh_defs.specs.Forms.{most_pages};
ghost use Rattle.rh_defs.specs.declared.sizes.TheConstants.{MAX_PAGES};
ghost use Rattle.rh_figure.specs.Phrases.{listed_numbers};
ghost use Rattle.rh_figure.specs.Share.{holdings};
ghost use Rattle.rh_pictures.specs.PaintedOwners.{IsOwnerOf, holding_seen, name_seen, who_seen};
ghost use Rattle.rh_sheet.specs.Markup.{escape};
ghost use Rattle.rh_sheet.specs.Pool.{freed_squares, owner_classes, owner_sentence, owner_squares, pool_body};
ghost use Rattle.rh_sheet.specs.Pool.{pool_description, pool_figure, pool_height as height_of_pool, tags_text};
ghost use Rattle.rh_scene.specs.Steps.{IsStepOf, scene_at};

use crate::counts::count_made;
use crate::owners::{Named, OwnerSight, owner_at, takes_row};
use crate::walks::page_changes::freed_of;
use rh_elements::{
    add_tint, print_described, print_figure_end, print_figure_open, print_pool_side, print_squares,
    print_tags, put_escaped,
};
use rh_lines::{Pen, Row};
use rh_map::{add_numbers, freed};
use rh_scene::{Sight, Step, pages_of};
use rh_sheet::sizes::{CELL, FIGURE_WIDTH, FRAME_EDGE, POOL_COLUMNS};

/// Writes the figure of the pool.
pub fn print_pool_figure<S: Sight, P: Pen>(sight: &S, step: &Step<'_>, pen: &mut P)
    requires { IsStepOf (S.desk sight.now) step.now }
    ensures { P.offered pen.new ≡ P.offered pen.old ++ pool_figure (scene_at (S.desk sight.now) step.now) }
{
    sight.recall_desk();
    let pages = step.pages.len() as u32;
    let height = pool_height(pages) + FRAME_EDGE;
    print_figure_open(FIGURE_WIDTH, height, b"The pool of pages", pen);
    print_description(sight, step, pen);
    print_described(pen);
    print_body(sight, step, pen);
    print_figure_end(pen);
}

/// The height of so many pages.
fn pool_height(pages: u32) -> u32
    requires { pages ≤ MAX_PAGES }
    ensures value { result ≡ height_of_pool pages }
    ensures few { result ≤ most_pages }
{
    CELL * ((pages + (POOL_COLUMNS - 1)) / POOL_COLUMNS)
}

/// Writes the pool as it is read out.
fn print_description<S: Sight, P: Pen>(sight: &S, step: &Step<'_>, pen: &mut P)
    requires { IsStepOf (S.desk sight.now) step.now }
    ensures { P.offered pen.new ≡ P.offered pen.old
        ++ escape (pool_description (scene_at (S.desk sight.now) step.now)) }
{
    sight.recall_desk();
    let made = count_made(sight);
    let mut k = 0;
    'owners: while let Some(owner) = owner_at(sight, made, k) {
        print_sentence(sight, step, &owner, pen);
        k += 1;
    }
    let mut row = Row::new();
    row.decimal(sight.free_pages());
    row.text(b" of ");
    row.decimal(step.pages.len() as u32);
    row.text(b" free.");
    put_escaped(row.as_slice(), pen);
}

/// Writes the pages of an owner as they are read out, where it has some.
fn print_sentence<S: Sight, P: Pen>(sight: &S, step: &Step<'_>, owner: &OwnerSight<'_>, pen: &mut P)
    requires step { IsStepOf (S.desk sight.now) step.now }
    requires owner { IsOwnerOf (S.desk sight.now) owner.now }
    ensures { P.offered pen.new ≡ P.offered pen.old ++ escape (owner_sentence (name_seen owner.now.named)
        ((scene_at (S.desk sight.now) step.now).share.pages_of (who_seen owner.now.named))) }
{
    sight.recall_desk();
    let pages = pages_of(sight, step.pages, owner.place);
    if pages.is_empty() {
        return;
    }
    let mut row = pages_row(&owner.named, pages);
    row.text(b". ");
    put_escaped(row.as_slice(), pen);
}

/// An owner's pages.
fn pages_row(named: &Named<'_>, pages: &[u16]) -> Row
    requires { length pages.now ≤ MAX_PAGES }
    ensures value { result ≡ concat (name_seen named.now ∷ codes ": page " ∷ listed_numbers pages.now ∷ []) }
    ensures few { length result ≤ 190 }
{
    let mut row = Row::new();
    named.add_name(&mut row);
    row.text(b": page ");
    add_numbers(&mut row, pages);
    row
}

/// Writes all squares, the grid upon them, tags, and what stands at the left.
fn print_body<S: Sight, P: Pen>(sight: &S, step: &Step<'_>, pen: &mut P)
    requires { IsStepOf (S.desk sight.now) step.now }
    ensures { P.offered pen.new ≡ P.offered pen.old ++ pool_body (scene_at (S.desk sight.now) step.now) }
{
    sight.recall_desk();
    print_all_squares(sight, step, pen);
    print_freed_squares(sight, step, pen);
    pen.put(b"<use href=\"#grid\"/>\n");
    print_all_tags(sight, step, pen);
    print_pool_side(sight.free_pages(), step.pages.len() as u32, pen);
}

/// Writes the squares of all owners.
fn print_all_squares<S: Sight, P: Pen>(sight: &S, step: &Step<'_>, pen: &mut P)
    requires { IsStepOf (S.desk sight.now) step.now }
    ensures { let x = scene_at (S.desk sight.now) step.now in
        P.offered pen.new ≡ P.offered pen.old ++ flat_map (owner_squares x) (holdings (S.desk sight.now)) }
{
    let made = count_made(sight);
    let mut k = 0;
    'owners: while let Some(owner) = owner_at(sight, made, k) {
        print_owner_squares(sight, step, &owner, pen);
        k += 1;
    }
}

/// Writes the squares of an owner: of the pages that it had, and of those that it has taken.
fn print_owner_squares<S: Sight, P: Pen>(
    sight: &S,
    step: &Step<'_>,
    owner: &OwnerSight<'_>,
    pen: &mut P,
)
    requires step { IsStepOf (S.desk sight.now) step.now }
    requires owner { IsOwnerOf (S.desk sight.now) owner.now }
    ensures { P.offered pen.new ≡ P.offered pen.old
        ++ owner_squares (scene_at (S.desk sight.now) step.now) (holding_seen owner.now) }
{
    sight.recall_desk();
    let pages = pages_of(sight, step.pages, owner.place);
    let had = (step.kept.count(owner.named.owner()) as usize).min(pages.len());
    let (kept, taken) = pages.split_at(had);
    let tip = pages_row(&owner.named, pages);
    print_squares(
        square_class(&owner.named, false).as_slice(),
        kept,
        tip.as_slice(),
        pen,
    );
    let tip = takes_row(&owner.named, taken);
    print_squares(
        square_class(&owner.named, true).as_slice(),
        taken,
        tip.as_slice(),
        pen,
    );
}

/// The classes of an owner's squares.
fn square_class(named: &Named<'_>, fresh: bool) -> Row
    ensures value { result ≡ owner_classes (who_seen named.now) fresh }
    ensures few { length result ≤ 40 }
{
    let mut class = Row::new();
    class.text(b"cell ");
    add_tint(&mut class, named.tint());
    if fresh {
        class.text(b" fresh");
    }
    class
}

/// Writes the squares of the pages that were given back.
fn print_freed_squares<S: Sight, P: Pen>(sight: &S, step: &Step<'_>, pen: &mut P)
    requires { IsStepOf (S.desk sight.now) step.now }
    ensures { P.offered pen.new ≡ P.offered pen.old ++ freed_squares (scene_at (S.desk sight.now) step.now) }
{
    let pages = freed_of(sight, step);
    print_squares(b"freed", pages, freed(pages).as_slice(), pen);
}

/// Writes the tags of all owners' pages.
fn print_all_tags<S: Sight, P: Pen>(sight: &S, step: &Step<'_>, pen: &mut P)
    requires { IsStepOf (S.desk sight.now) step.now }
    ensures { let x = scene_at (S.desk sight.now) step.now in
        P.offered pen.new ≡ P.offered pen.old ++ flat_map (tags_text x) (holdings (S.desk sight.now)) }
{
    let made = count_made(sight);
    let mut k = 0;
    'owners: while let Some(owner) = owner_at(sight, made, k) {
        let pages = pages_of(sight, step.pages, owner.place);
        print_tags(owner.named.tag().as_slice(), pages, pen);
        k += 1;
    }
}
