//! What has changed of the pool: who takes pages, and which are free again.

ghost use Rattle.std.specs.Prelude.{◌≡◌, ◌≤◌, ◌++◌, flat_map, length};
ghost use Rattle.rh_defs.specs.declared.sizes.TheConstants.{MAX_PAGES};
ghost use Rattle.rh_figure.specs.Changes.{freed_pages, freed_text, page_changes, takes_text};
ghost use Rattle.rh_figure.specs.Share.{holdings};
ghost use Rattle.rh_pictures.specs.PaintedOwners.{IsOwnerOf, holding_seen};
ghost use Rattle.rh_scene.specs.Steps.{IsStepOf, scene_at};

use crate::artist::Artist;
use crate::counts::count_made;
use crate::owners::{OwnerSight, owner_at, takes_row};
use rh_lines::Pen;
use rh_map::freed;
use rh_scene::{Sight, Step, free_of, pages_of};

/// Shows which pages each owner has taken, and which were given back.
pub fn show_page_changes<S: Sight, A: Artist, P: Pen>(
    sight: &S,
    step: &Step<'_>,
    artist: &A,
    pen: &mut P,
)
    requires { IsStepOf (S.desk sight.now) step.now }
    ensures { P.offered pen.new ≡ P.offered pen.old
        ++ flat_map A.change_text (page_changes (scene_at (S.desk sight.now) step.now)) }
{
    show_takes(sight, step, artist, pen);
    show_freed(sight, step, artist, pen);
}

/// Shows what each owner has taken.
fn show_takes<S: Sight, A: Artist, P: Pen>(sight: &S, step: &Step<'_>, artist: &A, pen: &mut P)
    requires { IsStepOf (S.desk sight.now) step.now }
    ensures { P.offered pen.new ≡ P.offered pen.old ++ flat_map A.change_text
        (flat_map (takes_text (scene_at (S.desk sight.now) step.now)) (holdings (S.desk sight.now))) }
{
    let made = count_made(sight);
    let mut k = 0;
    'owners: while let Some(owner) = owner_at(sight, made, k) {
        show_owner_takes(sight, step, &owner, artist, pen);
        k += 1;
    }
}

/// Shows what an owner has taken.
fn show_owner_takes<S: Sight, A: Artist, P: Pen>(
    sight: &S,
    step: &Step<'_>,
    owner: &OwnerSight<'_>,
    artist: &A,
    pen: &mut P,
)
    requires step { IsStepOf (S.desk sight.now) step.now }
    requires owner { IsOwnerOf (S.desk sight.now) owner.now }
    ensures { P.offered pen.new ≡ P.offered pen.old ++ flat_map A.change_text
        (takes_text (scene_at (S.desk sight.now) step.now) (holding_seen owner.now)) }
{
    sight.recall_desk();
    let had = step.kept.count(owner.named.owner());
    if had >= owner.count {
        return;
    }
    let pages = pages_of(sight, step.pages, owner.place);
    artist.change(&takes_row(&owner.named, &pages[had as usize..]), pen);
}

/// Shows which pages were given back, if some were.
fn show_freed<S: Sight, A: Artist, P: Pen>(sight: &S, step: &Step<'_>, artist: &A, pen: &mut P)
    requires { IsStepOf (S.desk sight.now) step.now }
    ensures { P.offered pen.new ≡ P.offered pen.old
        ++ flat_map A.change_text (freed_text (freed_pages (scene_at (S.desk sight.now) step.now))) }
{
    let pages = freed_of(sight, step);
    if pages.is_empty() {
        return;
    }
    artist.change(&freed(pages), pen);
}

/// The pages that were given back.
pub fn freed_of<'a, S: Sight>(sight: &S, step: &Step<'a>) -> &'a [u16]
    requires { IsStepOf (S.desk sight.now) step.now }
    ensures value { result.now ≡ freed_pages (scene_at (S.desk sight.now) step.now) }
    ensures few { length result.now ≤ MAX_PAGES }
{
    sight.recall_desk();
    let free = free_of(sight, step.pages);
    let had = (step.kept.free() as usize).min(free.len());
    &free[had..]
}
