//! Which pages are whose, by the list of all pages of the pool.

ghost use Rattle.std.specs.Prelude.{◌≡◌, ◌≤◌, ◌+◌, IfSome, IsSome, map, take};
ghost use Rattle.std.specs.List.{enumerate_from};
ghost use Rattle.rh_defs.specs.declared.sizes.TheConstants.{FIXED_AREAS};
ghost use Rattle.rh_defs.specs.Desk.{Made, free_pages as free_pages_on, task_pages};
ghost use Rattle.rh_defs.specs.Pieces.{total};
ghost use Rattle.rh_figure.specs.Share.{Holding, IsShared, count_of, fixed_holding, holdings};
ghost use Rattle.rh_scene.specs.SightPages.{share_in};
ghost use Rattle.rh_scene.specs.Inner.OwnerPlaces.{pages_before};
ghost use Rattle.rh_scene.specs.Seen.{owner_seen};

use crate::sight::{PagesOf, Sight};
use rh_defs::sizes::{FIXED_AREAS, MADE_AREAS};

/// The numbers of the free pages, in the order in which they were given back.
pub fn free_of<'a, S: Sight>(sight: &S, pages: &'a [u16]) -> &'a [u16]
    requires { IsShared (share_in pages.now (S.desk sight.now)) (S.desk sight.now) }
    ensures { result.now ≡ (share_in pages.now (S.desk sight.now)).free }
{
    sight.recall_desk();
    &pages[..sight.free_pages() as usize]
}

/// The numbers of an owner's pages, from below.
pub fn pages_of<'a, S: Sight>(sight: &S, pages: &'a [u16], owner: PagesOf) -> &'a [u16]
    requires shared { IsShared (share_in pages.now (S.desk sight.now)) (S.desk sight.now) }
    requires owner { IsSome (owner_seen owner (S.desk sight.now)) }
    ensures { IfSome (owner_seen owner (S.desk sight.now)) (λ o. result.now ≡
        (share_in pages.now (S.desk sight.now)).pages_of o) }
{
    sight.recall_desk();
    let first = first_page(sight, owner);
    &pages[first..][..page_count(sight, owner)]
}

/// How many pages an owner has.
fn page_count<S: Sight>(sight: &S, owner: PagesOf) -> usize
    requires { IsSome (owner_seen owner (S.desk sight.now)) }
    ensures { IfSome (owner_seen owner (S.desk sight.now)) (λ o. result ≡ count_of o (holdings (S.desk sight.now))) }
{
    sight.recall_desk();
    let count = match owner {
        PagesOf::Fixed(number) => sight.fixed_pages(number),
        PagesOf::Made(i) => match sight.made(i) {
            Some(area) => area.pages,
            None => 0,
        },
        PagesOf::Slot(i) => match sight.task(i) {
            Some(task) => task.pages,
            None => 0,
        },
    };
    count as usize
}

/// Where an owner's pages begin in the list.
fn first_page<S: Sight>(sight: &S, owner: PagesOf) -> usize
    requires { IsSome (owner_seen owner (S.desk sight.now)) }
    ensures { result ≡ free_pages_on (S.desk sight.now) + pages_before owner (S.desk sight.now) }
{
    sight.recall_desk();
    let free = sight.free_pages() as usize;
    let fixed = FIXED_AREAS as u32;
    match owner {
        PagesOf::Fixed(number) => free + fixed_before(sight, number),
        PagesOf::Made(i) => free + fixed_before(sight, fixed) + made_before(sight, i),
        PagesOf::Slot(i) => {
            free + fixed_before(sight, fixed)
                + made_before(sight, MADE_AREAS)
                + slots_before(sight, i)
        }
    }
}

/// How many pages the areas below a number have, of areas 0 to 5.
fn fixed_before<S: Sight>(sight: &S, number: u32) -> usize
    requires { number ≤ FIXED_AREAS }
    ensures { result ≡ total (λ (h : Holding). h.1) (take number
        (map (fixed_holding (S.desk sight.now)) (enumerate_from 0 (S.desk sight.now).areas))) }
{
    sight.recall_desk();
    let mut count = 0;
    for below in 0..number {
        count += sight.fixed_pages(below) as usize;
    }
    count
}

/// How many pages the first `most` made areas have.
fn made_before<S: Sight>(sight: &S, most: usize) -> usize
    ensures { result ≡ total (λ (m : Made). m.pages) (take most (S.desk sight.now).made) }
{
    sight.recall_desk();
    let mut count = 0;
    for i in 0..most {
        if let Some(area) = sight.made(i) {
            count += area.pages as usize;
        }
    }
    count
}

/// How many pages the slots of the first `most` tasks have.
fn slots_before<S: Sight>(sight: &S, most: usize) -> usize
    ensures { result ≡ total task_pages (take most (S.desk sight.now).tasks) }
{
    sight.recall_desk();
    let mut count = 0;
    for i in 0..most {
        if let Some(task) = sight.task(i) {
            count += task.pages as usize;
        }
    }
    count
}
