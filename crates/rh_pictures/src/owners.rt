//! The owners of pages, one after the other.

ghost use Rattle.std.specs.Prelude.{◌≡◌, ◌≤◌, ◌<◌, ◌+◌, ◌++◌, IfNone, IfSome, length, slice_get, None};
ghost use Rattle.rh_defs.specs.Desk.{most_made};
ghost use Rattle.rh_defs.specs.declared.sizes.TheConstants.{FIXED_AREAS, MAX_AREAS, MAX_PAGES};
ghost use Rattle.rh_figure.specs.Changes.{taken_line};
ghost use Rattle.rh_figure.specs.Share.{holdings};
ghost use Rattle.rh_lines.specs.declared.row.TheConstants.{ROW};
ghost use Rattle.rh_pictures.specs.PaintedOwners.{IsOwnerSeen, name_seen, tag_seen, tint_seen, who_seen};
ghost use Rattle.rh_sheet.specs.Owners.{area_tag as tag_of_area, slot_tag as tag_of_slot};
ghost use Rattle.rh_sheet.specs.declared.sizes.TheConstants.{TAG_LETTERS};
ghost use Rattle.rh_scene.specs.SightOwners.{shared_owner};

use rh_defs::sizes::{FIXED_AREAS, MODULE_AREA};
use rh_defs::{Handle, Name};
use rh_elements::Tint;
use rh_lines::Row;
use rh_map::{add_area_name, add_slot_name, area_takes, slot_takes};
use rh_scene::{Owner, PagesOf, Sight};
use rh_sheet::sizes::TAG_LETTERS;

/// An owner by name: an area by its number, or the slot of the task with the handle and the name.
#[derive(Clone, Copy)]
pub enum Named<'a> {
    Area(u32),
    Slot(Handle, &'a Name),
}

/// An owner, where its pages are found, and how many it has.
#[derive(Clone, Copy)]
pub struct OwnerSight<'a> {
    pub named: Named<'a>,
    pub place: PagesOf,
    pub count: u32,
}

/// The owner at a place among all: areas 0 to 5, the made ones in order of number, and the slots in order of handle;
/// None past the last. So many areas were made.
pub fn owner_at<S: Sight>(sight: &S, made: usize, k: usize) -> Option<OwnerSight<'_>>
    requires made { made ≡ length (S.desk sight.now).made }
    requires few { made ≤ most_made }
    ensures some { IfSome result (λ o. IsOwnerSeen (S.desk sight.now) k o) }
    ensures none { IfNone result (slice_get (holdings (S.desk sight.now)) k ≡ None) }
    ensures few { length (holdings (S.desk sight.now)) ≤ MAX_AREAS }
{
    sight.recall_desk();
    if k < FIXED_AREAS {
        Some(fixed_owner(sight, k))
    } else if k < FIXED_AREAS + made {
        made_owner(sight, k - FIXED_AREAS)
    } else {
        slot_owner(sight, k - FIXED_AREAS - made)
    }
}

/// One of areas 0 to 5.
fn fixed_owner<S: Sight>(sight: &S, k: usize) -> OwnerSight<'_>
    requires { k < FIXED_AREAS }
    ensures { IsOwnerSeen (S.desk sight.now) k result }
{
    sight.recall_desk();
    let number = k as u32;
    OwnerSight {
        named: Named::Area(number),
        place: PagesOf::Fixed(number),
        count: sight.fixed_pages(number),
    }
}

/// The made area at a place in order of number.
fn made_owner<S: Sight>(sight: &S, i: usize) -> Option<OwnerSight<'_>>
    ensures some { IfSome result (λ o. IsOwnerSeen (S.desk sight.now) (FIXED_AREAS + i) o) }
    ensures none { IfNone result (slice_get (S.desk sight.now).made i ≡ None) }
{
    sight.recall_desk();
    match sight.made(i) {
        Some(area) => Some(OwnerSight {
            named: Named::Area(area.number),
            place: PagesOf::Made(i),
            count: area.pages,
        }),
        None => None,
    }
}

/// The slot of the task at a place in order of handle.
fn slot_owner<S: Sight>(sight: &S, i: usize) -> Option<OwnerSight<'_>>
    ensures some { IfSome result (λ o. IsOwnerSeen (S.desk sight.now)
        (FIXED_AREAS + length (S.desk sight.now).made + i) o) }
    ensures none { IfNone result (slice_get (S.desk sight.now).tasks i ≡ None) }
{
    sight.recall_desk();
    match sight.task(i) {
        Some(task) => Some(OwnerSight {
            named: Named::Slot(task.handle, task.name),
            place: PagesOf::Slot(i),
            count: task.pages,
        }),
        None => None,
    }
}

impl<'a> Named<'a> {
    /// The owner, as what is kept of a desk has it.
    pub fn owner(&self) -> Owner
        ensures { shared_owner result ≡ who_seen self.now }
    {
        match self {
            Named::Area(number) => Owner::Area(*number),
            Named::Slot(handle, _) => Owner::Slot(*handle),
        }
    }

    /// The owner's tint.
    pub fn tint(&self) -> Tint
        ensures { result ≡ tint_seen self.now }
    {
        match self {
            Named::Area(MODULE_AREA) => Tint::Module,
            Named::Area(_) => Tint::Other,
            Named::Slot(handle, _) => Tint::Slot(handle.0),
        }
    }

    /// Adds the owner's name.
    pub fn add_name(&self, row: &mut Row)
        requires { length row.old + 17 ≤ ROW }
        ensures value { row.new ≡ row.old ++ name_seen self.now }
        ensures few { length row.new ≤ length row.old + 17 }
    {
        match self {
            Named::Area(number) => add_area_name(row, *number),
            Named::Slot(_, name) => add_slot_name(row, name),
        }
    }

    /// The owner's tag on its pages.
    pub fn tag(&self) -> Row
        ensures value { result ≡ tag_seen self.now }
        ensures few { length result ≤ TAG_LETTERS }
    {
        match self {
            Named::Area(number) => area_tag(*number),
            Named::Slot(_, name) => slot_tag(name),
        }
    }
}

/// That an owner takes these pages.
pub fn takes_row(named: &Named<'_>, pages: &[u16]) -> Row
    requires { length pages.now ≤ MAX_PAGES }
    ensures value { result ≡ taken_line (name_seen named.now) pages.now }
    ensures few { length result ≤ 200 }
{
    match named {
        Named::Area(number) => area_takes(*number, pages),
        Named::Slot(_, name) => slot_takes(name, pages),
    }
}

/// The tag of an area; a made one has the last digits of its number.
fn area_tag(number: u32) -> Row
    ensures value { result ≡ tag_of_area number }
    ensures few { length result ≤ TAG_LETTERS }
{
    let mut digits = Row::new();
    digits.decimal(number);
    let all = digits.as_slice();
    let mut tag = Row::new();
    tag.text(match number {
        0 => b"sys",
        1 => b"mod",
        2 => b"scr",
        3 => b"spr",
        4 => b"fnt",
        5 => b"ram",
        _ => &all[all.len().saturating_sub(TAG_LETTERS)..],
    });
    tag
}

/// The tag of a slot, from its task's name.
fn slot_tag(name: &Name) -> Row
    ensures value { result ≡ tag_of_slot name.now }
    ensures few { length result ≤ TAG_LETTERS }
{
    let all = name.as_bytes();
    let mut tag = Row::new();
    tag.text(&all[..all.len().min(TAG_LETTERS)]);
    tag
}
