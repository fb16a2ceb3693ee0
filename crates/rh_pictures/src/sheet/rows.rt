//! The rows of an owner's pages.

ghost use Rattle.std.specs.Prelude.{◌≡◌, ◌≤◌, ◌++◌, length, max, min};
ghost use Rattle.rh_defs.specs.declared.sizes.TheConstants.{MAX_PAGES};
ghost use Rattle.rh_figure.specs.Share.{count_of};
ghost use Rattle.rh_sheet.specs.SheetAreas.{pages_sentence};
ghost use Rattle.rh_sheet.specs.Markup.{escape};
ghost use Rattle.rh_scene.specs.SightOwners.{shared_owner};

use rh_defs::sizes::MAX_PAGES;
use rh_elements::put_escaped;
use rh_lines::{Pen, Row};
use rh_map::add_numbers;
use rh_scene::{Owner, Step};

/// An owner has a row for each of its pages, and for each that it has given back, of which no pool has more.
pub fn rows_for(step: &Step<'_>, owner: Owner, pages: &[u16]) -> usize
    ensures { result ≡ min MAX_PAGES (max (length pages.now) (count_of
        (shared_owner owner) step.now.kept.now.holdings)) }
{
    let most = pages.len().max(step.kept.count(owner) as usize);
    most.min(MAX_PAGES)
}

/// Writes which pages an area has, as it is read out.
pub fn put_pages<P: Pen>(pages: &[u16], pen: &mut P)
    requires { length pages.now ≤ MAX_PAGES }
    ensures { P.offered pen.new ≡ P.offered pen.old ++ escape (pages_sentence pages.now) }
{
    let mut row = Row::new();
    row.text(b"Page ");
    add_numbers(&mut row, pages);
    row.text(b". ");
    put_escaped(row.as_slice(), pen);
}
