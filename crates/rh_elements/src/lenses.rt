//! What leads from the rows of an area to its cards, and ticks in its anchor words.

ghost use Rattle.std.specs.Prelude.{◌≡◌, ◌≤◌, ◌<◌, ◌+◌, ◌++◌};
ghost use Rattle.rh_defs.specs.Slot.{anchor_count};
ghost use Rattle.rh_defs.specs.declared.sizes.TheConstants.{MAX_PAGES, PAGE};
ghost use Rattle.rh_sheet.specs.SheetAreas.{last_row_place, lens_above, lens_below, tick_text};
ghost use Rattle.rh_sheet.specs.SheetCards.{lens_text};
ghost use Rattle.rh_sheet.specs.declared.sizes.TheConstants.{ROW_WIDTH};

use crate::frames::{foot, top};
use crate::markup::{add_point, add_stretch, print_path};
use rh_defs::sizes::PAGE;
use rh_lines::{Pen, Row};
use rh_sheet::Frame;
use rh_sheet::sizes::{
    CARD_GAP, CARD_PITCH, CARDS_ACROSS, LEFT, LENS_HEIGHT, ROW_GAP, ROW_HEIGHT, UNIT_BYTES,
};

/// Writes what leads from two places of a row at one height to a row of n cards at another.
pub fn print_lens<P: Pen>(x0: u32, x1: u32, y0: u32, n: u32, y1: u32, pen: &mut P)
    requires from { x0 ≤ ROW_WIDTH }
    requires to { x1 ≤ ROW_WIDTH }
    ensures { P.offered pen.new ≡ P.offered pen.old ++ lens_text x0 x1 y0 n y1 }
{
    let mut way = Row::new();
    add_point(&mut way, b"M", LEFT + x0, y0);
    add_point(&mut way, b"L", LEFT + 1, y1);
    add_stretch(
        &mut way,
        b"H",
        LEFT + CARD_PITCH * n.min(CARDS_ACROSS) - (CARD_GAP - 1),
    );
    add_point(&mut way, b"L", LEFT + x1, y0);
    way.byte(b'z');
    print_path(b"lens", &way, pen);
}

/// Writes what leads from the first row of an area, between two of its bytes, to n cards below, where there are some
/// and all those bytes are in that row.
pub fn print_lens_below<P: Pen>(frame: Frame, low: usize, high: usize, n: u32, pen: &mut P)
    requires { low ≤ high }
    ensures { P.offered pen.new ≡ P.offered pen.old ++ lens_below frame low high n }
{
    if n == 0 || high > PAGE {
        return;
    }
    let (x0, x1) = ((low / UNIT_BYTES) as u32, (high / UNIT_BYTES) as u32);
    let y = foot(frame);
    print_lens(
        x0,
        x1,
        y.saturating_sub(ROW_GAP),
        n,
        y + LENS_HEIGHT + 1,
        pen,
    );
}

/// Writes what leads from the last row of an area, between two places of it, to n cards above, where there are some and
/// both places are in that row.
pub fn print_lens_above<P: Pen>(frame: Frame, low: usize, high: usize, n: u32, pen: &mut P)
    requires frame { frame.pages ≤ MAX_PAGES }
    requires order { low ≤ high }
    requires within { high ≤ last_row_place frame + PAGE }
    ensures { P.offered pen.new ≡ P.offered pen.old ++ lens_above frame low high n }
{
    let first = PAGE * frame.pages.saturating_sub(1);
    if n == 0 || low < first {
        return;
    }
    let (x0, x1) = (
        ((low - first) / UNIT_BYTES) as u32,
        ((high - first) / UNIT_BYTES) as u32,
    );
    let y = top(frame);
    print_lens(
        x0,
        x1,
        y + ROW_GAP,
        n,
        y.saturating_sub(LENS_HEIGHT + ROW_GAP),
        pen,
    );
}

/// Writes a tick in an anchor word, in a row at a height.
pub fn print_tick<P: Pen>(y: u32, anchor: u32, pen: &mut P)
    requires { anchor < anchor_count }
    ensures { P.offered pen.new ≡ P.offered pen.old ++ tick_text y anchor }
{
    let mut way = Row::new();
    add_point(&mut way, b"M", LEFT + anchor, y);
    add_stretch(&mut way, b"v", ROW_HEIGHT);
    print_path(b"tick", &way, pen);
}
