//! The lens of a slot, and of the module area, as a figure.

ghost use Rattle.std.specs.Prelude.{◌≡◌, ◌≤◌, ◌+◌, ◌++◌, min};
ghost use Rattle.rh_figure.specs.declared.piece.Piece.{Piece};
ghost use Rattle.rh_lens.specs.Items.{Item};
ghost use Rattle.rh_lens.specs.Lens.{area_lens_text, band_heading, look_text, lower_text, module_strip};
ghost use Rattle.rh_lens.specs.Lens.{module_top as top_of_module, upper_text};
ghost use Rattle.rh_lens.specs.LensBands.{flex_foot as foot_of_flex, heap_foot as foot_of_heap};
ghost use Rattle.rh_lens.specs.LensBands.{heap_room as room_of_heap};
ghost use Rattle.rh_lens.specs.LensBands.{heap_top as top_of_heap, heights_of as heights_of_look};
ghost use Rattle.rh_lens.specs.Inner.FewRows.{AreFew, heights_seen};
ghost use Rattle.rh_lens.specs.Views.{CanBeDrawn, CanBeStripped, ModuleCanBeDrawn, look_of, module_look_of};
ghost use Rattle.rh_lens.specs.declared.sizes.TheConstants.{HEADING, MODULE_SCALE, MOST_PIECES, MOST_SCALE, MOST_WIDTH};

use crate::anchors::{ShownAnchor, anchors_height, heap_left, print_anchors, print_arrows};
use crate::bands::{count_rows, print_band, put_sentences};
use crate::contents::Contents;
use crate::parts::Band;
use crate::sizes::{ARROWS, FOOT, HEADING, HEADING_LINE, MODULE_SCALE, STRIP, STRIP_GAP};
use crate::spots::rows_height;
use crate::strip::print_strip;
use rh_defs::sizes::{MODULE_START, SLOT_START};
use rh_elements::{Tint, print_described, print_figure_end, print_figure_open, print_words};
use rh_figure::Piece;
use rh_lines::{Pen, Row};

/// What the lens of a slot is drawn from, beside what is told of its pieces: the name of its task, its tint, the
/// numbers of its pages, all of its pieces, those of its C heap and those above, and its anchors.
#[derive(Clone, Copy)]
pub struct SlotView<'a> {
    pub name: &'a [u8],
    pub tint: Tint,
    pub pages: &'a [u16],
    pub pieces: &'a [Piece],
    pub heap: &'a [Piece],
    pub flex: &'a [Piece],
    pub anchors: &'a [ShownAnchor],
}

/// What the lens of the module area is drawn from: the numbers of its pages and its pieces.
#[derive(Clone, Copy)]
pub struct ModuleView<'a> {
    pub pages: &'a [u16],
    pub pieces: &'a [Piece],
}

/// How many rows the bands of a slot have, and how many anchors are shown.
#[derive(Clone, Copy)]
struct Heights {
    flex: u32,
    heap: u32,
    anchors: u32,
}

/// Where the bands of a slot begin.
const BANDS_TOP: u32 = STRIP + STRIP_GAP;

// ---- heights

/// Where the flex blocks of so many rows end.
fn flex_foot(rows: u32) -> u32
    requires { rows ≤ MOST_PIECES + 1 }
    ensures value { result ≡ foot_of_flex rows }
    ensures few { result ≤ 100_000 }
{
    BANDS_TOP + HEADING + rows_height(rows)
}

/// Where the C heap begins below flex blocks of so many rows.
fn heap_top(rows: u32) -> u32
    requires { rows ≤ MOST_PIECES + 1 }
    ensures value { result ≡ top_of_heap rows }
    ensures few { result ≤ 101_000 }
{
    if rows == 0 {
        return BANDS_TOP + HEADING;
    }
    flex_foot(rows) + ARROWS + STRIP_GAP
}

/// Where the C heap ends.
fn heap_foot(heights: Heights) -> u32
    requires { AreFew heights }
    ensures value { result ≡ foot_of_heap (heights_seen heights) }
    ensures few { result ≤ 200_000 }
{
    heap_top(heights.flex) + rows_height(heights.heap).max(anchors_height(heights.anchors))
}

/// How wide the rows of a C heap beside so many anchors are, in a lens of so many units.
fn heap_room(width: u32, anchors: u32) -> u32
    ensures { result ≡ room_of_heap width anchors }
{
    width.saturating_sub(heap_left(anchors))
}

/// How many rows the bands of a slot have, in a lens of so many units at a scale.
fn heights_of<C: Contents>(contents: &C, view: &SlotView<'_>, width: u32, scale: u32) -> Heights
    requires view { CanBeDrawn (C.has_piece contents.now) view.now }
    requires width { width ≤ MOST_WIDTH }
    requires scale { scale ≤ MOST_SCALE }
    ensures value { heights_seen result ≡ heights_of_look (look_of (C.item contents.now) view.now) width scale }
    ensures few { AreFew result }
{
    let anchors = view.anchors.len() as u32;
    Heights {
        flex: count_rows(contents, view.flex, width, scale),
        heap: count_rows(contents, view.heap, heap_room(width, anchors), scale),
        anchors,
    }
}

// ---- a slot

/// Writes the name of a band, above its parts.
fn print_band_heading<P: Pen>(name: &[u8], left: u32, top: u32, pen: &mut P)
    requires { HEADING ≤ top }
    ensures { P.offered pen.new ≡ P.offered pen.old ++ band_heading name.now left top }
{
    print_words(b"band", left, top - HEADING + HEADING_LINE, name, pen);
}

/// Writes the flex blocks of a slot in so many rows, and the arrows that lead to them, if there are some.
fn print_upper<C: Contents, P: Pen>(
    contents: &C,
    view: &SlotView<'_>,
    width: u32,
    scale: u32,
    rows: u32,
    pen: &mut P,
)
    requires view { CanBeDrawn (C.has_piece contents.now) view.now }
    requires width { width ≤ MOST_WIDTH }
    requires scale { scale ≤ MOST_SCALE }
    requires rows { rows ≤ MOST_PIECES + 1 }
    ensures { P.offered pen.new ≡ P.offered pen.old
        ++ upper_text (look_of (C.item contents.now) view.now) width scale rows }
{
    if rows == 0 {
        return;
    }
    print_band_heading(b"flex blocks", 0, BANDS_TOP + HEADING, pen);
    let band = Band {
        start: SLOT_START as u32,
        tint: view.tint,
        room: width,
        scale,
        left: 0,
        foot: flex_foot(rows),
    };
    print_band(contents, view.flex, &band, pen);
    print_arrows(
        contents,
        view.flex,
        &band,
        heap_top(rows),
        view.anchors,
        pen,
    );
}

/// Writes the anchors and the C heap of a slot.
fn print_lower<C: Contents, P: Pen>(
    contents: &C,
    view: &SlotView<'_>,
    width: u32,
    scale: u32,
    heights: Heights,
    pen: &mut P,
)
    requires view { CanBeDrawn (C.has_piece contents.now) view.now }
    requires width { width ≤ MOST_WIDTH }
    requires scale { scale ≤ MOST_SCALE }
    requires few { AreFew heights }
    ensures { P.offered pen.new ≡ P.offered pen.old
        ++ lower_text (look_of (C.item contents.now) view.now) width scale (heights_seen heights) }
{
    let top = heap_top(heights.flex);
    print_anchors(top, view.anchors, pen);
    let count = view.anchors.len() as u32;
    let left = heap_left(count);
    print_band_heading(b"C heap", left, top, pen);
    let band = Band {
        start: SLOT_START as u32,
        tint: view.tint,
        room: heap_room(width, count),
        scale,
        left,
        foot: heap_foot(heights),
    };
    print_band(contents, view.heap, &band, pen);
}

/// Writes the lens of a slot, so many units wide, with so many units for 8 bytes.
pub fn print_slot_lens<C: Contents, P: Pen>(
    contents: &C,
    view: &SlotView<'_>,
    width: u32,
    scale: u32,
    pen: &mut P,
)
    requires view { CanBeDrawn (C.has_piece contents.now) view.now }
    requires width { width ≤ MOST_WIDTH }
    requires scale { scale ≤ MOST_SCALE }
    ensures { P.offered pen.new ≡ P.offered pen.old
        ++ look_text (look_of (C.item contents.now) view.now) width scale }
{
    contents.recall_items();
    let heights = heights_of(contents, view, width, scale);
    let mut title = Row::new();
    title.text(b"The slot of ");
    title.text(view.name);
    print_figure_open(width, heap_foot(heights) + FOOT, title.as_slice(), pen);
    let start = SLOT_START as u32;
    put_sentences(start, view.heap, pen);
    put_sentences(start, view.flex, pen);
    print_described(pen);
    print_strip(start, width, view.tint, view.pages, view.pieces, pen);
    print_upper(contents, view, width, scale, heights.flex, pen);
    print_lower(contents, view, width, scale, heights, pen);
    print_figure_end(pen);
}

// ---- the module area

/// Where the parts of the module area begin: a strip is drawn only of more than one page.
fn module_top(pages: usize) -> u32
    ensures value { result ≡ top_of_module pages }
    ensures few { result ≤ 100 }
{
    if 1 < pages { BANDS_TOP } else { FOOT }
}

/// Writes the strip of the module area, if it has more than one page.
fn print_module_strip<P: Pen>(view: &ModuleView<'_>, width: u32, pen: &mut P)
    requires view { CanBeStripped view.now.pages.now view.now.pieces.now }
    requires width { width ≤ MOST_WIDTH }
    ensures { (item : Piece → Item) → P.offered pen.new ≡ P.offered pen.old
        ++ module_strip (module_look_of item view.now) width }
{
    if view.pages.len() <= 1 {
        return;
    }
    let start = MODULE_START as u32;
    print_strip(start, width, Tint::Module, view.pages, view.pieces, pen);
}

/// Writes the lens of the module area, so many units wide, with so many units for 8 bytes, but at most one unit a byte.
pub fn print_module_lens<C: Contents, P: Pen>(
    contents: &C,
    view: &ModuleView<'_>,
    width: u32,
    scale: u32,
    pen: &mut P,
)
    requires view { ModuleCanBeDrawn (C.has_piece contents.now) view.now }
    requires width { width ≤ MOST_WIDTH }
    requires scale { scale ≤ MOST_SCALE }
    ensures { P.offered pen.new ≡ P.offered pen.old
        ++ area_lens_text (module_look_of (C.item contents.now) view.now) width (min scale MODULE_SCALE) }
{
    contents.recall_items();
    let scale = scale.min(MODULE_SCALE);
    let start = MODULE_START as u32;
    let foot = module_top(view.pages.len())
        + rows_height(count_rows(contents, view.pieces, width, scale));
    print_figure_open(width, foot + FOOT, b"The module area", pen);
    put_sentences(start, view.pieces, pen);
    print_described(pen);
    print_module_strip(view, width, pen);
    let band = Band {
        start,
        tint: Tint::Module,
        room: width,
        scale,
        left: 0,
        foot,
    };
    print_band(contents, view.pieces, &band, pen);
    print_figure_end(pen);
}
