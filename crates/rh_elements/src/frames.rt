//! Where the parts of an area's figure stand.

ghost use Rattle.std.specs.Prelude.{◌≡◌, ◌≤◌, ◌<◌, ◌^◌};
ghost use Rattle.rh_figure.specs.declared.limits.TheConstants.{MOST_ROWS};
ghost use Rattle.rh_sheet.specs.Frames.{band_height as band_height_of, first_beside as first_page_beside};
ghost use Rattle.rh_sheet.specs.Frames.{frame_height as height_of};
ghost use Rattle.rh_sheet.specs.Frames.{page_in as page_in_row, frame_row as row_of_page, row_y as row_y_of};
ghost use Rattle.rh_sheet.specs.Frames.{rows_foot as foot_of, rows_top as top_of, shown_rows as shown_rows_of};

use rh_figure::limits::{EDGE_ROWS, MOST_CARDS, MOST_ROWS};
use rh_sheet::Frame;
use rh_sheet::sizes::{CARD_RISE, CARDS_ACROSS, FRAME_EDGE, LENS_HEIGHT, ROW_GAP, ROW_PITCH};

/// So many rows show an area of n pages.
pub fn shown_rows(n: usize) -> usize
    ensures value { result ≡ shown_rows_of n }
    ensures few { result ≤ MOST_ROWS }
{
    n.min(MOST_ROWS)
}

/// The page in row i from below of n pages, which that many rows show; None for the row that counts those between.
pub fn page_in(n: usize, i: usize) -> Option<usize>
    requires { i < shown_rows_of n }
    ensures { result ≡ page_in_row n i }
{
    if n <= MOST_ROWS || i < EDGE_ROWS {
        Some(i)
    } else if i == EDGE_ROWS {
        None
    } else {
        Some(n - (MOST_ROWS - i))
    }
}

/// The lowest page of those whose rows stand together with row i from below of n pages.
pub fn first_beside(n: usize, i: usize) -> usize
    ensures { result ≡ first_page_beside n i }
{
    if n <= MOST_ROWS || i < EDGE_ROWS {
        0
    } else {
        n - EDGE_ROWS
    }
}

/// The row from below of page k of n pages; None where it has no row.
pub fn row_of(n: usize, k: usize) -> Option<usize>
    requires { k < 2 ^ 32 }
    ensures { result ≡ row_of_page n k }
{
    if n <= MOST_ROWS || k < EDGE_ROWS {
        Some(k)
    } else if n <= k + EDGE_ROWS {
        Some(k + MOST_ROWS - n)
    } else {
        None
    }
}

/// The height of n cards with what leads to them.
pub fn band_height(n: usize) -> u32
    ensures value { result ≡ band_height_of n }
    ensures few { result ≤ 280 }
{
    if n == 0 {
        return 0;
    }
    let shown = n.min(MOST_CARDS) as u32;
    CARD_RISE * ((shown + (CARDS_ACROSS - 1)) / CARDS_ACROSS) + LENS_HEIGHT
}

/// Where the rows begin.
pub fn top(frame: Frame) -> u32
    ensures value { result ≡ top_of frame }
    ensures few { result ≤ 280 }
{
    band_height(frame.above)
}

/// Where the rows end.
pub fn foot(frame: Frame) -> u32
    ensures value { result ≡ foot_of frame }
    ensures few { result ≤ 790 }
{
    top(frame) + ROW_PITCH * shown_rows(frame.pages) as u32
}

/// The height of the figure.
pub fn height(frame: Frame) -> u32
    ensures { result ≡ height_of frame }
{
    foot(frame) + band_height(frame.below) + FRAME_EDGE
}

/// The upper edge of row i from below.
pub fn row_y(frame: Frame, i: usize) -> u32
    ensures value { result ≡ row_y_of frame i }
    ensures few { result ≤ 800 }
{
    let above = shown_rows(frame.pages).saturating_sub(1).saturating_sub(i);
    top(frame) + ROW_PITCH * above as u32 + ROW_GAP
}
