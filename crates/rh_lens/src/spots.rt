//! Where parts stand: in rows, from the left and from below.

ghost use Rattle.std.specs.Prelude.{◌≡◌, ◌≤◌, ◌<◌, ◌+◌, ◌^◌};
ghost use Rattle.rh_elements.specs.DrawPieces.{IsDrawable};
ghost use Rattle.rh_lens.specs.Items.{Item};
ghost use Rattle.rh_lens.specs.LensSpots.{has_place as has_place_in};
ghost use Rattle.rh_lens.specs.LensSpots.{next_spot as spot_of_next};
ghost use Rattle.rh_lens.specs.LensSpots.{rows_height as height_of_rows, spot_y as y_of_spot, width_left};
ghost use Rattle.rh_lens.specs.PlacedSpots.{part_spot};
ghost use Rattle.rh_lens.specs.ToldInside.{IsTold};
ghost use Rattle.rh_lens.specs.declared.sizes.TheConstants.{GAP, MOST_SCALE, MOST_WIDTH};

use crate::contents::Inside;
use crate::sizes::{FREE_LEAST, GAP, PART, ROW_GAP};
use crate::widths::{is_free, part_width};
use rh_figure::{Kind, Piece};

/// How far from the left end of its row a part begins, how wide it is, and the number of its row from below.
#[derive(Clone, Copy)]
pub struct Spot {
    pub x: u32,
    pub width: u32,
    pub row: u32,
}

/// Rows of so many units, at a scale, in the last of which x units are taken.
#[derive(Clone, Copy)]
pub struct Flow {
    pub room: u32,
    pub scale: u32,
    pub x: u32,
    pub row: u32,
}

impl Flow {
    /// Rows without a part.
    pub fn new(room: u32, scale: u32) -> Flow
        ensures { result ≡ record { room = room; scale = scale; x = 0; row = 0 } }
    {
        Flow {
            room,
            scale,
            x: 0,
            row: 0,
        }
    }

    /// The next part takes its place.
    pub fn take(&mut self, piece: &Piece, inside: &Inside) -> Spot
        requires room { self.old.room ≤ MOST_WIDTH }
        requires scale { self.old.scale ≤ MOST_SCALE }
        requires taken { self.old.x ≤ MOST_WIDTH + GAP }
        requires rows { self.old.row < 2 ^ 31 }
        requires piece { IsDrawable piece.now }
        ensures spot { (i : Item) → IsTold inside.now piece.now i → part_spot i result
            ≡ spot_of_next self.old.room self.old.scale self.old.x self.old.row i }
        ensures rest { self.new ≡ record self.old { x = result.x + result.width + GAP; row = result.row } }
        ensures within { result.x + result.width ≤ self.old.room }
        ensures rows { result.row ≤ self.old.row + 1 }
    {
        let spot = next_spot(*self, piece, inside);
        self.x = spot.x + spot.width + GAP;
        self.row = spot.row;
        spot
    }
}

/// Where the next part stands.
fn next_spot(flow: Flow, piece: &Piece, inside: &Inside) -> Spot
    requires room { flow.room ≤ MOST_WIDTH }
    requires scale { flow.scale ≤ MOST_SCALE }
    requires taken { flow.x ≤ MOST_WIDTH + GAP }
    requires rows { flow.row < 2 ^ 31 }
    requires piece { IsDrawable piece.now }
    ensures spot { (i : Item) → IsTold inside.now piece.now i → part_spot i result
        ≡ spot_of_next flow.room flow.scale flow.x flow.row i }
    ensures within { result.x + result.width ≤ flow.room }
    ensures rows { result.row ≤ flow.row + 1 }
{
    let whole = part_width(flow.room, flow.scale, piece, inside);
    let width = width_at(flow.room, flow.x, piece.kind, whole);
    if has_place(flow.room, flow.x, width) {
        return Spot {
            x: flow.x,
            width,
            row: flow.row,
        };
    }
    Spot {
        x: 0,
        width: whole,
        row: flow.row + 1,
    }
}

/// Whether a part of so many units has room behind x.
fn has_place(room: u32, x: u32, width: u32) -> bool
    requires x { x ≤ MOST_WIDTH + GAP }
    requires width { width ≤ MOST_WIDTH }
    ensures { result ≡ has_place_in room x width }
{
    x == 0 || x + width <= room
}

/// How wide a part of so many units is behind x: what is free takes what is left, if that is enough.
fn width_at(room: u32, x: u32, kind: Kind, whole: u32) -> u32
    requires x { x ≤ MOST_WIDTH + GAP }
    requires whole { whole ≤ room }
    requires room { room ≤ MOST_WIDTH }
    ensures value { result ≡ width_left room x kind whole }
    ensures few { result ≤ room }
{
    if x + whole > room && is_free(kind) && x + FREE_LEAST <= room {
        return room - x;
    }
    whole
}

/// How high so many rows are.
pub fn rows_height(rows: u32) -> u32
    requires { rows < 2 ^ 20 }
    ensures value { result ≡ height_of_rows rows }
    ensures few { result < 2 ^ 26 }
{
    if rows == 0 {
        return 0;
    }
    PART * rows + ROW_GAP * (rows - 1)
}

/// The upper edge of a row whose band ends at a foot.
pub fn spot_y(foot: u32, row: u32) -> u32
    requires { row < 2 ^ 20 }
    ensures value { result ≡ y_of_spot foot row }
    ensures few { result ≤ foot }
{
    foot.saturating_sub((PART + ROW_GAP) * row)
        .saturating_sub(PART)
}
