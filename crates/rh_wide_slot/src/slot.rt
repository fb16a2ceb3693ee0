//! A wide slot: what of it doesn't stand in its bytes, how it begins, and the bytes below its blocks.
ghost use Rattle.std.specs.Prelude.{◌≡◌, ◌+◌, ◌*◌, ◌<◌, ◌≤◌, ℕ, length, IfOk, OnErr, None};
ghost use Rattle.rh_defs.specs.Bytes.{SameIn, with_part};
ghost use Rattle.rh_defs.specs.Chain.{outcome_of, refuse_if};
ghost use Rattle.rh_defs.specs.Pieces.{zeros};
ghost use Rattle.rh_store.specs.Limits.{area_limit};
ghost use Rattle.rh_wide_slot.specs.WideSlots.{IsAnchorCount, IsWideSlot, row_block};

use rh_defs::sizes::ANCHORS;
use rh_store::bytes::zero_in;

/// The most anchors of a wide slot: 4,096.
pub const MOST_ANCHORS: usize = ANCHORS * ANCHORS;

/// What of a wide slot doesn't stand in its bytes: where its blocks begin and end, how many anchors it has, and how
/// many calls have moved a block. The bytes below `base` and behind the anchors' words are the caller's, and those from
/// `top` on are free.
#[repr(C)]
#[derive(Clone, Copy, Debug, PartialEq, Eq)]
pub struct WideSlot {
    pub base: usize,
    pub top: usize,
    pub anchors: u32,
    pub slides: u32,
}

impl WideSlot {
    /// Makes the bytes a slot with so many anchors and no block. (flex_init.)
    pub fn start(bytes: &mut [u8], anchors: u32) -> WideSlot
        requires few { length bytes.old ≤ area_limit }
        requires count { IsAnchorCount anchors }
        requires room { 8 * anchors ≤ length bytes.old }
        ensures slot { IsWideSlot bytes.new result }
        ensures numbers { result ≡ record { base = 8 * anchors; top = 8 * anchors; anchors = anchors; slides = 0 } }
        ensures empty { (k : ℕ) → k < anchors → row_block bytes.new k ≡ None }
        ensures bytes { bytes.new ≡ with_part bytes.old 0 (zeros (8 * anchors)) }
    {
        let base = 8 * anchors as usize;
        zero_in(bytes, 0, base);
        WideSlot {
            base,
            top: base,
            anchors,
            slides: 0,
        }
    }
}
