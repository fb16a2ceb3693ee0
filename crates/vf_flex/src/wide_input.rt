//! Whether what a call on a wide slot is given can be looked at.
ghost use Rattle.std.specs.Prelude.{◌≡◌, ◌<◌};
ghost use Rattle.vf_flex.specs.WideStatus.{start_with_status, wide_anchor_status, wide_status};

use crate::status::{BAD_ANCHOR, BAD_LENGTH, NO_ROOM, NO_SLOT, OK, SHORT};
use rh_defs::sizes::ANCHORS;
use rh_wide_slot::{MOST_ANCHORS, WideSlot};

/// The fewest bytes of a wide slot: the words of 64 anchors.
const LEAST_WIDE: usize = 8 * ANCHORS;

/// The most bytes of a wide slot: 1 GiB.
const MOST_WIDE: usize = 1 << 30;

/// Whether a wide slot of so many anchors may begin in so many bytes.
#[tactic(auto, using(std::proofs::lemmas::Bool::Decides::nat_tests), unfolding(crate::specs::WideStatus::start_with_status))]
pub fn start_with_status(len: usize, anchors: u32) -> u32
    ensures { result ≡ start_with_status len anchors }
{
    if len < LEAST_WIDE || MOST_WIDE < len {
        return BAD_LENGTH;
    }
    if (anchors as usize) < ANCHORS || MOST_ANCHORS < anchors as usize {
        return BAD_ANCHOR;
    }
    if len < 8 * anchors as usize {
        return NO_ROOM;
    }
    OK
}

/// Whether a wide slot that was started lies in so many bytes.
#[tactic(auto, using(std::proofs::lemmas::Bool::Decides::nat_tests), unfolding(crate::specs::WideStatus::wide_status))]
pub fn wide_status(len: usize, slot: WideSlot) -> u32
    ensures { result ≡ wide_status len slot }
{
    if len < LEAST_WIDE || MOST_WIDE < len {
        return BAD_LENGTH;
    }
    if slot.anchors == 0 {
        return NO_SLOT;
    }
    if len < slot.top {
        return SHORT;
    }
    OK
}

/// Whether besides the slot has this anchor.
#[tactic(auto, using(std::proofs::lemmas::Bool::Decides::nat_tests), unfolding(crate::specs::WideStatus::wide_anchor_status))]
pub fn wide_anchor_status(len: usize, slot: WideSlot, anchor: u32) -> u32
    ensures status { result ≡ wide_anchor_status len slot anchor }
    ensures slot { result ≡ 0 → wide_status len slot ≡ 0 }
    ensures anchor { result ≡ 0 → anchor < slot.anchors }
{
    match wide_status(len, slot) {
        OK if anchor >= slot.anchors => BAD_ANCHOR,
        status => status,
    }
}
