//! How many cards of a band are shown.

ghost use Rattle.std.specs.Prelude.{◌≡◌, min};
ghost use Rattle.rh_pictures.specs.DrawnCards.{count_shown};
ghost use Rattle.rh_figure.specs.declared.limits.TheConstants.{CARD_BYTES};

use rh_figure::limits::{CARD_BYTES, MOST_CARDS};

/// Of so many cards this many are shown from the first on: all, or where there are too many all but two of those that
/// a band has room for.
pub fn shown_count(cards: usize) -> usize
    ensures { result ≡ count_shown cards }
{
    if cards <= MOST_CARDS {
        cards
    } else {
        MOST_CARDS - 2
    }
}

/// How many bytes of a block of this size its card shows.
pub fn front_length(size: u32) -> usize
    ensures { result ≡ min size CARD_BYTES }
{
    (size as usize).min(CARD_BYTES)
}
