//! The last messages, step by step.

ghost use Rattle.std.specs.Prelude.{◌≡◌, ◌≤◌, length};
ghost use Rattle.rh_sheet.specs.Chart.{place_among as place_of};
ghost use Rattle.rh_sheet.specs.Fates.{fate_behind as fate_after, fate_gone as fate_of_gone};
ghost use Rattle.rh_sheet.specs.Fates.{fate_there as fate_of_there, followed as note_after, goes_back as goes_back_at};
ghost use Rattle.rh_sheet.specs.Fates.{is_gone as is_gone_as, is_over as is_over_at, is_queued as is_queued_at};
ghost use Rattle.rh_sheet.specs.Fates.{since as step_since, with_fate as note_with};

use rh_sheet::{Fate, Note, Whereabouts};

/// The event code of a message that came back.
const BACK: u32 = 19;

/// Whether nothing more becomes of a message with the fate.
fn is_over(fate: Fate) -> bool
    ensures { result ≡ is_over_at fate }
{
    !matches!(fate, Fate::Queued | Fate::Held | Fate::Back)
}

/// Whether a message with the fate waits for its recipient.
pub fn is_queued(fate: Fate) -> bool
    ensures { result ≡ is_queued_at fate }
{
    matches!(fate, Fate::Queued)
}

/// The fate of a message that waits or is held, by its fate before.
fn fate_there(seen: Whereabouts, fate: Fate) -> Fate
    ensures { result ≡ fate_of_there seen fate }
{
    match fate {
        Fate::Queued | Fate::Held if seen.code == BACK => Fate::Back,
        Fate::Queued if seen.code == 0 => Fate::Held,
        _ => fate,
    }
}

/// The fate of a message that is gone, by its fate before.
fn fate_gone(seen: Whereabouts, fate: Fate) -> Fate
    ensures { result ≡ fate_of_gone seen fate }
{
    match fate {
        Fate::Queued if seen.answered => Fate::Answered,
        Fate::Queued if seen.live => Fate::Taken,
        Fate::Held if seen.answered => Fate::Answered,
        Fate::Held | Fate::Back if seen.live => Fate::Returned,
        Fate::Queued | Fate::Held | Fate::Back => Fate::Vanished,
        _ => fate,
    }
}

/// Whether a message is gone: it doesn't wait, and no task holds it.
fn is_gone(seen: Whereabouts) -> bool
    ensures { result ≡ is_gone_as seen }
{
    seen.code == 0 && !seen.held
}

/// The fate of a message behind a step, by its fate before.
fn fate_behind(seen: Whereabouts, fate: Fate) -> Fate
    ensures { result ≡ fate_after seen fate }
{
    if is_gone(seen) {
        fate_gone(seen, fate)
    } else {
        fate_there(seen, fate)
    }
}

/// Whether a message goes back at a step, by its fate before and behind.
fn goes_back(before: Fate, behind: Fate) -> bool
    ensures { result ≡ goes_back_at before behind }
{
    match before {
        Fate::Queued => matches!(behind, Fate::Back),
        Fate::Held => matches!(behind, Fate::Back | Fate::Returned | Fate::Vanished),
        _ => false,
    }
}

/// A step's number where something happened at it that had not happened yet, as `known` says by 0.
fn since(happened: bool, step: u32, known: u32) -> u32
    ensures { result ≡ step_since happened step known }
{
    if happened && known == 0 { step } else { known }
}

/// The note with the fate that its message has behind a step.
fn with_fate(step: u32, fate: Fate, note: Note) -> Note
    ensures { result ≡ note_with step fate note }
{
    Note {
        fate,
        reached: since(!is_queued(fate), step, note.reached),
        back: since(goes_back(note.fate, fate), step, note.back),
        ended: since(is_over(fate), step, note.ended),
        ..note
    }
}

/// The note after a step, by where its message is then.
pub fn followed(step: u32, seen: Whereabouts, note: Note) -> Note
    ensures { result ≡ note_after step seen note }
{
    with_fate(step, fate_behind(seen, note.fate), note)
}

/// How many of some numbers are smaller.
pub fn place_among(n: u32, numbers: &[u32]) -> usize
    ensures value { result ≡ place_of n numbers.now }
    ensures few { result ≤ length numbers.now }
{
    let mut count = 0;
    for number in numbers {
        if *number < n {
            count += 1;
        }
    }
    count
}
