//! How many words the rows of maps have: lines, and behind them numbers of tracts where there is room.
ghost use Rattle.std.specs.Prelude.{◌≢◌, ◌+◌, ◌*◌, ◌^◌, ◌<◌, ◌≤◌, IsTrue};
ghost use Rattle.rh_peaks.specs.Peaks.{HasWidth};
ghost use Rattle.rh_store.specs.Limits.{pool_limit};

use rh_defs::sizes::{MAX_PAGES, PAGE};
use rh_store::{LINE_BYTES, TRACT_BYTES};

/// How many words of lines a map has for each page of its area.
pub const PAGE_WORDS: usize = 2 * (PAGE / LINE_BYTES);

/// How many maps, of the longest areas, have room for numbers.
pub const NUMBERED: usize = 4;

/// How many words of lines a tract has.
const TRACT_WORDS: usize = 2 * (TRACT_BYTES / LINE_BYTES);

/// The most words that numbers take: those of an area of `MAX_PAGES` pages.
const MOST_NUMBERS: usize = 2 * (PAGE / TRACT_BYTES) * MAX_PAGES;

/// The words of numbers for all tracts of so many words of lines: a power of two of numbers, and as many words for the
/// larger of each two.
fn number_words(lines: usize) -> usize
    requires { lines < 2 ^ 63 }
    ensures width { HasWidth result }
    ensures enough { lines ≤ 4 * result }
    ensures few { result ≤ lines + 4 }
{
    2 * lines.div_ceil(TRACT_WORDS).next_power_of_two()
}

/// So many words of lines, and the words of their numbers.
pub fn with_numbers(lines: usize) -> usize {
    lines.saturating_add(number_words(lines.min(PAGE_WORDS * MAX_PAGES)))
}

/// Whether so many words of numbers are enough for so many words of lines, or there are none.
#[inline(always)]
pub fn are_numbers_for(numbers: usize, lines: usize) -> bool
    requires { numbers < 2 ^ 40 }
    ensures { IsTrue result → numbers ≢ 0 → lines ≤ 4 * numbers }
{
    numbers == 0 || lines <= TRACT_WORDS / 2 * numbers
}

/// The words of numbers that stand behind so many words of lines, in a vector with room for so many in all: none where
/// they have no room.
pub fn numbers_behind(lines: usize, room: usize) -> usize
    requires within { lines ≤ room }
    requires small { room < 2 ^ 63 }
    ensures within { lines + result ≤ room }
    ensures width { HasWidth result }
    ensures few { result < 2 ^ 40 }
    ensures enough { result ≢ 0 → lines ≤ 4 * result }
{
    let numbers = number_words(lines);
    if numbers <= MOST_NUMBERS && numbers <= room - lines {
        numbers
    } else {
        0
    }
}

/// How many words of lines a map gets that needs more than its own, in a vector with room for so many: twice its own,
/// but no more than leave room for numbers, where there is room for numbers of those that it needs.
pub fn lengthened(own: usize, needed: usize, room: usize) -> usize
    requires within { needed ≤ room }
    requires small { room < 2 ^ 63 }
    ensures least { needed ≤ result }
    ensures most { result ≤ room }
{
    let numbers = number_words(needed);
    let most = if numbers <= room - needed {
        (room - numbers).min(numbers.saturating_mul(TRACT_WORDS / 2))
    } else {
        room
    };
    needed.max(own.saturating_mul(2).min(most))
}

/// For how many words the map of a rank has room: for the lines of an area that has this part of so many pages, and for
/// their numbers if it is to have some.
pub fn room_of(pages: usize, rank: usize, numbered: bool) -> usize
    requires pages { pages ≤ pool_limit }
    requires rank { 0 < rank }
{
    let lines = PAGE_WORDS * (pages / rank);
    if numbered {
        lines + number_words(lines)
    } else {
        lines
    }
}
