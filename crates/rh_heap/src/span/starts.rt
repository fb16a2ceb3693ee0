//! A map of where a heap's segments begin, beside the heap's bytes. It consists of lines of two words, each for 512
//! bytes of the heap: a bit for each 8 bytes, in one word for used segments and in the other for holes.
ghost use Rattle.std.specs.Prelude.{◌≡◌, ◌≢◌, ℕ, ◌+◌, ◌*◌, ◌/◌, ◌%◌, ◌^◌, ◌<◌, ◌≤◌, ◌==◌, length, true, MatchOption};
ghost use Rattle.std.specs.Prelude.{if◌then◌else◌};
ghost use Rattle.rh_store.specs.Starts.{bit};
ghost use Rattle.rh_heap.specs.HeapStarts.{Became, LastBit, LinkBelow};
ghost use Rattle.rh_heap.specs.TractNumbers.{AreMarked};
ghost use Rattle.rh_peaks.specs.Peaks.{IsTree, peak};
ghost use Rattle.rh_defs.specs.declared.sizes.TheConstants.{HEAP_UNIT};
ghost use Rattle.rh_heap.specs.declared.span.starts.TheConstants.{TRACT_LINES};
ghost use Rattle.rh_store.specs.declared.starts.TheConstants.{BITS, HOLES};

use rh_defs::sizes::{HEAP_FREE, HEAP_UNIT};
use rh_peaks::last;
use rh_store::{BITS, HOLES, LINE_BYTES, TRACT_BYTES};

/// Whether a bit of a lane is set. None is set past the map's end.
pub fn is_set(starts: &[u64], lane: usize, k: usize) -> bool
    requires { lane < 2 }
    ensures { result ≡ (bit lane starts.now k == 1) }
{
    let at = 2 * (k / BITS) + lane;
    at < starts.len() && starts[at] >> (k % BITS) & 1 == 1
}

/// Sets a bit of a lane.
pub fn set(starts: &mut [u64], lane: usize, k: usize)
    requires lane { lane < 2 }
    requires within { 2 * (k / BITS) + lane < length starts.old }
    ensures bits { Became lane k 1 starts.old starts.new }
    ensures long { length starts.new ≡ length starts.old }
{
    let at = 2 * (k / BITS) + lane;
    starts[at] |= 1 << (k % BITS);
}

/// Clears a bit of a lane. Past the map's end it is clear already.
pub fn clear(starts: &mut [u64], lane: usize, k: usize)
    requires lane { lane < 2 }
    ensures bits { Became lane k 0 starts.old starts.new }
    ensures long { length starts.new ≡ length starts.old }
{
    let at = 2 * (k / BITS) + lane;
    if at < starts.len() {
        starts[at] &= !(1 << (k % BITS));
    }
}

/// Sets or clears a bit of a lane.
pub fn put(starts: &mut [u64], lane: usize, k: usize, on: bool)
    requires lane { lane < 2 }
    requires within { on ≡ true → 2 * (k / BITS) + lane < length starts.old }
    ensures bits { Became lane k (if on then 1 else 0) starts.old starts.new }
    ensures long { length starts.new ≡ length starts.old }
{
    if on {
        set(starts, lane, k);
    } else {
        clear(starts, lane, k);
    }
}

/// The last set bit of a lane below `n`.
pub fn last_below(starts: &[u64], lane: usize, n: usize) -> Option<usize>
    requires lane { lane < 2 }
    requires within { 2 * (n / BITS) + lane < length starts.now }
    ensures { MatchOption result ((j : ℕ) → j < n → bit lane starts.now j ≡ 0) (λ k. LastBit lane starts.now n k) }
{
    let mut line = n / BITS;
    let mut word = starts[2 * line + lane] & ((1 << (n % BITS)) - 1);
    'walk: loop {
        if word != 0 {
            return Some(BITS * line + (BITS - 1 - word.leading_zeros() as usize));
        }
        if line == 0 {
            return None;
        }
        line -= 1;
        word = starts[2 * line + lane];
    }
}

/// The last set bit of a lane at `n` or below it.
pub fn last_up_to(starts: &[u64], lane: usize, n: usize) -> Option<usize>
    requires lane { lane < 2 }
    requires within { 2 * (n / BITS) + lane < length starts.now }
    ensures { MatchOption result ((j : ℕ) → j < n + 1 → bit lane starts.now j ≡ 0)
        (λ k. LastBit lane starts.now (n + 1) k) }
{
    if is_set(starts, lane, n) {
        return Some(n);
    }
    last_below(starts, lane, n)
}

/// The lines of a tract.
const TRACT_LINES: usize = TRACT_BYTES / LINE_BYTES;

/// Where a tract begins at this line, the line behind the last one before it whose tract has a number; else this line.
fn past_empty_tracts(peaks: &[u64], line: usize) -> usize
    requires tree { IsTree peaks.now }
    ensures below { result ≤ line }
    ensures empty { (i : ℕ) → result ≤ i → i < line →
        (i / TRACT_LINES < length peaks.now / 2) × (peak peaks.now (i / TRACT_LINES) ≡ 0) }
{
    let tract = line / TRACT_LINES;
    if line % TRACT_LINES != 0 || peaks.len() / 2 <= tract {
        return line;
    }
    match last(peaks, tract) {
        Some(before) => TRACT_LINES * (before + 1),
        None => 0,
    }
}

/// The last hole's bit below `n`. Tracts without a number are passed over.
fn last_hole_below(starts: &[u64], peaks: &[u64], n: usize) -> Option<usize>
    requires within { 2 * (n / BITS) + HOLES < length starts.now }
    requires tree { IsTree peaks.now }
    requires marked { AreMarked starts.now peaks.now }
    ensures { MatchOption result ((j : ℕ) → j < n → bit HOLES starts.now j ≡ 0) (LastBit HOLES starts.now n) }
{
    let mut line = n / BITS;
    let mut word = starts[2 * line + HOLES] & ((1 << (n % BITS)) - 1);
    'walk: loop {
        if word != 0 {
            let bit = BITS - 1 - word.leading_zeros() as usize;
            return Some(BITS * line + bit);
        }
        let behind = past_empty_tracts(peaks, line);
        if behind == 0 {
            return None;
        }
        line = behind - 1;
        word = starts[2 * line + HOLES];
    }
}

/// Where the last link below a place is: the last hole that begins there, or the descriptor's link where none does.
pub fn link_below(starts: &[u64], peaks: &[u64], place: usize) -> usize
    requires multiple { place % HEAP_UNIT ≡ 0 }
    requires within { 2 * (place / HEAP_UNIT / BITS) + HOLES < length starts.now }
    requires tree { IsTree peaks.now }
    requires marked { AreMarked starts.now peaks.now }
    ensures { LinkBelow starts.now place result }
{
    match last_hole_below(starts, peaks, place / HEAP_UNIT) {
        Some(k) => HEAP_UNIT * k,
        None => HEAP_FREE,
    }
}
