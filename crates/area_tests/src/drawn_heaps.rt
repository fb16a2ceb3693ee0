//! One heap twice, under calls that are drawn: of one each block is found by a walk, of the other by a map. Both do and
//! answer the same.

ghost use Rattle.std.specs.Prelude.{◌≡◌, length};
ghost use Rattle.rh_heap.specs.HeapSpans.{IsSpan, heap_in};
ghost use Rattle.rh_store.specs.Starts.{IsIndex};

use crate::heaps::{self, empty_heap};
use crate::mapped_heaps::{self, MAP, is_fresh};
use crate::numbers::RandomNumbers;
use crate::row::Row;
use rh_heap::{Span, end, index};
use rh_store::{Store, WordsMut};
use std::alloc::Global;

/// The bytes of each heap.
const LENGTH: usize = 2048;

/// How many addresses are kept.
const KEPT: u32 = 24;

/// How many calls are made.
const CALLS: u32 = 1000;

/// Whether all calls did and answered the same, over two stores that have no area yet.
pub(crate) fn are_alike<S: Store>(alloc: Global, walked: &mut S, mapped: &mut S) -> Option<bool> {
    let walked_at = empty_heap(walked, 0, LENGTH)?;
    let mapped_at = empty_heap(mapped, 0, LENGTH)?;
    if end(mapped, mapped_at) > LENGTH {
        return None;
    }
    let mut starts = [0; MAP];
    index(mapped, mapped_at, &mut starts);
    draw(alloc, walked, walked_at, mapped, mapped_at, &mut starts)?;
    Some(true)
}

/// Draws all calls; none at the first that differs.
fn draw<S: WordsMut>(
    alloc: Global,
    walked: &mut S,
    walked_at: Span,
    mapped: &mut S,
    mapped_at: Span,
    starts: &mut [u64],
) -> Option<()>
    requires walked { IsSpan (S.memory walked.old) walked_at }
    requires mapped { IsSpan (S.memory mapped.old) mapped_at }
    requires starts { IsIndex starts.old (heap_in (S.memory mapped.old) mapped_at) }
{
    let mut numbers = RandomNumbers::new();
    let mut kept = [0usize; KEPT as usize];
    for _call in 0..CALLS {
        let at = numbers.below(KEPT) as usize;
        let address = match numbers.below(12) {
            0 => numbers.below(2100) as usize,
            1 => kept[at].wrapping_add(8),
            _ => kept[at],
        };
        let line = drawn(alloc, &mut numbers, address)?;
        if let Some(rest) = line.strip_prefix("resize ") {
            let need = format!(in alloc; "resize_need {rest}").ok()?;
            let _need = both(alloc, walked, walked_at, mapped, mapped_at, starts, &need)?;
        }
        let answer = both(alloc, walked, walked_at, mapped, mapped_at, starts, &line)?;
        if let Some(new) = Row::new(&answer).size(0) {
            kept[at] = new;
        }
        let size = format!(in alloc; "size {address}").ok()?;
        let _size = both(alloc, walked, walked_at, mapped, mapped_at, starts, &size)?;
        let wanted = heaps::image_of(alloc, walked, walked_at)?;
        let found = heaps::image_of(alloc, mapped, mapped_at)?;
        if found != wanted || !is_fresh(mapped, mapped_at, starts) {
            return None;
        }
    }
    Some(())
}

/// The row of a call: a claim, or a release or resize at an address.
fn drawn(alloc: Global, numbers: &mut RandomNumbers, address: usize) -> Option<String> {
    let which = numbers.below(8);
    if which < 3 {
        let size = numbers.below(120);
        return format!(in alloc; "claim {size}").ok();
    }
    if which < 5 {
        return format!(in alloc; "release {address}").ok();
    }
    let delta = numbers.below(160) as i32 - 80;
    format!(in alloc; "resize {address} {delta}").ok()
}

/// What a row answers of both; none where they differ.
fn both<S: WordsMut>(
    alloc: Global,
    walked: &mut S,
    walked_at: Span,
    mapped: &mut S,
    mapped_at: Span,
    starts: &mut [u64],
    line: &str,
) -> Option<String>
    requires walked { IsSpan (S.memory walked.old) walked_at }
    requires mapped { IsSpan (S.memory mapped.old) mapped_at }
    requires starts { IsIndex starts.old (heap_in (S.memory mapped.old) mapped_at) }
    ensures walked { IsSpan (S.memory walked.new) walked_at }
    ensures mapped { IsSpan (S.memory mapped.new) mapped_at }
    ensures starts { IsIndex starts.new (heap_in (S.memory mapped.new) mapped_at) }
    ensures long { length starts.new ≡ length starts.old }
{
    let row = Row::new(line);
    let wanted = heaps::call(alloc, walked, walked_at, &row)?;
    let found = mapped_heaps::call(alloc, mapped, mapped_at, starts, &row)?;
    if found != wanted {
        return None;
    }
    Some(found)
}
