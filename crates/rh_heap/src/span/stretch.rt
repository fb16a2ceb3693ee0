//! Bytes between a heap's segments that stand open while it is changed, and how they become a hole.
ghost use Rattle.std.specs.Prelude.{◌≡◌, ◌≢◌, ℕ, ◌+◌, ◌<◌, ◌≤◌, length};
ghost use Rattle.rh_defs.specs.Bytes.{word};
ghost use Rattle.rh_defs.specs.Memory.{Memory, IsOpen, Edited, bytes};
ghost use Rattle.rh_heap.specs.HeapSpans.{bytes_in};
ghost use Rattle.rh_heap.specs.Stretches.{IsStretch, Settles};
ghost use Rattle.rh_heap.specs.Inner.HolePuts.{PutsHole};
ghost use Rattle.rh_defs.specs.declared.sizes.TheConstants.{HEAP_BASE};
ghost use Rattle.rh_heap.specs.declared.layout.TheConstants.{HOLE_HEADER};

use crate::layout::HOLE_SIZE;
use crate::span::Span;
use crate::span::words::{follow, read, write, write_link};
use rh_defs::sizes::HEAP_BASE;
use rh_store::WordsMut;

/// A stretch of a heap's bytes from `low` up to `upper` that belongs to no segment. The link before it is at
/// `link`, and the next hole behind it is at `next`, or there is none and `next` is 0.
#[derive(Clone, Copy, Debug, PartialEq, Eq)]
pub struct Stretch {
    pub link: usize,
    pub low: usize,
    pub next: usize,
    pub upper: usize,
}

/// Makes a stretch a hole. The segment that follows is used.
#[inline(always)]
fn put_hole<S: WordsMut>(store: &mut S, span: Span, stretch: Stretch)
    requires opened { IsOpen (S.memory store.old) span.area.0 }
    requires stretch { IsStretch (bytes_in (S.memory store.old) span) span.at stretch }
    requires some { stretch.low + HOLE_HEADER ≤ stretch.upper }
    ensures puts { PutsHole (bytes_in (S.memory store.old) span) (bytes_in (S.memory store.new) span) span.at stretch }
    ensures only { Edited (S.memory store.old) (S.memory store.new) span.area.0 span.at
        (span.at + stretch.low + HOLE_HEADER) }
{
    write_link(store, span, stretch.link, stretch.low);
    write_link(store, span, stretch.low, stretch.next);
    write(
        store,
        span,
        stretch.low + HOLE_SIZE,
        stretch.upper - stretch.low,
    );
}

/// Makes a stretch that a used segment follows a hole, or nothing where it has no byte.
#[inline(always)]
pub fn settle_below_block<S: WordsMut>(store: &mut S, span: Span, stretch: Stretch)
    requires opened { IsOpen (S.memory store.old) span.area.0 }
    requires stretch { IsStretch (bytes_in (S.memory store.old) span) span.at stretch }
    requires below { stretch.upper ≢ word (bytes_in (S.memory store.old) span) (span.at + HEAP_BASE) }
    requires apart { stretch.next ≢ stretch.upper }
    ensures settles { Settles (bytes_in (S.memory store.old) span)
        (bytes_in (S.memory store.new) span) span.at stretch }
    ensures only { Edited (S.memory store.old) (S.memory store.new) span.area.0 span.at (span.at + stretch.upper) }
{
    if stretch.low == stretch.upper {
        write_link(store, span, stretch.link, stretch.next);
    } else {
        put_hole(store, span, stretch);
    }
}

/// Makes a stretch a hole, which joins one that follows. At the base it becomes a part of the top.
pub fn settle<S: WordsMut>(store: &mut S, span: Span, stretch: Stretch)
    requires opened { IsOpen (S.memory store.old) span.area.0 }
    requires stretch { IsStretch (bytes_in (S.memory store.old) span) span.at stretch }
    ensures settles { Settles (bytes_in (S.memory store.old) span)
        (bytes_in (S.memory store.new) span) span.at stretch }
    ensures only { Edited (S.memory store.old) (S.memory store.new) span.area.0 span.at (span.at + stretch.upper) }
{
    if stretch.upper == read(store, span, HEAP_BASE) {
        write_link(store, span, stretch.link, 0);
        write(store, span, HEAP_BASE, stretch.low);
    } else if stretch.low == stretch.upper {
        write_link(store, span, stretch.link, stretch.next);
    } else if stretch.next == stretch.upper {
        let size = read(store, span, stretch.upper + HOLE_SIZE);
        let next = follow(store, span, stretch.upper);
        put_hole(
            store,
            span,
            Stretch {
                link: stretch.link,
                low: stretch.low,
                next,
                upper: stretch.upper + size,
            },
        );
    } else {
        put_hole(store, span, stretch);
    }
}
