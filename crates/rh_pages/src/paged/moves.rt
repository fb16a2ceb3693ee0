//! Moves of any number of bytes, in runs that lie side by side on the ground at their source and at their target.
#![tactic(auto, unfolding(rh_defs::specs::Memory::bytes, crate::specs::Paged::paged_memory))]

use super::PagedStore;
use crate::backing::Backing;
use rh_defs::sizes::PAGE;
use rh_store::AreaId;

/// The most bytes of one run, which bounds what is looked at in vain where the other side's pages lie apart.
const LONGEST_RUN: usize = 16 * PAGE;

impl<G: Backing> PagedStore<G> {
    ghost use Rattle.std.specs.Prelude.{◌≡◌, ◌≢◌, ℕ, ◌+◌, ◌-◌, ◌<◌, ◌≤◌, length};
    ghost use Rattle.rh_defs.specs.Bytes.{part, with_part};
    ghost use Rattle.rh_defs.specs.Memory.{IsOpen, bytes, with_bytes};
    ghost use Rattle.rh_pages.specs.Inner.Spots.{IsTogether};
    ghost use Rattle.rh_pages.specs.Paged.{paged_memory, pages_of};
    ghost use Rattle.rh_store.specs.Limits.{area_limit};

    /// How many bytes of an area from an offset on lie side by side on the ground, of `most` that are asked for.
    fn run_from(&self, id: AreaId, at: usize, most: usize) -> usize
        requires opened { IsOpen (paged_memory self.now) id.0 }
        requires some { 0 < most }
        requires within { at + most ≤ length (bytes (paged_memory self.now) id.0) }
        requires small { length (bytes (paged_memory self.now) id.0) ≤ area_limit }
        ensures some { 0 < result }
        ensures most { result ≤ most }
        ensures together { IsTogether (pages_of self.now) id.0 at result }
    {
        let mut run = PAGE - at % PAGE;
        let mut i = at / PAGE;
        let mut number = self.backing_page(id, i);
        while run < most {
            let next = self.backing_page(id, i + 1);
            if next != number + 1 {
                return run;
            }
            run += PAGE;
            i += 1;
            number = next;
        }
        most
    }

    /// How many bytes of an area below an offset lie side by side on the ground, of `most` that are asked for.
    fn run_below(&self, id: AreaId, end: usize, most: usize) -> usize
        requires opened { IsOpen (paged_memory self.now) id.0 }
        requires some { 0 < most }
        requires low { most ≤ end }
        requires within { end ≤ length (bytes (paged_memory self.now) id.0) }
        requires small { length (bytes (paged_memory self.now) id.0) ≤ area_limit }
        ensures some { 0 < result }
        ensures most { result ≤ most }
        ensures together { IsTogether (pages_of self.now) id.0 (end - result) result }
    {
        let mut run = (end - 1) % PAGE + 1;
        let mut i = (end - 1) / PAGE;
        let mut number = self.backing_page(id, i);
        while run < most {
            let next = self.backing_page(id, i - 1);
            if next + 1 != number {
                return run;
            }
            run += PAGE;
            i -= 1;
            number = next;
        }
        most
    }

    /// Moves n bytes of an area to lower offsets, from their lower end on.
    pub(super) fn slide_down(&mut self, id: AreaId, from: usize, to: usize, n: usize)
        requires opened { IsOpen (paged_memory self.old) id.0 }
        requires down { to ≤ from }
        requires source { from + n ≤ length (bytes (paged_memory self.old) id.0) }
        requires small { length (bytes (paged_memory self.old) id.0) ≤ area_limit }
        ensures { paged_memory self.new ≡ with_bytes (paged_memory self.old) id.0
            (with_part (bytes (paged_memory self.old) id.0) to (part (bytes (paged_memory self.old) id.0) from n)) }
    {
        let mut done = 0;
        while done < n {
            let most = LONGEST_RUN.min(n - done);
            let source = self.run_from(id, from + done, most);
            let run = self.run_from(id, to + done, source);
            self.copy_part(id, from + done, id, to + done, run);
            done += run;
        }
    }

    /// Moves n bytes of an area to higher offsets, from their upper end on.
    pub(super) fn slide_up(&mut self, id: AreaId, from: usize, to: usize, n: usize)
        requires opened { IsOpen (paged_memory self.old) id.0 }
        requires up { from ≤ to }
        requires target { to + n ≤ length (bytes (paged_memory self.old) id.0) }
        requires small { length (bytes (paged_memory self.old) id.0) ≤ area_limit }
        ensures { paged_memory self.new ≡ with_bytes (paged_memory self.old) id.0
            (with_part (bytes (paged_memory self.old) id.0) to (part (bytes (paged_memory self.old) id.0) from n)) }
    {
        let mut left = n;
        while left > 0 {
            let most = LONGEST_RUN.min(left);
            let source = self.run_below(id, from + left, most);
            let run = self.run_below(id, to + left, source);
            left -= run;
            self.copy_part(id, from + left, id, to + left, run);
        }
    }

    /// Copies n bytes of an area to another one.
    pub(super) fn copy_across(&mut self, id: AreaId, at: usize, id2: AreaId, at2: usize, n: usize)
        requires opened { IsOpen (paged_memory self.old) id.0 }
        requires opened2 { IsOpen (paged_memory self.old) id2.0 }
        requires apart { id.0 ≢ id2.0 }
        requires source { at + n ≤ length (bytes (paged_memory self.old) id.0) }
        requires target { at2 + n ≤ length (bytes (paged_memory self.old) id2.0) }
        requires small { length (bytes (paged_memory self.old) id.0) ≤ area_limit }
        requires small2 { length (bytes (paged_memory self.old) id2.0) ≤ area_limit }
        ensures { paged_memory self.new ≡ with_bytes (paged_memory self.old) id2.0
            (with_part (bytes (paged_memory self.old) id2.0) at2 (part (bytes (paged_memory self.old) id.0) at n)) }
    {
        let mut done = 0;
        while done < n {
            let most = LONGEST_RUN.min(n - done);
            let source = self.run_from(id, at + done, most);
            let run = self.run_from(id2, at2 + done, source);
            self.copy_part(id, at + done, id2, at2 + done, run);
            done += run;
        }
    }
}
