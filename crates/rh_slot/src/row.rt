//! The row of flex blocks that lie one after the other above the C heap: walks over it, and how it slides.
ghost use Rattle.std.specs.Prelude.{◌≡◌, ◌+◌, ◌-◌, ◌%◌, ◌<◌, true, ◌^◌, ◌≤◌, length, take, is_some, slice_get};
ghost use Rattle.std.specs.Prelude.{MatchOption, List, OnSome, IfNone, false};
ghost use Rattle.rh_defs.specs.Memory.{IsOpen, bytes, Edited};
ghost use Rattle.rh_defs.specs.Slot.{Flex, flex_around, flex_weight, weight, slot_length};
ghost use Rattle.rh_defs.specs.Pieces.{total};
ghost use Rattle.rh_defs.specs.Questions.{block_items};
ghost use Rattle.rh_defs.specs.Bytes.{word, part, put_word, SameIn};
ghost use Rattle.rh_defs.specs.SlotImage.{Lie, is_block, flex_place};
ghost use Rattle.rh_defs.specs.declared.question.BlockItem.{BlockItem};
ghost use Rattle.rh_slot.specs.SlotArea.{IsSlotIn, slot_in};
ghost use Rattle.rh_slot.specs.Row.{BlockRow, Hung, Shifted, WalksIn};
ghost use Rattle.rh_slot.specs.Inner.RowWalks.{HangsApart, Walked, Headed, row_item};
ghost use Rattle.rh_defs.specs.declared.sizes.TheConstants.{ANCHORS, C_HEAP_PLACE, FLEX_HEADER, PAGE};

use crate::area::{read, slide, write, write_bytes};
use crate::slot::Slot;
use arrayvec::ArrayVec;
use rh_defs::sizes::{
    ANCHORS, C_HEAP_PLACE, C_HEAP_START, FLEX_HEADER, PAGE, SLOT_START, WORD, flex_weight,
    is_inside,
};
use rh_defs::{Anchor, BlockItem};
use rh_store::bytes::{put_word_in, word_in};
use rh_store::{AreaId, Paged, Pages, Words, WordsMut};

/// Blocks of so many bytes or more together have their anchor words written all at once.
const SHORT_ROW: usize = 128;

/// By so many bits an anchor word goes up to make room for its anchor's number: it is a multiple of 4 below 2^28.
const NUMBER_BITS: u32 = 4;

/// A walk over a slot's flex blocks from below: how many it has passed, and where the next one stands in the slot's
/// area.
#[derive(Clone, Copy, Debug, PartialEq, Eq)]
pub struct FlexWalk {
    pub passed: usize,
    pub place: usize,
}

/// A walk from a place on, which has passed no block.
fn walk_from(place: usize) -> FlexWalk
    ensures { result ≡ record { passed = 0; place = place } }
{
    FlexWalk { passed: 0, place }
}

/// Whether a block begins at a place: its header names an anchor word that leads back to it.
fn begins<S: Words>(store: &S, area: AreaId, place: usize) -> bool
    requires opened { IsOpen (S.memory store.now) area.0 }
    requires within { place + FLEX_HEADER ≤ length (bytes (S.memory store.now) area.0) }
    requires anchors { C_HEAP_PLACE ≤ length (bytes (S.memory store.now) area.0) }
    ensures { result ≡ is_block (bytes (S.memory store.now) area.0) place }
{
    let anchor = read(store, area, place);
    if anchor < SLOT_START || C_HEAP_START <= anchor || anchor % WORD != 0 {
        return false;
    }
    read(store, area, anchor - SLOT_START) == SLOT_START + place + FLEX_HEADER
}

/// The flex block at a place, whose header lies `at` bytes into a page, with the anchors in the slot's first page.
/// `None` just where no block begins there, or the page ends in the header.
#[inline(always)]
fn item_in(anchors: &[u8], page: &[u8], at: usize, place: usize) -> Option<BlockItem>
    requires anchors { C_HEAP_PLACE ≤ length anchors.now }
    requires small { place < 2 ^ 31 }
    requires low { at ≤ place }
    ensures { MatchOption result ((item : BlockItem) → Headed anchors.now page.now at place item → ⊥)
        (Headed anchors.now page.now at place) }
{
    if page.len() < at + FLEX_HEADER {
        return None;
    }
    let anchor = word_in(page, at) as usize;
    if anchor < SLOT_START || C_HEAP_START <= anchor || anchor % WORD != 0 {
        return None;
    }
    let address = SLOT_START + place + FLEX_HEADER;
    let word = anchor - SLOT_START;
    if word_in(anchors, word) as usize != address {
        return None;
    }
    Some(BlockItem {
        anchor: Anchor((word / WORD) as u8),
        address: address as u32,
        size: word_in(page, at + WORD),
    })
}

/// The anchor whose word is the highest. Only speed stands on that: where no more is known of the words, it is any.
fn highest(anchors: &[u8]) -> Anchor
    requires { C_HEAP_PLACE ≤ length anchors.now }
    ensures { result < ANCHORS }
{
    let mut best = 0;
    for k in 0..ANCHORS {
        best = best.max(word_in(anchors, WORD * k) << NUMBER_BITS | k as u32);
    }
    Anchor((best % ANCHORS as u32) as u8)
}

/// Writes the anchor words of the blocks that lie in `n` bytes, each by itself.
fn write_anchors_short<S: WordsMut>(store: &mut S, area: AreaId, from: usize, n: usize)
    requires opened { IsOpen (S.memory store.old) area.0 }
    requires within { from + n ≤ length (bytes (S.memory store.old) area.0) }
    requires low { C_HEAP_PLACE ≤ from }
    requires row { BlockRow (bytes (S.memory store.old) area.0) from n }
    ensures hung { (fs : List Flex) → Lie (bytes (S.memory store.old) area.0) from fs → total weight fs ≡ n
        → Hung (bytes (S.memory store.old) area.0) (bytes (S.memory store.new) area.0) from fs }
    ensures only { Edited (S.memory store.old) (S.memory store.new) area.0 0 C_HEAP_PLACE }
{
    let end = from + n;
    let mut place = from;
    'walk: while place < end {
        let anchor = read(store, area, place);
        let size = read(store, area, place + WORD);
        let word = anchor - SLOT_START;
        write(store, area, word, SLOT_START + place + FLEX_HEADER);
        place += flex_weight(size);
    }
}

/// Writes a block's address into anchor words that were lent, by what its header says: the address of its anchor word,
/// and its size. Answers where the next block stands.
#[inline(always)]
fn write_anchor(anchors: &mut [u8], place: usize, anchor: usize, size: usize) -> usize
    requires least { SLOT_START ≤ anchor }
    requires within { anchor - SLOT_START + WORD ≤ length anchors.old }
    requires small { place < 2 ^ 31 }
    requires size { size < 2 ^ 32 }
    ensures anchors { anchors.new ≡ put_word anchors.old (anchor - SLOT_START) (SLOT_START + place + FLEX_HEADER) }
    ensures next { result ≡ place + flex_weight size }
{
    let address = SLOT_START + place + FLEX_HEADER;
    put_word_in(anchors, anchor - SLOT_START, address as u32);
    place + flex_weight(size)
}

/// Writes into anchor words that were lent those of the blocks from a place on whose headers lie whole in that place's
/// page. The blocks end `n` bytes above `from`. Answers where the next one stands.
fn write_anchors_in_page<S: Paged>(
    store: &S,
    area: AreaId,
    anchors: &mut [u8],
    from: usize,
    n: usize,
    start: usize,
) -> usize
    requires opened { IsOpen (S.memory store.now) area.0 }
    requires within { from + n ≤ length (bytes (S.memory store.now) area.0) }
    requires low { C_HEAP_PLACE ≤ from }
    requires walk { HangsApart (bytes (S.memory store.now) area.0) anchors.old from n start }
    ensures walk { HangsApart (bytes (S.memory store.now) area.0) anchors.new from n result }
    ensures on { start ≤ result }
{
    let end = from + n;
    let mut place = start;
    if end <= start {
        return place;
    }
    let page = store.rest_of_page(area, start);
    let top = end.min(start + page.len());
    'walk: while place + FLEX_HEADER <= top {
        let anchor = word_in(page, place - start) as usize;
        let size = word_in(page, place - start + WORD) as usize;
        place = write_anchor(anchors, place, anchor, size);
    }
    place
}

/// Writes the anchor words of the blocks that lie in `n` bytes, all at the end. Out of line, so that its buffer is no
/// part of callers whose rows are short.
#[inline(never)]
fn write_anchors_long<S: Pages>(store: &mut S, area: AreaId, from: usize, n: usize)
    requires opened { IsOpen (S.memory store.old) area.0 }
    requires within { from + n ≤ length (bytes (S.memory store.old) area.0) }
    requires low { C_HEAP_PLACE ≤ from }
    requires row { BlockRow (bytes (S.memory store.old) area.0) from n }
    ensures hung { (fs : List Flex) → Lie (bytes (S.memory store.old) area.0) from fs → total weight fs ≡ n
        → Hung (bytes (S.memory store.old) area.0) (bytes (S.memory store.new) area.0) from fs }
    ensures only { Edited (S.memory store.old) (S.memory store.new) area.0 0 C_HEAP_PLACE }
{
    let mut anchors = [0u8; C_HEAP_PLACE];
    store.copy_out(area, 0, &mut anchors);
    let mut place = from;
    'walk: while place < from + n {
        let anchor = read(store, area, place);
        let size = read(store, area, place + WORD);
        let behind = write_anchor(&mut anchors, place, anchor, size);
        place = write_anchors_in_page(store, area, &mut anchors, from, n, behind);
    }
    write_bytes(store, area, 0, &anchors);
}

/// Writes the anchor words of the blocks that lie in `n` bytes.
fn write_anchors<S: Pages>(store: &mut S, area: AreaId, from: usize, n: usize)
    requires opened { IsOpen (S.memory store.old) area.0 }
    requires within { from + n ≤ length (bytes (S.memory store.old) area.0) }
    requires low { C_HEAP_PLACE ≤ from }
    requires row { BlockRow (bytes (S.memory store.old) area.0) from n }
    ensures hung { (fs : List Flex) → Lie (bytes (S.memory store.old) area.0) from fs → total weight fs ≡ n
        → Hung (bytes (S.memory store.old) area.0) (bytes (S.memory store.new) area.0) from fs }
    ensures only { Edited (S.memory store.old) (S.memory store.new) area.0 0 C_HEAP_PLACE }
{
    if n < SHORT_ROW {
        write_anchors_short(store, area, from, n);
    } else {
        write_anchors_long(store, area, from, n);
    }
}

/// Moves the blocks that lie in `n` bytes, and writes their anchor words.
pub fn shift<S: Pages>(store: &mut S, area: AreaId, from: usize, to: usize, n: usize)
    requires opened { IsOpen (S.memory store.old) area.0 }
    requires source { from + n ≤ length (bytes (S.memory store.old) area.0) }
    requires target { to + n ≤ length (bytes (S.memory store.old) area.0) }
    requires low { C_HEAP_PLACE ≤ from }
    requires high { C_HEAP_PLACE ≤ to }
    requires row { BlockRow (bytes (S.memory store.old) area.0) from n }
    ensures shifted { (fs : List Flex) → Lie (bytes (S.memory store.old) area.0) from fs → total weight fs ≡ n
        → Shifted (bytes (S.memory store.old) area.0) (bytes (S.memory store.new) area.0) to fs }
    ensures below { SameIn (bytes (S.memory store.old) area.0) (bytes (S.memory store.new) area.0) C_HEAP_PLACE to }
    ensures only { Edited (S.memory store.old) (S.memory store.new) area.0 0 (to + n) }
{
    slide(store, area, from, to, n);
    write_anchors(store, area, to, n);
}

impl Slot {
    /// Where the first flex block stands or would stand: the C heap's end.
    pub(crate) fn flex_place<S: Words>(self, store: &S) -> usize
        requires { IsSlotIn (S.memory store.now) self }
        ensures { result ≡ flex_place (slot_in (S.memory store.now) self) }
    {
        C_HEAP_PLACE + rh_heap::end(store, self.span())
    }

    /// Whether a block stands where a walk has come to, or the blocks end there.
    fn stands<S: Words>(self, store: &S, place: usize) -> bool
        requires slot { IsSlotIn (S.memory store.now) self }
        requires walked { Walked (slot_in (S.memory store.now) self) place }
        ensures { result ≡ is_block (bytes (S.memory store.now) self.area.0) place }
    {
        let len = store.len(self.area);
        // The blocks end in the last page, so a block stands at each place below it to which a walk comes.
        if place + PAGE <= len {
            return true;
        }
        place + FLEX_HEADER <= len && begins(store, self.area, place)
    }

    /// How many bytes the block has that stands where a walk has come to. `None` above the last block.
    #[inline(always)]
    pub(crate) fn size_at<S: Words>(self, store: &S, place: usize) -> Option<usize>
        requires slot { IsSlotIn (S.memory store.now) self }
        requires walked { Walked (slot_in (S.memory store.now) self) place }
        ensures { MatchOption result (is_block (bytes (S.memory store.now) self.area.0) place ≡ false)
            (λ size. (is_block (bytes (S.memory store.now) self.area.0) place ≡ true)
            × (size ≡ word (bytes (S.memory store.now) self.area.0) (place + WORD))) }
    {
        if !self.stands(store, place) {
            return None;
        }
        Some(read(store, self.area, place + WORD))
    }

    /// Passes the flex blocks from a walk's place on whose headers lie whole in that place's page, all of them.
    fn pass_in_page<S: Paged>(self, store: &S, anchors: &[u8], start: FlexWalk) -> FlexWalk
        requires slot { IsSlotIn (S.memory store.now) self }
        requires anchors { anchors.now ≡ part (bytes (S.memory store.now) self.area.0) 0 PAGE }
        requires walked { Walked (slot_in (S.memory store.now) self) start.place }
        requires small { start.passed < 2 ^ 32 }
        ensures walked { Walked (slot_in (S.memory store.now) self) result.place }
        ensures on { start.place ≤ result.place }
        ensures walk { WalksIn (slot_in (S.memory store.now) self) start
            → WalksIn (slot_in (S.memory store.now) self) result }
        ensures passed { start.passed ≤ result.passed }
        ensures all { is_block (bytes (S.memory store.now) self.area.0) result.place ≡ true
            → start.place + (PAGE - start.place % PAGE) < result.place + FLEX_HEADER }
    {
        let mut walk = start;
        if store.len(self.area) <= start.place {
            return walk;
        }
        let page = store.rest_of_page(self.area, start.place);
        'walk: while let Some(item) = item_in(anchors, page, walk.place - start.place, walk.place) {
            walk.passed += 1;
            walk.place += flex_weight(item.size as usize);
        }
        walk
    }

    /// Where the block of the highest anchor word ends, or a place to which a walk comes, whichever is higher. A walk
    /// comes there too.
    fn end_of_highest<S: Paged>(self, store: &S, least: usize) -> usize
        requires slot { IsSlotIn (S.memory store.now) self }
        requires walked { Walked (slot_in (S.memory store.now) self) least }
        ensures walked { Walked (slot_in (S.memory store.now) self) result }
        ensures least { least ≤ result }
    {
        let anchors = store.rest_of_page(self.area, 0);
        let Some(spot) = self.locate(store, highest(anchors)) else {
            return least;
        };
        let end = spot.place + flex_weight(spot.size);
        if end < least {
            return least;
        }
        end
    }

    /// Where the flex blocks end, from a place to which a walk comes: the number of bytes that the slot takes. Where a
    /// block stands there, the highest one is asked for its end.
    pub(crate) fn top_from<S: Paged>(self, store: &S, from: usize) -> usize
        requires slot { IsSlotIn (S.memory store.now) self }
        requires walked { Walked (slot_in (S.memory store.now) self) from }
        ensures { result ≡ slot_length (slot_in (S.memory store.now) self) }
    {
        let mut place = from;
        'walk: while let Some(size) = self.size_at(store, place) {
            place = self.end_of_highest(store, place + flex_weight(size));
        }
        place
    }

    /// Where the flex blocks end: the number of bytes that the slot takes.
    pub(crate) fn top<S: Paged>(self, store: &S) -> usize
        requires { IsSlotIn (S.memory store.now) self }
        ensures { result ≡ slot_length (slot_in (S.memory store.now) self) }
    {
        self.top_from(store, self.flex_place(store))
    }

    /// Whether the `n` bytes at an address lie whole in one flex block.
    pub(crate) fn in_flex<S: Words>(self, store: &S, address: usize, n: usize) -> bool
        requires { IsSlotIn (S.memory store.now) self }
        ensures { result ≡ is_some (flex_around address n (slot_in (S.memory store.now) self)) }
    {
        let mut place = self.flex_place(store);
        'walk: while let Some(size) = self.size_at(store, place) {
            let block = SLOT_START + place + FLEX_HEADER;
            if is_inside(address, n, block, size) {
                return true;
            }
            place += flex_weight(size);
        }
        false
    }

    /// The anchor, address and size of the block that stands where a walk has come to.
    fn item_at<S: Words>(self, store: &S, place: usize, size: usize) -> BlockItem
        requires slot { IsSlotIn (S.memory store.now) self }
        requires walked { Walked (slot_in (S.memory store.now) self) place }
        requires stands { is_block (bytes (S.memory store.now) self.area.0) place ≡ true }
        requires size { size ≡ word (bytes (S.memory store.now) self.area.0) (place + WORD) }
        ensures { result ≡ row_item (bytes (S.memory store.now) self.area.0) place }
    {
        let anchor = (read(store, self.area, place) - SLOT_START) / WORD;
        let address = SLOT_START + place + FLEX_HEADER;
        BlockItem {
            anchor: Anchor(anchor as u8),
            address: address as u32,
            size: size as u32,
        }
    }

    /// How many flex blocks the slot has.
    pub fn count<S: Paged>(self, store: &S) -> usize
        requires slot { IsSlotIn (S.memory store.now) self }
        ensures { result ≡ length (slot_in (S.memory store.now) self).blocks }
    {
        let anchors = store.rest_of_page(self.area, 0);
        let mut walk = self.blocks(store);
        'walk: while let Some(size) = self.size_at(store, walk.place) {
            walk.passed += 1;
            walk.place += flex_weight(size);
            walk = self.pass_in_page(store, anchors, walk);
        }
        walk.passed
    }

    /// A walk that has passed none of the slot's flex blocks.
    pub fn blocks<S: Words>(self, store: &S) -> FlexWalk
        requires slot { IsSlotIn (S.memory store.now) self }
        ensures passed { result.passed ≡ 0 }
        ensures walk { WalksIn (slot_in (S.memory store.now) self) result }
    {
        walk_from(self.flex_place(store))
    }

    /// The next flex block of a walk: its anchor, address and size in bytes. `None` above the last one, where the walk
    /// stays.
    #[inline(always)]
    pub fn next_block<S: Words>(self, store: &S, walk: &mut FlexWalk) -> Option<BlockItem>
        requires slot { IsSlotIn (S.memory store.now) self }
        requires walk { WalksIn (slot_in (S.memory store.now) self) walk.old }
        ensures block { result ≡ slice_get (block_items (slot_in (S.memory store.now) self)) walk.old.passed }
        ensures walk { WalksIn (slot_in (S.memory store.now) self) walk.new }
        ensures passed { OnSome result (walk.new.passed ≡ walk.old.passed + 1) }
        ensures stays { IfNone result (walk.new ≡ walk.old) }
        ensures all { IfNone result (walk.new.passed ≡ length (slot_in (S.memory store.now) self).blocks) }
    {
        let place = walk.place;
        let size = self.size_at(store, place)?;
        let item = self.item_at(store, place, size);
        walk.passed += 1;
        walk.place = place + flex_weight(size);
        Some(item)
    }

    /// Lists the flex blocks from a walk's place on whose headers lie whole in that place's page, all of them.
    fn list_in_page<S: Paged>(
        self,
        store: &S,
        anchors: &[u8],
        start: FlexWalk,
        listed: &mut ArrayVec<BlockItem, ANCHORS>,
    ) -> FlexWalk
        requires slot { IsSlotIn (S.memory store.now) self }
        requires anchors { anchors.now ≡ part (bytes (S.memory store.now) self.area.0) 0 PAGE }
        requires walk { WalksIn (slot_in (S.memory store.now) self) start }
        requires listed { listed.old.items ≡ take start.passed (block_items (slot_in (S.memory store.now) self)) }
        ensures walk { WalksIn (slot_in (S.memory store.now) self) result }
        ensures on { start.passed ≤ result.passed }
        ensures listed { listed.new.items ≡ take result.passed (block_items (slot_in (S.memory store.now) self)) }
        ensures all { is_block (bytes (S.memory store.now) self.area.0) result.place ≡ true
            → start.place + (PAGE - start.place % PAGE) < result.place + FLEX_HEADER }
    {
        let mut walk = start;
        if store.len(self.area) <= start.place {
            return walk;
        }
        let page = store.rest_of_page(self.area, start.place);
        'walk: while let Some(item) = item_in(anchors, page, walk.place - start.place, walk.place) {
            walk.passed += 1;
            walk.place += flex_weight(item.size as usize);
            listed.push(item);
        }
        walk
    }

    /// Puts all flex blocks from below into a list, in place of what it held: the anchor, address and size in bytes of
    /// each.
    pub fn list<S: Paged>(self, store: &S, items: &mut ArrayVec<BlockItem, ANCHORS>)
        requires slot { IsSlotIn (S.memory store.now) self }
        ensures { items.new.items ≡ block_items (slot_in (S.memory store.now) self) }
    {
        let anchors = store.rest_of_page(self.area, 0);
        items.clear();
        let mut walk = self.blocks(store);
        'walk: while let Some(item) = self.next_block(store, &mut walk) {
            items.push(item);
            walk = self.list_in_page(store, anchors, walk, items);
        }
    }

    /// Flex block `i` from below, from 0 on: its anchor, address and size in bytes.
    pub fn block<S: Words>(self, store: &S, i: usize) -> Option<BlockItem>
        requires slot { IsSlotIn (S.memory store.now) self }
        ensures { result ≡ slice_get (block_items (slot_in (S.memory store.now) self)) i }
    {
        let mut walk = self.blocks(store);
        'walk: while walk.passed < i {
            self.next_block(store, &mut walk)?;
        }
        self.next_block(store, &mut walk)
    }
}
