//! The blocks of a wide slot: how one comes, changes and goes, and what it holds.
ghost use Rattle.std.specs.Prelude.{◌≡◌, ◌≢◌, ◌-◌, ◌+◌, ◌*◌, ◌^◌, ◌<◌, ◌≤◌, length, false, nat_lt, IfOk, Some};
ghost use Rattle.rh_defs.specs.Bytes.{part};
ghost use Rattle.rh_defs.specs.Chain.{outcome_of, result_or};
ghost use Rattle.rh_defs.specs.Slot.{taken_out};
ghost use Rattle.rh_wide_slot.specs.Inner.Shifts.{Edits, spliced};
ghost use Rattle.rh_wide_slot.specs.WideCalls.{LeavesBudged, LeavesWide, room_in, wide_alloc, wide_budge, wide_extend};
ghost use Rattle.rh_wide_slot.specs.WideCalls.{wide_free, wide_mid, wide_place, wide_put, wide_read, wide_size};
ghost use Rattle.rh_wide_slot.specs.WideSlots.{IsWideSlot, Leaves, row_block, row_place, row_size, wide_weight};

use crate::row::{entry, put_entry, wide_weight};
use crate::slot::WideSlot;
use rh_defs::Refusal;
use rh_defs::sizes::moved;
use rh_store::bytes::{copy_from, put_in, slide_in, zero_in};

impl WideSlot {
    /// How many bytes the anchor's block has. Refused (`NoBlock`) where it has none. (flex_size.)
    pub fn size(self, bytes: &[u8], anchor: u32) -> Result<usize, Refusal>
        requires slot { IsWideSlot bytes.now self }
        requires anchor { anchor < self.anchors }
        ensures { result ≡ wide_size (row_block bytes.now anchor) }
    {
        let (place, size) = entry(bytes, anchor);
        if place == 0 {
            return Err(Refusal::NoBlock);
        }
        Ok(size)
    }

    /// Where the anchor's block begins, in bytes from the first one. Refused (`NoBlock`) where it has none.
    pub fn place(self, bytes: &[u8], anchor: u32) -> Result<usize, Refusal>
        requires slot { IsWideSlot bytes.now self }
        requires anchor { anchor < self.anchors }
        ensures { result ≡ wide_place bytes.now anchor }
    {
        let (place, _) = entry(bytes, anchor);
        if place == 0 {
            return Err(Refusal::NoBlock);
        }
        Ok(place)
    }

    /// Puts a block of `n` zeros on top and answers its place. Refused: `AnchorInUse` where the anchor has a block,
    /// `NoRoom` where too few bytes are free. (flex_alloc.)
    pub fn alloc(&mut self, bytes: &mut [u8], anchor: u32, n: usize) -> Result<usize, Refusal>
        requires slot { IsWideSlot bytes.old self.old }
        requires anchor { anchor < self.old.anchors }
        ensures left { LeavesWide bytes.old bytes.new self.old self.new anchor
            (wide_alloc (room_in bytes.old self.old) n (row_block bytes.old anchor)) (outcome_of result) }
        ensures place { IfOk result (λ place. place ≡ row_place bytes.new anchor) }
    {
        let (used, _) = entry(bytes, anchor);
        if used != 0 {
            return Err(Refusal::AnchorInUse);
        }
        let place = self.top;
        let room = bytes.len() - place;
        if room <= n || room < wide_weight(n) {
            return Err(Refusal::NoRoom);
        }
        zero_in(bytes, place, n);
        put_entry(bytes, anchor, place, n);
        self.top = place + wide_weight(n);
        Ok(place)
    }

    /// Takes the anchor's block away; those above it come down. Refused (`NoBlock`) where it has none. (flex_free.)
    pub fn free(&mut self, bytes: &mut [u8], anchor: u32) -> Result<(), Refusal>
        requires slot { IsWideSlot bytes.old self.old }
        requires anchor { anchor < self.old.anchors }
        ensures { LeavesWide bytes.old bytes.new self.old self.new anchor (wide_free (row_block bytes.old anchor))
            (outcome_of result) }
    {
        let (place, size) = entry(bytes, anchor);
        if place == 0 {
            return Err(Refusal::NoBlock);
        }
        put_entry(bytes, anchor, 0, 0);
        self.shift(bytes, place + wide_weight(size), place);
        Ok(())
    }

    /// Cuts the anchor's block to `n` bytes, or gives it zeros up to `n`; those above it slide. Refused: `NoBlock`
    /// where the anchor has none, `NoRoom` where too few bytes are free. (flex_extend.)
    pub fn extend(&mut self, bytes: &mut [u8], anchor: u32, n: usize) -> Result<(), Refusal>
        requires slot { IsWideSlot bytes.old self.old }
        requires anchor { anchor < self.old.anchors }
        ensures { LeavesWide bytes.old bytes.new self.old self.new anchor
            (wide_extend (room_in bytes.old self.old) n (row_block bytes.old anchor)) (outcome_of result) }
    {
        let (place, size) = entry(bytes, anchor);
        if place == 0 {
            return Err(Refusal::NoBlock);
        }
        if lacks_room(bytes.len() - self.top, size, n) {
            return Err(Refusal::NoRoom);
        }
        let out = size.saturating_sub(n);
        let put = n.saturating_sub(size);
        self.splice(bytes, anchor, size, out, put);
        Ok(())
    }

    /// Puts `by` zeros into the anchor's block at an offset, or where `by` is below 0 takes out as many bytes before
    /// it; blocks above slide. Refused: `NoBlock` where the anchor has none, `BadRange` where the offset is above the
    /// size or fewer bytes are before it, `NoRoom` where too few bytes are free. (flex_midextend.)
    pub fn mid(
        &mut self,
        bytes: &mut [u8],
        anchor: u32,
        offset: usize,
        by: i32,
    ) -> Result<(), Refusal>
        requires slot { IsWideSlot bytes.old self.old }
        requires anchor { anchor < self.old.anchors }
        ensures { LeavesWide bytes.old bytes.new self.old self.new anchor
            (wide_mid (room_in bytes.old self.old) offset by (row_block bytes.old anchor)) (outcome_of result) }
    {
        let (place, size) = entry(bytes, anchor);
        if place == 0 {
            return Err(Refusal::NoBlock);
        }
        let out = taken_out(by);
        let put = moved(0, by);
        if size < offset || offset < out {
            return Err(Refusal::BadRange);
        }
        if lacks_room(bytes.len() - self.top, size, size - out + put) {
            return Err(Refusal::NoRoom);
        }
        self.splice(bytes, anchor, offset, out, put);
        Ok(())
    }

    /// Writes bytes into the anchor's block, from an offset on. Refused: `NoBlock` where the anchor has none,
    /// `BadRange` where the bytes would go beyond the block's end.
    pub fn put(
        &mut self,
        bytes: &mut [u8],
        anchor: u32,
        offset: usize,
        from: &[u8],
    ) -> Result<(), Refusal>
        requires slot { IsWideSlot bytes.old self.old }
        requires anchor { anchor < self.old.anchors }
        ensures { LeavesWide bytes.old bytes.new self.old self.new anchor
            (wide_put offset from.now (row_block bytes.old anchor)) (outcome_of result) }
    {
        let (place, size) = entry(bytes, anchor);
        if place == 0 {
            return Err(Refusal::NoBlock);
        }
        if size < offset || size - offset < from.len() {
            return Err(Refusal::BadRange);
        }
        put_in(bytes, place + offset, from);
        Ok(())
    }

    /// Fills a buffer with bytes of the anchor's block, from an offset on. Refused, and the buffer left as it is:
    /// `NoBlock` where the anchor has none, `BadRange` where the bytes would go beyond the block's end.
    pub fn read(
        self,
        bytes: &[u8],
        anchor: u32,
        offset: usize,
        to: &mut [u8],
    ) -> Result<(), Refusal>
        requires slot { IsWideSlot bytes.now self }
        requires anchor { anchor < self.anchors }
        ensures answer { result ≡ outcome_of (wide_read offset (length to.old) (row_block bytes.now anchor)) }
        ensures buffer { to.new ≡ result_or to.old (wide_read offset (length to.old) (row_block bytes.now anchor)) }
    {
        let (place, size) = entry(bytes, anchor);
        if place == 0 {
            return Err(Refusal::NoBlock);
        }
        if size < offset || size - offset < to.len() {
            return Err(Refusal::BadRange);
        }
        copy_from(bytes, place + offset, to);
        Ok(())
    }

    /// Gives the caller `n` bytes more below the blocks, in whole eights, and answers where they begin; all blocks
    /// slide up. Refused (`NoRoom`) where too few bytes are free. (flex_budge.)
    pub fn budge(&mut self, bytes: &mut [u8], n: usize) -> Result<usize, Refusal>
        requires { IsWideSlot bytes.old self.old }
        ensures { LeavesBudged bytes.old bytes.new self.old self.new
            (wide_budge (room_in bytes.old self.old) n self.old) result }
    {
        let place = self.base;
        let room = bytes.len() - self.top;
        if room < n || room / 8 < n.div_ceil(8) {
            return Err(Refusal::NoRoom);
        }
        if n == 0 {
            return Ok(place);
        }
        let by = 8 * n.div_ceil(8);
        self.shift(bytes, place, place + by);
        self.base = place + by;
        Ok(place)
    }

    /// Takes `out` bytes before an offset out of the anchor's block, and puts zeros in there; blocks above slide.
    fn splice(&mut self, bytes: &mut [u8], anchor: u32, offset: usize, out: usize, put: usize)
        requires slot { IsWideSlot bytes.old self.old }
        requires anchor { anchor < self.old.anchors }
        requires used { row_place bytes.old anchor ≢ 0 }
        requires offset { offset ≤ row_size bytes.old anchor }
        requires out { out ≤ offset }
        requires room { nat_lt (room_in bytes.old self.old)
            (wide_weight (row_size bytes.old anchor - out + put) - wide_weight (row_size bytes.old anchor)) ≡ false }
        ensures { Leaves bytes.old bytes.new self.old self.new anchor
            (Some (spliced offset out put (part bytes.old (row_place bytes.old anchor) (row_size bytes.old anchor)))) }
    {
        let (place, size) = entry(bytes, anchor);
        let change = Change {
            place,
            size,
            offset,
            out,
            put,
        };
        let end = place + wide_weight(size);
        let new_end = place + wide_weight(size - out + put);
        if end < new_end {
            self.shift(bytes, end, new_end);
            open(bytes, anchor, change);
        } else if new_end < end {
            open(bytes, anchor, change);
            self.shift(bytes, end, new_end);
        } else {
            open(bytes, anchor, change);
        }
    }
}

/// How many bytes are taken out where a block changes by a signed amount.
fn taken_out(by: i32) -> usize
    ensures value { result ≡ taken_out by }
    ensures bound { result ≤ 2 ^ 31 }
{
    if by < 0 {
        by.unsigned_abs() as usize
    } else {
        0
    }
}

/// Whether a block of one size has no room to get another, where so many bytes are free.
fn lacks_room(room: usize, size: usize, n: usize) -> bool
    requires size { size < 2 ^ 31 }
    requires room { room < 2 ^ 31 }
    ensures { result ≡ nat_lt room (wide_weight n - wide_weight size) }
{
    n > u32::MAX as usize || wide_weight(size) + room < wide_weight(n)
}

/// Where a block begins, how many bytes it has, how many of them are taken out before an offset, and how many zeros
/// then come there.
#[derive(Clone, Copy)]
struct Change {
    place: usize,
    size: usize,
    offset: usize,
    out: usize,
    put: usize,
}

/// Changes the bytes of an anchor's block, which has room for that, and writes its size.
fn open(bytes: &mut [u8], anchor: u32, change: Change)
    requires within { change.place + (change.size - change.out + change.put) ≤ length bytes.old }
    requires old { change.place + change.size ≤ length bytes.old }
    requires few { length bytes.old < 2 ^ 32 }
    requires table { 8 * anchor + 8 ≤ change.place }
    requires offset { change.offset ≤ change.size }
    requires out { change.out ≤ change.offset }
    ensures edits { Edits bytes.old bytes.new anchor change.place (change.size - change.out + change.put)
        change.place (change.place + (change.size - change.out + change.put)) }
    ensures block { part bytes.new change.place (change.size - change.out + change.put)
        ≡ spliced change.offset change.out change.put (part bytes.old change.place change.size) }
{
    let Change {
        place,
        size,
        offset,
        out,
        put,
    } = change;
    let at = place + offset - out;
    slide_in(bytes, place + offset, at + put, size - offset);
    zero_in(bytes, at, put);
    put_entry(bytes, anchor, place, size - out + put);
}
