//! The areas of a plain store, and the edits of one of them.
ghost use Rattle.std.specs.Prelude.{ℕ, ◌+◌, ◌-◌, ◌≤◌, ◌<◌, ◌≢◌, ◌++◌, [], All, take, replicate, length, vec_len};
ghost use Rattle.std.specs.Prelude.{IfSome, IsSome, IsNone, unwrap_or};
ghost use Rattle.rh_store.specs.Areas.{IsTidyArea, ChangedAt, area_bytes_at, contents, room_at};
ghost use Rattle.rh_defs.specs.Bytes.{with_part, put_word, part};

use crate::bytes::{copy_over, put_in, put_word_in, slide_in, zero_in};

/// An area: whether it is open, and its bytes, in a vector with room for all pages.
#[derive(Drop)]
pub struct Area {
    pub opened: bool,
    pub bytes: Vec<u8>,
}

/// The number of the first area that isn't open.
pub fn first_closed(areas: &[Area]) -> Option<usize>
    ensures closed { IfSome result (λ i. (i < length areas.now) × IsNone (contents areas.now i)) }
    ensures least { (k : ℕ) → k < unwrap_or result (length areas.now) → IsSome (contents areas.now k) }
{
    for (i, area) in areas.iter().enumerate() {
        if !area.opened {
            return Some(i);
        }
    }
    None
}

/// Opens a closed area.
pub fn open_at(areas: &mut Vec<Area>, i: usize)
    requires inside { i < vec_len areas.old }
    requires closed { IsNone (contents areas.old.items i) }
    requires tidy { All IsTidyArea areas.old.items }
    ensures { ChangedAt areas.old.items areas.new.items i (Some []) }
{
    let area = &mut areas[i];
    area.opened = true;
}

/// Closes an area and forgets its bytes.
pub fn close_at(areas: &mut Vec<Area>, i: usize)
    requires { IsSome (contents areas.old.items i) }
    ensures { ChangedAt areas.old.items areas.new.items i None }
{
    let area = &mut areas[i];
    area.opened = false;
    area.bytes.clear();
}

/// Appends zeros to an area, up to a new length for which its vector has room.
pub fn lengthen_at(areas: &mut Vec<Area>, i: usize, n: usize)
    requires opened { IsSome (contents areas.old.items i) }
    requires room { n ≤ room_at areas.old.items i }
    requires more { length (area_bytes_at areas.old.items i) ≤ n }
    ensures { ChangedAt areas.old.items areas.new.items i
        (Some (area_bytes_at areas.old.items i ++ replicate (n - length (area_bytes_at areas.old.items i)) 0)) }
{
    let area = &mut areas[i];
    area.bytes.resize(n, 0).unwrap();
}

/// Cuts an area off behind its first n bytes.
pub fn shorten_at(areas: &mut Vec<Area>, i: usize, n: usize)
    requires { IsSome (contents areas.old.items i) }
    ensures { ChangedAt areas.old.items areas.new.items i
        (Some (take n (area_bytes_at areas.old.items i))) }
{
    let area = &mut areas[i];
    area.bytes.truncate(n);
}

/// Writes a word in an area.
pub fn set_word_at(areas: &mut Vec<Area>, i: usize, at: usize, w: u32)
    requires opened { IsSome (contents areas.old.items i) }
    requires within { at + 4 ≤ length (area_bytes_at areas.old.items i) }
    ensures { ChangedAt areas.old.items areas.new.items i
        (Some (put_word (area_bytes_at areas.old.items i) at w)) }
{
    let area = &mut areas[i];
    put_word_in(&mut area.bytes, at, w);
}

/// Writes bytes in an area.
pub fn put_at(areas: &mut Vec<Area>, i: usize, at: usize, from: &[u8])
    requires opened { IsSome (contents areas.old.items i) }
    requires within { at + length from.now ≤ length (area_bytes_at areas.old.items i) }
    ensures { ChangedAt areas.old.items areas.new.items i
        (Some (with_part (area_bytes_at areas.old.items i) at from.now)) }
{
    let area = &mut areas[i];
    put_in(&mut area.bytes, at, from);
}

/// Writes n zeros in an area.
pub fn zero_at(areas: &mut Vec<Area>, i: usize, at: usize, n: usize)
    requires opened { IsSome (contents areas.old.items i) }
    requires within { at + n ≤ length (area_bytes_at areas.old.items i) }
    ensures { ChangedAt areas.old.items areas.new.items i
        (Some (with_part (area_bytes_at areas.old.items i) at (replicate n 0))) }
{
    let area = &mut areas[i];
    zero_in(&mut area.bytes, at, n);
}

/// Moves n bytes within an area.
pub fn slide_at(areas: &mut Vec<Area>, i: usize, from: usize, to: usize, n: usize)
    requires opened { IsSome (contents areas.old.items i) }
    requires source { from + n ≤ length (area_bytes_at areas.old.items i) }
    requires target { to + n ≤ length (area_bytes_at areas.old.items i) }
    ensures { ChangedAt areas.old.items areas.new.items i
        (Some (with_part (area_bytes_at areas.old.items i) to (part (area_bytes_at areas.old.items i) from n))) }
{
    let area = &mut areas[i];
    slide_in(&mut area.bytes, from, to, n);
}

/// Copies n bytes from one area to another.
pub fn copy_at(areas: &mut Vec<Area>, i: usize, at: usize, j: usize, at2: usize, n: usize)
    requires opened { IsSome (contents areas.old.items i) }
    requires opened2 { IsSome (contents areas.old.items j) }
    requires source { at + n ≤ length (area_bytes_at areas.old.items i) }
    requires target { at2 + n ≤ length (area_bytes_at areas.old.items j) }
    requires apart { i ≢ j }
    ensures { ChangedAt areas.old.items areas.new.items j
        (Some (with_part (area_bytes_at areas.old.items j) at2 (part (area_bytes_at areas.old.items i) at n))) }
{
    if i < j {
        let (front, back) = areas.split_at_mut(j);
        let area = &mut back[0];
        copy_over(&front[i].bytes, at, &mut area.bytes, at2, n);
    } else {
        let (front, back) = areas.split_at_mut(i);
        let area = &mut front[j];
        copy_over(&back[0].bytes, at, &mut area.bytes, at2, n);
    }
}
