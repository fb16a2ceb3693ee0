//! Rows about a region.

use crate::answer::{shown, tell};
use crate::row::Row;
use crate::sums::{are_zero, slide_in, sum};
use rh_region::Region;
use std::alloc::Global;
use std::io;

/// The most pages that a region can be asked for: 2^63 - 4096 bytes, which no machine has.
const MOST_PAGES: usize = 2_251_799_813_685_247;

/// Makes the calls of the rows on a region of so many pages.
pub(crate) fn rows<R: Print + AllocGlobal>(rt: &R, pages: usize, rows: &str) -> io::Result<()> {
    if pages > MOST_PAGES {
        return tell(rt, "start", None);
    }
    let Ok(mut region) = Region::new(rt.alloc(), pages) else {
        return println!(rt; "start = want of memory");
    };
    for line in rows.lines() {
        let answer = call(rt.alloc(), &mut region, &Row::new(line));
        tell(rt, line, answer)?;
    }
    Ok(())
}

/// What the call of a row answers, none where the bytes that it names aren't there.
fn call(alloc: Global, region: &mut Region, row: &Row<'_>) -> Option<String> {
    match row.word(0)? {
        "set_word" => shown(alloc, set_word(region, row.size(1)?, row.number(2)?)?),
        "slide" => shown(
            alloc,
            slide(alloc, region, row.size(1)?, row.size(2)?, row.size(3)?)?,
        ),
        "zero" => shown(alloc, zero(region, row.size(1)?, row.size(2)?)?),
        "count_up" => shown(alloc, count_up(region, row.size(1)?)?),
        "reverse" => shown(alloc, reverse(region, row.size(1)?, row.size(2)?)?),
        _ => ask(alloc, region, row),
    }
}

/// What a question answers.
fn ask(alloc: Global, region: &Region, row: &Row<'_>) -> Option<String> {
    match row.word(0)? {
        "len" => shown(alloc, region.len()),
        "word" => {
            let word = word(region, row.size(1)?)?;
            format!(in alloc; "&{word:x}").ok()
        }
        "bytes" => shown(alloc, some_bytes(region, row.size(1)?, row.size(2)?)?),
        "zeros" => shown(
            alloc,
            are_zero(some_bytes(region, row.size(1)?, row.size(2)?)?),
        ),
        "sum" => shown(alloc, sum(some_bytes(region, row.size(1)?, row.size(2)?)?)),
        _ => None,
    }
}

fn word(region: &Region, at: usize) -> Option<u32> {
    let len = region.len();
    if len < 4 || at > len - 4 {
        return None;
    }
    Some(region.word(at))
}

fn set_word(region: &mut Region, at: usize, word: u32) -> Option<()> {
    let len = region.len();
    if len < 4 || at > len - 4 {
        return None;
    }
    region.set_word(at, word);
    Some(())
}

/// Moves n bytes within the region, and tells whether all bytes are then as the same slide leaves them in a slice.
fn slide(alloc: Global, region: &mut Region, from: usize, to: usize, n: usize) -> Option<bool> {
    let len = region.len();
    if n > len || from > len - n || to > len - n {
        return None;
    }
    let mut model = Vec::from_slice(alloc, region.bytes(0, len)).ok()?;
    slide_in(&mut model, from, to, n)?;
    region.slide(from, to, n);
    Some(some_bytes(region, 0, len)? == model.as_slice())
}

fn zero(region: &mut Region, at: usize, n: usize) -> Option<()> {
    let len = region.len();
    if n > len || at > len - n {
        return None;
    }
    region.zero(at, n);
    Some(())
}

fn some_bytes(region: &Region, at: usize, n: usize) -> Option<&[u8]> {
    let len = region.len();
    if n > len || at > len - n {
        return None;
    }
    Some(region.bytes(at, n))
}

/// Writes 1, 2, 3 and so on to the first bytes, after 251 the 1 again.
fn count_up(region: &mut Region, n: usize) -> Option<()> {
    if n > region.len() {
        return None;
    }
    let bytes = region.bytes_mut(0, n);
    for (i, byte) in bytes.iter_mut().enumerate() {
        *byte = (i % 251) as u8 + 1;
    }
    Some(())
}

/// Turns so many bytes from a place on round.
fn reverse(region: &mut Region, at: usize, n: usize) -> Option<()> {
    let len = region.len();
    if n > len || at > len - n {
        return None;
    }
    region.bytes_mut(at, n).reverse();
    Some(())
}
