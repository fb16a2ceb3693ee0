//! The checker over bytes from anywhere: what it takes for a heap has segments that add up to what it says.

ghost use Rattle.std.specs.Prelude.{◌<◌, IfOk};
ghost use Rattle.rh_defs.specs.HeapImage.{IsImage, heap_of};
ghost use Rattle.rh_heap.specs.HeapSpans.{IsSpan};

use crate::answer::shown;
use crate::heaps::empty_heap;
use crate::numbers::{RandomNumbers, put_word};
use crate::row::Row;
use rh_heap::{Span, Summary, check, claim, release, segments};
use rh_store::{PlainStore, Words, WordsMut};
use std::alloc::Global;

/// A heap of 56 bytes with two blocks and a hole between them.
const IMAGE: [u8; 56] = [
    0x48, 0x65, 0x61, 0x70, 0x1c, 0, 0, 0, 0x30, 0, 0, 0, 0x38, 0, 0, 0, 0x10, 0, 0, 0, 0, 0, 0, 0,
    0, 0, 0, 0, 0, 0, 0, 0, 0, 0, 0, 0, 0x08, 0, 0, 0, 0x08, 0, 0, 0, 0, 0, 0, 0, 0, 0, 0, 0, 0, 0,
    0, 0,
];

/// The images that are made of each kind.
const IMAGES: u32 = 100_000;

/// What a row answers: what the checker says of the bytes that it spells, or whether more images than so many of a kind
/// are taken for heaps, of which each has segments that add up to what was said of it.
pub(crate) fn call(alloc: Global, row: &Row<'_>) -> Option<String> {
    match row.word(0)? {
        "image" => shown(
            alloc,
            check(spelled(alloc, row.word(1).unwrap_or(""))?.as_slice()),
        ),
        "each_byte_changed" => shown(alloc, each_byte_changed()? > row.number(1)?),
        "random_words" => shown(alloc, random_images()? > row.number(1)?),
        "one_word_changed" => {
            let taken = heaps_with_one_word_changed(alloc)?;
            shown(alloc, taken > row.number(1)? && taken < IMAGES)
        }
        _ => None,
    }
}

/// The bytes that hexadecimal digits spell.
fn spelled(alloc: Global, digits: &str) -> Option<Vec<u8>> {
    let mut bytes = Vec::new(alloc);
    for at in 0..digits.len() / 2 {
        let pair = digits.get(2 * at..2 * at + 2)?;
        bytes.push(u8::from_str_radix(pair, 16).ok()?).ok()?;
    }
    Some(bytes)
}

/// What the segments of an image add up to.
fn added(image: &[u8]) -> Summary
    requires { IsImage image.now (heap_of image.now 0) }
{
    let mut sums = Summary {
        used: 0,
        used_bytes: 0,
        holes: 0,
        hole_bytes: 0,
        top: image.len().wrapping_sub(16),
    };
    for segment in segments(image) {
        if segment.used {
            sums.used = sums.used.wrapping_add(1);
            sums.used_bytes = sums.used_bytes.wrapping_add(segment.size);
        } else {
            sums.holes = sums.holes.wrapping_add(1);
            sums.hole_bytes = sums.hole_bytes.wrapping_add(segment.size);
        }
        sums.top = image
            .len()
            .wrapping_sub(segment.place)
            .wrapping_sub(segment.size);
    }
    sums
}

/// How many heaps an image is taken for, 0 or 1; none where its segments don't add up to what was said of it.
fn taken_for(image: &[u8]) -> Option<u32> {
    match check(image) {
        Ok(sums) => {
            if added(image) != sums {
                return None;
            }
            Some(1)
        }
        Err(_fault) => Some(0),
    }
}

/// How many images are taken for heaps of which one byte is another.
fn each_byte_changed() -> Option<u32> {
    let mut taken = 0u32;
    for place in 0..56usize {
        for value in 0..=255u8 {
            let mut image = IMAGE;
            image[place] = value;
            taken = taken.wrapping_add(taken_for(&image)?);
        }
    }
    Some(taken)
}

/// A word as it may stand in a heap: a small multiple of 8, at times 0, and now and then anything.
fn some_word(numbers: &mut RandomNumbers) -> u32 {
    match numbers.below(8) {
        0 => numbers.below(0x0100_0000).wrapping_mul(257),
        1 => numbers.below(256),
        2..=4 => 0,
        _ => numbers.below(12) * 8,
    }
}

/// Fills an image with such words, behind a descriptor that is mostly right.
fn scribble(numbers: &mut RandomNumbers, image: &mut [u8]) {
    for place in (0..image.len()).step_by(4) {
        put_word(image, place, some_word(numbers));
    }
    if numbers.below(16) > 0 {
        put_word(image, 0, 0x7061_6548);
        put_word(image, 8, 16 + 8 * numbers.below(6));
        put_word(image, 12, u32::try_from(image.len()).unwrap_or(0));
    }
}

/// How many images of such words are taken for heaps.
fn random_images() -> Option<u32> {
    let mut numbers = RandomNumbers::new();
    let mut taken = 0u32;
    for _image in 0..IMAGES {
        let mut image = [0; 128];
        let length = 8 * numbers.below(17) as usize;
        let image = &mut image[..length];
        scribble(&mut numbers, image);
        taken = taken.wrapping_add(taken_for(image)?);
    }
    Some(taken)
}

/// Claims a block, or releases one if it is where a block may be.
fn change<S: WordsMut>(store: &mut S, span: Span, numbers: &mut RandomNumbers)
    requires { IsSpan (S.memory store.old) span }
    ensures { IsSpan (S.memory store.new) span }
{
    if numbers.below(2) == 0 {
        let _full = claim(store, span, 1 + numbers.below(24));
    } else {
        let address = 20 + 8 * numbers.below(60) as usize;
        let _free = release(store, span, address);
    }
}

/// The bytes of the heap, or zeros where its area has fewer.
fn bytes_of<S: Words>(store: &S, span: Span) -> [u8; 512]
    requires { IsSpan (S.memory store.now) span }
{
    let mut image = [0; 512];
    if store.len(span.area) > 1024 && span.at < 512 {
        store.copy_out(span.area, span.at, &mut image);
    }
    image
}

/// How many images are taken for heaps that a heap spells, once one of their words is another.
fn changed_words<S: WordsMut>(store: &mut S, span: Span) -> Option<u32>
    requires { IsSpan (S.memory store.old) span }
{
    let mut numbers = RandomNumbers::new();
    let mut taken = 0u32;
    for _image in 0..IMAGES {
        change(store, span, &mut numbers);
        let mut image = bytes_of(store, span);
        if taken_for(&image)? != 1 {
            return None;
        }
        let place = 4 * numbers.below(128) as usize;
        put_word(&mut image, place, some_word(&mut numbers));
        taken = taken.wrapping_add(taken_for(&image)?);
    }
    Some(taken)
}

/// How many images are taken for heaps that a heap of 512 bytes spells, once one of their words is another.
fn heaps_with_one_word_changed(alloc: Global) -> Option<u32> {
    let mut store = PlainStore::new(alloc, 8).ok()?;
    let span = empty_heap(&mut store, 8, 512)?;
    changed_words(&mut store, span)
}
