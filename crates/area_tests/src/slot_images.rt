//! The checker of slots over bytes from anywhere: worked images and what is wrong with each, every byte of one image at
//! every value, and random words in it, against a model that starts from the anchor words.

use crate::answer::shown;
use crate::numbers::{RandomNumbers, put_word};
use crate::row::Row;
use rh_defs::HeapFault;
use rh_slot::{LONGEST_SLOT, SlotFault, SlotSummary, check};
use std::alloc::Global;

/// The bytes of a page.
const PAGE: usize = 4096;

/// The images of random words that are made.
const IMAGES: u32 = 20_000;

/// What a row answers of images: of the worked slot, with a word of it another, of some of its bytes, or of more after
/// them; or how many of its images with one byte changed are slots, and whether random words are told as the model has
/// it.
pub(crate) fn call(alloc: Global, row: &Row<'_>) -> Option<String> {
    match row.word(0)? {
        "worked" => shown(alloc, check(&worked())),
        "changed" => shown(alloc, check(&changed(row.size(1)?, row.number(2)?))),
        "first" => first(alloc, row.size(1)?),
        "without_first" => without_first(alloc, row.size(1)?),
        "longer" => longer(alloc, row.size(1)?, row.number(2)?),
        "slots_among" => shown(alloc, slots_among(row.size(1)?, row.size(2)?)?),
        "random_words" => shown(alloc, random_words()?),
        "text" => fault_text(alloc, row.word(1)?),
        _ => None,
    }
}

/// What the checker says of so many bytes of the worked slot.
fn first(alloc: Global, n: usize) -> Option<String> {
    let image = worked();
    shown(alloc, check(image.get(..n)?))
}

/// What the checker says of all but so many of the worked slot's first bytes.
fn without_first(alloc: Global, n: usize) -> Option<String> {
    let image = worked();
    shown(alloc, check(image.get(n..)?))
}

/// The words of the worked slot that aren't 0, by their places: those of the anchors 0, 3 and 63; a C heap of 48 bytes
/// with a hole between two blocks; flex blocks of 5, 0 and 8 bytes at 304, 320 and 328 for the anchors 3, 0 and 63.
const WORDS: [(usize, u32); 18] = [
    (0, 0x8148),
    (12, 0x8138),
    (252, 0x8150),
    (256, 0x7061_6548),
    (260, 20),
    (264, 40),
    (268, 48),
    (272, 8),
    (284, 8),
    (288, 8),
    (304, 0x800C),
    (308, 5),
    (312, 0x6463_6261),
    (316, 0x65),
    (320, 0x8000),
    (324, 0),
    (328, 0x80FC),
    (332, 8),
];

/// The worked slot, in one page.
fn worked() -> [u8; PAGE] {
    let mut image = [0; PAGE];
    for (place, word) in WORDS {
        put_word(&mut image, place, word);
    }
    image
}

/// The worked slot with another word at a place.
fn changed(place: usize, word: u32) -> [u8; PAGE] {
    let mut image = worked();
    put_word(&mut image, place, word);
    image
}

/// The byte at a place, 0 past the end.
fn byte(image: &[u8], place: usize) -> u8 {
    image.get(place).copied().unwrap_or(0)
}

/// The word at a place. Bytes past the end count as 0.
fn word(image: &[u8], place: usize) -> usize {
    u32::from_le_bytes([
        byte(image, place),
        byte(image, place.wrapping_add(1)),
        byte(image, place.wrapping_add(2)),
        byte(image, place.wrapping_add(3)),
    ]) as usize
}

/// The anchor words.
fn anchors_of(image: &[u8]) -> [usize; 64] {
    let mut anchors = [0; 64];
    for (anchor, there) in anchors.iter_mut().enumerate() {
        *there = word(image, anchor.wrapping_mul(4));
    }
    anchors
}

/// What a slot consists of, or `None` where the bytes are none's: its blocks are those that the anchor words lead to,
/// from below, and no anchor word leads elsewhere.
fn modelled(image: &[u8]) -> Option<SlotSummary> {
    let length = image.len();
    let end = word(image, 268);
    if length == 0 || length % PAGE != 0 || end > length.wrapping_sub(256) {
        return None;
    }
    let heap = rh_heap::check(image.get(256..end.wrapping_add(256))?).ok()?;
    let anchors = anchors_of(image);
    let used = anchors.iter().filter(|there| **there != 0).count();
    let mut place = end.wrapping_add(256);
    let mut bytes = 0usize;
    for blocks in 0..65 {
        let address = place.wrapping_add(0x8008);
        let Some(anchor) = anchors.iter().position(|there| *there == address) else {
            let unused = length.wrapping_sub(place);
            return (blocks == used && unused < PAGE).then_some(SlotSummary {
                blocks,
                bytes,
                heap,
                unused,
            });
        };
        if word(image, place) != anchor.wrapping_mul(4).wrapping_add(0x8000) {
            return None;
        }
        let size = word(image, place.wrapping_add(4));
        place = place
            .wrapping_add(8)
            .wrapping_add(size.wrapping_add(3) / 4 * 4);
        if place > length {
            return None;
        }
        bytes = bytes.wrapping_add(size);
    }
    None
}

/// What the checker says of the worked slot with zeros up to a length, and with a size of its last block, where that is
/// less than the longest slot and a page.
fn longer(alloc: Global, length: usize, last_size: u32) -> Option<String> {
    if length > LONGEST_SLOT + PAGE {
        return None;
    }
    let mut image = vec![in alloc; 0; length].ok()?;
    for (byte, there) in image.as_mut_slice().iter_mut().zip(changed(332, last_size)) {
        *byte = there;
    }
    shown(alloc, check(image.as_slice()))
}

/// A fault as a sentence.
fn fault_text(alloc: Global, name: &str) -> Option<String> {
    let fault = match name {
        "length" => SlotFault::BadLength,
        "heap" => SlotFault::BadHeap(HeapFault::BadLink),
        "size" => SlotFault::BadSize,
        "anchor" => SlotFault::BadAnchor,
        "spare" => SlotFault::SparePage,
        _ => return None,
    };
    fault.to_string(alloc).ok()
}

/// Gives the byte of the worked slot at a place every value, and counts the images that are slots; none where the model
/// has it otherwise.
fn slots_at(place: usize) -> Option<u32> {
    let mut image = worked();
    let mut slots = 0u32;
    for value in 0..=255u8 {
        if let Some(byte) = image.get_mut(place) {
            *byte = value;
        }
        let found = check(&image).ok();
        if found != modelled(&image) {
            return None;
        }
        slots = slots.wrapping_add(u32::from(found.is_some()));
    }
    Some(slots)
}

/// Gives the byte of the worked slot at each place from one up to another every value, and counts the images that are
/// slots; none where the model has it otherwise.
fn slots_among(from: usize, to: usize) -> Option<u32> {
    let mut slots = 0u32;
    for place in from..to {
        slots = slots.wrapping_add(slots_at(place)?);
    }
    Some(slots)
}

/// A word as it may stand in a slot: 0, an address, a small number, or anything.
fn some_word(numbers: &mut RandomNumbers) -> u32 {
    match numbers.below(4) {
        0 => 0,
        1 => 0x8000 + numbers.below(96) * 4,
        2 => numbers.below(16),
        _ => numbers.below(0x0100_0000).wrapping_mul(257),
    }
}

/// How many images with two random words are told as the model has it: all, or none.
fn random_words() -> Option<u32> {
    let mut numbers = RandomNumbers::new();
    for _image in 0..IMAGES {
        let place = numbers.below(96) as usize * 4;
        let mut image = changed(place, some_word(&mut numbers));
        let place = numbers.below(96) as usize * 4;
        put_word(&mut image, place, some_word(&mut numbers));
        if check(&image).ok() != modelled(&image) {
            return None;
        }
    }
    Some(IMAGES)
}
