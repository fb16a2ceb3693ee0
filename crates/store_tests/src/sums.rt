//! Bytes that are easy to tell apart, what bytes add up to, and a slide in a slice.

use std::alloc::Global;

/// The most bytes of a pattern.
const MOST: usize = 1_048_576;

/// Bytes of which neighbours differ.
pub(crate) fn pattern(alloc: Global, n: usize) -> Option<Vec<u8>> {
    if n > MOST {
        return None;
    }
    let mut bytes = Vec::with_capacity(alloc, n).ok()?;
    for i in 0..n {
        bytes.push((i * 7 % 251) as u8).ok()?;
    }
    Some(bytes)
}

/// What bytes add up to, each by its place (the hash FNV-1a of 32 bits).
pub(crate) fn sum(bytes: &[u8]) -> u32 {
    let mut sum = 2_166_136_261u32;
    for byte in bytes {
        sum = (sum ^ u32::from(*byte)).wrapping_mul(16_777_619);
    }
    sum
}

/// Whether all bytes are 0.
pub(crate) fn are_zero(bytes: &[u8]) -> bool {
    for byte in bytes {
        if *byte != 0 {
            return false;
        }
    }
    true
}

/// Moves n bytes within a slice, none where it has fewer.
pub(crate) fn slide_in(bytes: &mut [u8], from: usize, to: usize, n: usize) -> Option<()> {
    let len = bytes.len();
    if !(from <= len && n <= len - from && to <= len && n <= len - to) {
        return None;
    }
    bytes.copy_within(from..from + n, to);
    Some(())
}
