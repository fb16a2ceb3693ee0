//! How a heap's segments lie in its bytes. The words of the descriptor before them are in `rh_defs::sizes`.

use rh_defs::sizes::WORD;

/// Where a used segment has its block, behind the word of its size.
pub const BLOCK: usize = WORD;

/// Where a hole has its size, behind the word of its link.
pub const HOLE_SIZE: usize = WORD;

/// The bytes of a hole's two words.
pub const HOLE_HEADER: usize = 2 * WORD;

/// A segment of a heap: its place and size in bytes from the heap's first one, and whether it is used.
/// A used segment's block begins a word behind its place.
#[derive(Clone, Copy, Debug, Default, PartialEq, Eq)]
pub struct Segment {
    pub place: usize,
    pub size: usize,
    pub used: bool,
}
