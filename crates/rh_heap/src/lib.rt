//! Heaps of blocks that live in the words of an area, and a checker for bytes from anywhere.
#![tactic(auto)]

mod image;
mod layout;
mod span;

pub use image::{SegmentIter, Summary, check, segments};
pub use layout::Segment;
pub use rh_store::LINE_BYTES;
pub use span::Span;
pub use span::claim::need;
pub use span::holes::describe;
pub use span::indexed::{
    block_size_in, claim_in, holds_in, index, release_in, resize_in, resize_need_in,
};
pub use span::kept::{
    block_size, claim, extend_heap, holds, keep_map, release, resize, resize_need, take_map,
};
pub use span::list::segments_from;
pub use span::segments::segment;
pub use span::whole::{end, init};
