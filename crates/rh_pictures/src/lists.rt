//! The lists that a figure is drawn with.

use arrayvec::ArrayVec;
use rh_defs::BlockItem;
use rh_defs::sizes::{ANCHORS, MAX_PAGES};
use rh_scene::Pieces;

/// The lists that a figure is drawn with, one area after the other: a task's flex blocks, the pieces of an area, and a
/// character for each page of the pool. No figure takes memory.
#[derive(Drop)]
pub struct Lists {
    pub blocks: ArrayVec<BlockItem, ANCHORS>,
    pub pieces: Pieces,
    pub marks: [u8; MAX_PAGES],
}

impl Lists {
    /// Empty lists.
    pub fn new() -> Lists {
        Lists {
            blocks: ArrayVec::new(),
            pieces: ArrayVec::new(),
            marks: [0; MAX_PAGES],
        }
    }
}
