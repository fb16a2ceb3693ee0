//! Slots: a task's anchor words, C heap and flex blocks, in the words of one area. Flex blocks slide.
#![tactic(auto)]

mod area;
mod bytes;
mod c_heap;
mod flex;
mod image;
mod row;
mod slot;

pub use bytes::{append_from, free_anchor, put_from, write_at, write_from};
pub use image::{LONGEST_SLOT, SlotFault, SlotSummary, check};
pub use row::FlexWalk;
pub use slot::Slot;
