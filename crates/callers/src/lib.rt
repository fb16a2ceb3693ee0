//! A caller of each library of memory and of the transfer cores, to be copied: the same text stands in that library's
//! CALLING.md.
#![tactic(auto)]

mod heap;
mod lent;
mod module;
mod ram;
mod slot;
mod tasks;
mod wimp;

pub use heap::{start_heap, two_blocks};
pub use lent::grow_block;
pub use module::{give_bytes, keep_bytes};
pub use ram::hand_over;
pub use slot::{hold_bytes, take_bytes};
pub use tasks::{start_world, three_commands};
pub use wimp::{ask_for_bytes, two_tasks};
