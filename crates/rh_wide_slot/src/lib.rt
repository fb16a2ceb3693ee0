//! Wide slots: flex blocks of 64 to 4,096 anchors in bytes that a caller lends. Each anchor has two words at the head
//! of the bytes: the place of its block, and the block's size. The blocks lie one after the other behind them, and
//! slide so that what is free is all behind. Between the words and the blocks are bytes of the caller's.
#![tactic(auto)]

mod flex;
mod row;
mod slot;

pub use slot::{MOST_ANCHORS, WideSlot};
