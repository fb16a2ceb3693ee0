//! Pictures of memory: what is shown of a desk after a command, and the same as lines for a terminal (in specs/), with
//! the laws of both.
#![tactic(auto)]

mod heap_effect;
mod laws;
pub mod limits;
mod piece;

pub use heap_effect::HeapEffect;
pub use laws::{columns_law, map_order_law, still_law, tiles_law};
pub use piece::{Kind, Piece};
