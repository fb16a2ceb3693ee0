//! The Wimp's messages: their bytes, and the queue that keeps them in blocks of the module area. What has a place for
//! each task, as the queue, is a `Table`: a row of fixed length, which takes no memory.
#![tactic(auto)]

mod any_body;
mod bytes;
mod chain;
mod death;
mod decoding;
mod encoding;
mod holding;
mod laws;
mod layout;
mod listing;
mod peeking;
mod placing;
mod polling;
mod queue;
mod reading;
mod searching;
mod sending;
mod table;

pub use any_body::{body_of, read_body};
pub use decoding::{decode, decode_any};
pub use encoding::encode;
pub use laws::{beside_law, codec_law, post_law};
pub use queue::Queue;
pub use table::Table;
