//! Numbers in a row, and over them the larger of each two, up to one number. The row has a power of two of them, in
//! the upper half of its words, and word k of the lower half is the larger of words 2k and 2k + 1.
#![tactic(auto)]

mod row;

pub use row::{first, last, put};
