//! Heaps in memory that a caller lends: [`heap`] has the calls of OS_Heap on a slice of bytes. [`Lent`] makes a slice
//! that is lent to be read an area of words, and [`LentMut`] one that is lent to be written.
#![tactic(auto)]

pub mod heap;
pub mod indexed;
mod lent;
mod lent_mut;

pub use lent::{LENT, Lent};
pub use lent_mut::LentMut;
