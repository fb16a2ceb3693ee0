//! Slots in bytes that a caller lends: [`LentSlot`] has the calls of a slot on such bytes, whose first pages are the
//! slot's. [`LentPages`] makes the pages of bytes that are lent to be read an area, and [`LentPagesMut`] those of bytes
//! that are lent to be written.
#![tactic(auto)]

mod c_heap;
mod flex;
mod image;
mod pages;
mod pages_mut;
mod row;
mod slides;
mod slot;

pub use pages::LentPages;
pub use pages_mut::LentPagesMut;
pub use slot::LentSlot;
