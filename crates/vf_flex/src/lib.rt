//! Flex and the C heap of a task for programs in C: a slot in bytes of the caller's, with a number for how each call
//! ended.
//!
//! The bytes begin with the slot, and a `LentSlot` beside them says how many of their pages are the slot's. Each call
//! looks at both numbers first. Where a block begins is told as a place: the bytes from the first one, which is the
//! address that the words of the slot have, less &8000.
//!
//! What changes or looks at the bytes is there twice. `vf_flex_alloc` and its company take the bytes of the slot's
//! pages as the last call left them, which their `requires` says and a caller in C has to see to.
//! `vf_flex_checked_alloc` and its company take any bytes: they look at all of the slot first.
#![tactic(auto)]

mod amount;
mod c_heap;
mod checked;
mod flex;
mod image;
mod input;
mod places;
mod slot;
mod status;
mod wide;
mod wide_input;
