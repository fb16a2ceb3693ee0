//! OS_Heap for programs in C: heaps in bytes of the caller's, with a number for how each call ended.
//!
//! What changes or looks at a heap is there twice. `vf_heap_claim` and its company take the bytes as the last call left
//! them, which their `requires` says and a caller in C has to see to. `vf_heap_checked_claim` and its company take any
//! bytes: they look at all of the heap first. What looks for a block is there once more, as `vf_heap_indexed_claim`,
//! for callers that keep a map of the heap's segments beside it.
#![tactic(auto)]

mod checked;
mod image;
mod indexed;
mod plain;
mod status;
mod version;
