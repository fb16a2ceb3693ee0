//! A store that keeps, beside each area, a map of where the segments of the area's heap begin: over any store, and over
//! scattered pages for native programs.
#![tactic(auto)]

mod indexed_store;
mod maps;
mod native;
mod needs;
mod rows;

pub use indexed_store::IndexedStore;
pub use native::{PageStore, page_store};
