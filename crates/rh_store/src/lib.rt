//! Memory that areas share in whole pages, as traits that stand on one another: [`Words`] reads areas that are there,
//! [`WordsMut`] writes in them, [`Paged`] reads areas of whole pages, [`Pages`] makes them longer and shorter, and
//! [`Store`] opens and closes them. [`Sited`] is a store whose pages have numbers, and [`PlainStore`] keeps a vector
//! for each area.
//!
//! A caller over any store names the laws of bytes and memories, and then often needs no proof file:
//!
//! ```text
//! #[tactic(auto, using(rh_defs::proofs::BytesLaws::word_laws, rh_defs::proofs::MemoryLaws::memory_laws))]
//! fn swap_words<S: WordsMut>(store: &mut S, id: AreaId)
//!     requires opened { IsOpen (S.memory store.old) id.0 }
//!     requires room { 8 ≤ length (bytes (S.memory store.old) id.0) }
//!     ensures first { word (bytes (S.memory store.new) id.0) 0 ≡ word (bytes (S.memory store.old) id.0) 4 }
//!     ensures second { word (bytes (S.memory store.new) id.0) 4 ≡ word (bytes (S.memory store.old) id.0) 0 }
//! {
//!     let first = store.word(id, 0);
//!     let second = store.word(id, 4);
//!     store.set_word(id, 0, second);
//!     store.set_word(id, 4, first);
//! }
//! ```
#![tactic(auto)]

mod area;
pub mod bytes;
mod plain;
mod sited;
mod starts;
mod store;

pub use plain::PlainStore;
pub use sited::Sited;
pub use starts::{BITS, HOLES, LINE_BYTES, Lines, NoLines, Rows, Starts, TRACT_BYTES, USED};
pub use store::{AreaId, Paged, Pages, Store, StoreFault, Words, WordsMut};
