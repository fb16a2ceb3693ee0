//! Walks over the things of a step, each of which an artist is handed.

pub mod areas;
pub mod block_changes;
pub mod cards;
pub mod changes;
pub mod effect_changes;
pub mod flex_cards;
pub mod heap_cards;
pub mod heap_changes;
pub mod letters;
pub mod page_changes;
pub mod post_changes;
pub mod taken_changes;
pub mod transfers;
pub mod usage;
