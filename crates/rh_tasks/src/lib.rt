//! The desk's world: a store whose areas hold the slots, the module area and the pages, and what is kept beside them.
#![tactic(auto)]

mod accepting;
mod areas;
mod block_bytes;
mod blocks;
mod c_heap;
mod documents;
mod letters;
mod listing;
mod made;
mod making;
mod module_area;
mod module_blocks;
mod named_files;
mod next_numbers;
mod outgoing;
mod polling;
mod raw_commands;
mod records;
mod saving;
mod scrap;
mod scrap_transfers;
mod seat;
mod seats;
mod sights;
mod spooling;
mod standing;
mod tasks;
mod transfer_block;
mod transfers;
mod world;

pub use listing::{AreaEntry, HeapSums};
pub use named_files::NamedFiles;
pub use scrap::ScrapFile;
pub use seat::SentLetter;
pub use sights::{LiveTask, MadeSight};
pub use standing::share_law;
pub use world::World;
