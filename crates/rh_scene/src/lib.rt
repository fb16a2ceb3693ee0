//! What a picture of memory is drawn from: a desk that can be looked at, what is kept of it before a command, and what
//! the command did; of these the pieces of areas.
#![tactic(auto)]

mod freshness;
mod kept;
mod marks;
mod message_list;
mod pages;
mod pieces;
mod segments;
mod sight;
mod spots;
mod step;
mod step_sender;
mod tasks;
mod walk;

pub use freshness::{is_drawn, is_fresh_block, is_fresh_flex, is_new_ref, is_vacated};
pub use kept::{Holding, Kept, Owner};
pub use marks::{Effect, HeapBlock, Marks, is_still, sent_by};
pub use message_list::{MessagePlace, held_by, message_in, place_of};
pub use pages::{free_of, pages_of};
pub use pieces::{MOST_PIECES, Pieces, module_pieces, slot_pieces};
pub use segments::{block_size, segment_seen, top_size};
pub use sight::{
    AreaSight, HeapOf, Messages, PageList, PagesOf, ScrapSight, Segments, Sight, TaskSight,
};
pub use step::Step;
pub use step_sender::StepSender;
pub use tasks::{task_named, task_with};
pub use walk::{Census, heap_address, place_behind, take_census};
