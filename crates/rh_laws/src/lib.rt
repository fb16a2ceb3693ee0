//! Laws that nothing else stands on: what holds of the desk's definitions beside the laws of the transfers.
#![tactic(auto)]

mod addressed;
mod cancels;
mod claimed;
mod contents;
mod delivered;
mod done;
mod file_ends;
mod files;
mod frame;
mod heaps;
mod lines;
mod live;
mod moved;
mod order;
mod partners;
mod progress;
mod records;
mod renaming;
mod rest;
mod scrap;
mod shown;

pub use addressed::addressed_law;
pub use cancels::cancel_law;
pub use claimed::claimed_law;
pub use contents::contents_law;
pub use delivered::delivered_law;
pub use done::done_law;
pub use file_ends::file_end_law;
pub use files::file_law;
pub use frame::frame_law;
pub use heaps::describe_law;
pub use lines::line_law;
pub use live::live_law;
pub use moved::moved_law;
pub use order::refusal_order_law;
pub use partners::partner_law;
pub use progress::progress_law;
pub use records::records_law;
pub use renaming::renaming_law;
pub use rest::rest_law;
pub use scrap::scrap_alternation_law;
pub use shown::shown_law;
