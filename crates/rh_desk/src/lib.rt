//! The program over words and streams that are handed in.
#![tactic(auto)]

mod asked;
mod command_line;
mod files;
mod hint;
mod input;
mod mistakes;
mod program_end;
mod reasons;
mod request;
mod telling;
mod words;

pub use rh_run::{
    RunFault, Status, check_image, check_slot_image, draw_map, draw_sheet, explain, run,
};
pub use words::{program, words_unread};
