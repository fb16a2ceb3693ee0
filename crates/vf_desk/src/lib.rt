//! The desk for programs in C: a handle, a call for each command, lines and their replies.
//!
//! A desk is held by the address of a box (`handle`); all else is safe code. Each call with a command makes the command
//! of its arguments (`forms`), does it (`open desk`), and takes the words and numbers of the reply apart (`called`).
//! A `Console` takes lines, and `said` prints the text of a reply into the caller's bytes.
#![tactic(auto)]

mod areas;
mod block_edits;
mod block_reads;
mod c_heap;
mod call_outcome;
mod console;
mod desk;
mod desk_files;
mod event;
mod flex;
mod forms;
mod handle;
mod held;
mod items;
mod lines;
mod listing;
mod lists;
mod next;
mod open_desk;
mod opening;
mod programs;
mod questions;
mod said;
mod status;
mod tasks;
