//! What a task received of a file, as it stands in the bytes of the store.
#![tactic(auto)]

mod laws;
mod session;

pub use laws::{received_law, run_law};
pub use session::run_commands;
