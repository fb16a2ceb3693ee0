//! The lines of a script as they are read, piece by piece, and handed to what takes them; and the first that takes
//! them: a run, over any desktop that applies commands and prints their replies.
#![tactic(auto)]

mod buffers;
mod desktop;
mod fault;
mod feeding;
mod line;
mod running;
mod session;
mod status;
mod taker;

pub use buffers::{Buffers, LONGEST_PIECE, MOST_HELD};
pub use desktop::Desktop;
pub use fault::FeedFault;
pub use feeding::{LONGEST_SCRIPT, PIECE, feed_all, feed_whole};
pub use running::{run_script, run_whole};
pub use status::{RunFault, Status, run_fault};
pub use taker::LineTaker;
