//! The pictures of a script, its map and its sheet: after each command its reply, what has changed, and the figure of
//! memory, over any desk that takes commands and can be looked at.
#![tactic(auto)]

mod artist;
mod counts;
mod deeds;
mod drawn;
mod excerpt;
mod lens;
mod lists;
mod map;
mod owners;
mod sheet;
mod walks;
mod who;

pub use drawn::Drawn;
pub use lens::size::LensSize;
pub use map::running::{map_script, map_whole};
pub use sheet::form::SheetForm;
pub use sheet::running::{paint_script, paint_whole};
