//! Runs a script over a world on any store and any files, draws its map or its sheet or explains what went wrong, and
//! says whether bytes are a heap, or a slot.
#![tactic(auto)]

mod checking;
mod explaining;
mod mapping;
mod native;
mod running;
mod sheets;
mod sight;
mod slot_checking;
mod whole;
mod world;

pub use checking::check_image;
pub use explaining::{explain, explain_over, explanations_of};
pub use mapping::{draw_map, map_over};
pub use rh_session::{RunFault, Status};
pub use running::{run, run_over};
pub use sheets::{draw_sheet, sheet_over};
pub use slot_checking::check_slot_image;
pub use whole::{map_of, replies_of, sheet_of};
