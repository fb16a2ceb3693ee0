//! The lens: the parts of a slot, or of the module area, at a width at which each can be read (in specs/), with laws of
//! where they stand; and a lens as it is written, element by element, from plain values.
#![tactic(auto)]

mod anchors;
mod bands;
mod byte_words;
mod contents;
mod laws;
mod lens;
mod parts;
mod room;
pub mod sizes;
mod spots;
mod strip;
mod widths;
mod words;

pub use anchors::ShownAnchor;
pub use contents::{Contents, Inside, Words};
pub use laws::{lens_elements_law, rows_law, whole_law, words_law};
pub use lens::{ModuleView, SlotView, print_module_lens, print_slot_lens};
