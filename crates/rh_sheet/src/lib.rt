//! Sheets of memory: what `draw` writes, one document of HTML with a figure after each command of a script (in specs/),
//! with laws of its text.
#![tactic(auto)]

mod frame;
pub mod key;
mod laws;
mod note;
pub mod signs;
pub mod sizes;
pub mod style;

pub use frame::Frame;
pub use laws::{
    elements_law, escape_law, fate_law, inside_law, markup_law, sheet_order_law, slide_law,
};
pub use note::{Fate, Note, Whereabouts};
