//! The lenses of a step: of a task's slot, and of the module area.

pub mod anchors;
pub mod fronts;
pub mod modules;
pub mod size;
pub mod slots;
