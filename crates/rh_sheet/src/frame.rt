//! Where the parts of an area's figure stand.

/// How many pages of an area have rows, those that were given back among them, and how many cards stand above the rows
/// and below them.
#[derive(Clone, Copy)]
pub struct Frame {
    pub pages: usize,
    pub above: usize,
    pub below: usize,
}
