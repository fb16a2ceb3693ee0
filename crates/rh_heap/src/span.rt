//! Where a heap stands in an area.

pub mod claim;
pub mod holes;
pub mod indexed;
pub mod kept;
pub mod list;
pub mod peaks;
pub mod release;
pub mod resize;
pub mod segments;
pub mod starts;
mod stretch;
pub mod whole;
mod words;

use rh_store::AreaId;

/// Where a heap stands: in an area, from an offset in bytes on. Its length is read from its words.
#[derive(Clone, Copy, Debug, PartialEq, Eq)]
pub struct Span {
    pub area: AreaId,
    pub at: usize,
}
