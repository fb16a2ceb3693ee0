//! Where the module area is.
ghost use Rattle.std.specs.Prelude.{◌≡◌};

use rh_heap::Span;
use rh_store::AreaId;

/// The module area: a heap from the area's first byte to its last. Addresses are offsets in bytes from the first one.
#[derive(Clone, Copy, Debug, PartialEq, Eq)]
pub struct Module {
    pub area: AreaId,
}

impl Module {
    /// Where the heap stands: at the area's first byte.
    pub(crate) fn span(self) -> Span
        ensures { result ≡ record { area = self.area; at = 0 } }
    {
        Span {
            area: self.area,
            at: 0,
        }
    }
}
