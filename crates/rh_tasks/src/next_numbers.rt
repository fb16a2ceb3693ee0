//! What is given next.

ghost use Rattle.std.specs.Prelude.{◌≡◌, ◌<◌, ◌^◌};
ghost use Rattle.rh_defs.specs.declared.sizes.TheConstants.{FIRST_MADE};

use rh_defs::sizes::FIRST_MADE;

/// The numbers that are given next. Each goes up by one, and none is given twice.
#[derive(Clone, Copy, Debug, PartialEq, Eq)]
pub struct NextNumbers {
    /// The next task's handle; 2^32 where all were given.
    pub handle: u64,
    /// The next made area's number.
    pub area: u32,
}

impl NextNumbers {
    /// The numbers that a desk gives first, with this next handle.
    pub(crate) fn first(handle: u32) -> NextNumbers
        ensures handle { result.handle ≡ handle }
        ensures area { result.area ≡ FIRST_MADE }
        ensures word { handle < 2 ^ 32 }
    {
        NextNumbers {
            handle: u64::from(handle),
            area: FIRST_MADE,
        }
    }
}
