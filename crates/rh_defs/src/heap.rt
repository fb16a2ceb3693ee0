//! Why a heap refuses a call, and why bytes spell none.
ghost use Rattle.std.specs.Prelude.{◌≡◌};
ghost use Rattle.rh_defs.specs.Heap.{refusal_of};

use crate::refusal::Refusal;
use thiserror::Error;

/// Why a call on a heap was refused.
#[derive(Clone, Copy, Debug, Drop, PartialEq, Eq, Error)]
pub enum HeapRefusal {
    /// No block begins at the address.
    #[error("no block begins at this address")]
    NotABlock,
    /// The block would have fewer than 1 byte.
    #[error("a block has at least 1 byte")]
    BadSize,
    /// No hole is large enough, and the top isn't either.
    #[error("the heap has no room")]
    NoRoom,
    /// The heap's end would be below its last block.
    #[error("the heap would end below its last block")]
    ExcessiveShrink,
}

/// Why bytes spell no heap.
#[derive(Clone, Copy, Debug, PartialEq, Eq, Error)]
pub enum HeapFault {
    /// The length or a word of the descriptor is wrong.
    #[error("the descriptor is not that of a heap")]
    BadDescriptor,
    /// A link isn't 0, and leads to no place ahead at which a hole has room.
    #[error("a link does not lead to a hole ahead")]
    BadLink,
    /// A size isn't a positive multiple of 8, or goes past what follows.
    #[error("a size is not that of a segment")]
    BadSize,
}

/// A heap's refusal as that of the command which made the call.
impl From<HeapRefusal> for Refusal {
    ghost from_gives = { λ refused refusal. refusal ≡ refusal_of refused };

    fn from(refused: HeapRefusal) -> Refusal {
        match refused {
            HeapRefusal::NotABlock => Refusal::NotABlock,
            HeapRefusal::BadSize => Refusal::BadSize,
            HeapRefusal::NoRoom => Refusal::NoRoom,
            HeapRefusal::ExcessiveShrink => Refusal::ExcessiveShrink,
        }
    }
}
