//! The pieces of an area: its bytes, one thing after the other.

/// What a piece is. A block has the number of its bytes, a message its ref, a flex block its anchor too.
#[derive(Clone, Copy)]
pub enum Kind {
    /// The anchor words of a slot.
    AnchorWords,
    /// The descriptor of a heap.
    Descriptor,
    /// A block of a heap, with the word of its size.
    Claimed { size: u32 },
    /// A block of the module area that holds a message.
    Posted { message: u32 },
    /// A hole of a heap.
    FreeHole,
    /// The segments of a heap that aren't drawn one by one.
    MoreSegments { count: u32 },
    /// What is free above a heap's last segment.
    FreeTop,
    /// A flex block, with its header.
    FlexBlock { anchor: u32, size: u32 },
    /// What is unused of a slot's last page.
    Unused,
}

/// Bytes of an area that are one thing: `size` bytes from the offset `at` of the area on. It is fresh where the command
/// has changed it.
#[derive(Clone, Copy)]
pub struct Piece {
    pub kind: Kind,
    pub at: usize,
    pub size: usize,
    pub fresh: bool,
}

impl Default for Piece {
    /// No byte, at an area's first one. All of the value's bytes are zeros, so that a row of them is cleared.
    fn default() -> Piece {
        Piece {
            kind: Kind::AnchorWords,
            at: 0,
            size: 0,
            fresh: false,
        }
    }
}
