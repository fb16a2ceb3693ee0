//! How large things are in a lens. A unit is one pixel of a page at its usual size.

ghost use Rattle.std.specs.Prelude.{◌≤◌, ◌<◌, ◌+◌, ◌*◌};
ghost use Rattle.rh_lens.specs.declared.sizes.TheConstants.{ANCHORS_ACROSS, ANCHOR_WIDTH, BLOCK_LEAST, EDGE, GAP};
ghost use Rattle.rh_lens.specs.declared.sizes.TheConstants.{LEAST_WIDTH, LETTER, MOST_READ, MOST_WIDTH, SIDE_GAP};

/// A lens is at least so wide.
pub const LEAST_WIDTH: u32 = 300;

/// A lens is at most so wide.
pub const MOST_WIDTH: u32 = 1_700;

/// A lens has at most so many units for 8 bytes.
pub const MOST_SCALE: u32 = 64;

/// A band has at most so many pieces.
pub const MOST_PIECES: usize = 1_000;

/// A letter has so many units.
pub const LETTER: u32 = 7;

/// What words leave free of their part.
pub const EDGE: u32 = 6;

/// A part is so high.
pub const PART: u32 = 51;

/// Between a part and the next one of its row.
pub const GAP: u32 = 2;

/// Between a row and the next one.
pub const ROW_GAP: u32 = 5;

/// The height of a band's heading.
pub const HEADING: u32 = 16;

/// Between the flex blocks and the C heap there is so much room for arrows.
pub const ARROWS: u32 = 26;

/// The height of the strip of pages.
pub const STRIP: u32 = 19;

/// Between the strip and what stands below it.
pub const STRIP_GAP: u32 = 4;

/// The height of what lies in a page of the strip.
pub const STRIP_PART: u32 = 5;

/// A byte that has a cell of its own is so wide.
pub const BYTE: u32 = 22;

/// A block of at most so many bytes has a cell for each.
pub const MOST_CELLS: usize = 16;

/// What cells leave free behind the last one.
pub const CELLS_EDGE: u32 = 4;

/// The two words before a flex block's bytes.
pub const FLEX_HEAD: u32 = 14;

/// The word before a heap block's bytes.
pub const BUFFER_HEAD: u32 = 5;

/// A heap's descriptor is so wide.
pub const DESCRIPTOR_WIDTH: u32 = 42;

/// A heap block or a hole is at least so wide.
pub const BLOCK_LEAST: u32 = 48;

/// A flex block is at least so wide.
pub const FLEX_LEAST: u32 = 88;

/// A buffer is at least so wide.
pub const BUFFER_LEAST: u32 = 96;

/// A message is at least so wide.
pub const MESSAGE_LEAST: u32 = 112;

/// The words of a message make its part wider, up to so many letters.
pub const MOST_LETTERS: usize = 40;

/// What is free or unused is at least so wide, and so are segments that aren't drawn one by one.
pub const FREE_LEAST: u32 = 106;

/// What is free or unused is at most so wide.
pub const FREE_MOST: u32 = 150;

/// What would be wider than it may is so wide, and drawn broken.
pub const BROKEN: u32 = 170;

/// A block of at most so many bytes may be as wide as its row, a larger one half as wide.
pub const MOST_WHOLE: usize = 512;

/// So many bytes of a block are read: more than have room in the widest part.
pub const MOST_READ: usize = 256;

/// Bytes stand in a part that is at least so wide.
pub const BYTES_LEAST: u32 = 84;

/// An anchor is so wide.
pub const ANCHOR_WIDTH: u32 = 70;

/// So many anchors stand side by side.
pub const ANCHORS_ACROSS: u32 = 3;

/// More anchors have a line each, of such a height.
pub const ANCHOR_LINE: u32 = 23;

/// Between the anchors and the C heap.
pub const SIDE_GAP: u32 = 8;

/// A scale is units for so many bytes.
pub const SCALE_BYTES: usize = 8;

/// What is left below the lowest part.
pub const FOOT: u32 = 3;

/// What an arrow leaves free below its block.
pub const ARROW_GAP: u32 = 3;

/// An arrow bends at least over so many units.
pub const LEAST_BEND: u32 = 12;

/// From a band's heading's upper edge to the line that its words stand on.
pub const HEADING_LINE: u32 = 11;

/// From the strip's upper edge to the line that its words stand on.
pub const STRIP_LINE: u32 = 12;

/// From a part's upper edge to the line that its first words stand on.
pub const FIRST_LINE: u32 = 14;

/// From one line of words to the next.
pub const LINE: u32 = 15;

/// Words begin so far from the left of their part.
pub const LINE_EDGE: u32 = 3;

/// Cells begin so far below the upper edge of their part.
pub const CELL_TOP: u32 = 18;

/// From the upper edge of a part to the line that the digits of its cells stand on.
pub const CELL_DIGITS: u32 = 30;

/// From the upper edge of a part to the line that the letters of its cells stand on.
pub const CELL_LETTER: u32 = 45;

/// The digits and the letter of a cell stand round so many units from its left.
pub const CELL_MIDDLE: u32 = 11;

/// The words of a page in the strip begin so far from its left.
pub const STRIP_EDGE: u32 = 3;

/// The mark of a broken part begins so far from its right end.
pub const BREAK_EDGE: u32 = 15;

/// How far the strokes of the mark lean.
pub const BREAK_LEAN: u32 = 6;

/// From one stroke of the mark to the other.
pub const BREAK_GAP: u32 = 5;

/// The module area has at most this scale.
pub const MODULE_SCALE: u32 = 8;

/// The anchors leave room for a part of the C heap that is cut to it, in the narrowest lens too; and no part has room
/// for all bytes that are read.
pub fn sizes_law()
    ensures room { ANCHORS_ACROSS * (ANCHOR_WIDTH + GAP) + SIDE_GAP + BLOCK_LEAST ≤ LEAST_WIDTH }
    ensures read { MOST_WIDTH < LETTER * MOST_READ + EDGE }
{}
