//! How large things are on a sheet. A unit is one word of memory, four bytes.

ghost use Rattle.std.specs.Prelude.{◌≡◌, ◌≤◌, ◌+◌, ◌*◌};
ghost use Rattle.rh_defs.specs.declared.sizes.TheConstants.{PAGE};
ghost use Rattle.rh_sheet.specs.declared.sizes.TheConstants.{CARDS_ACROSS, CARD_PITCH, CELL, FIGURE_WIDTH, LEFT};
ghost use Rattle.rh_sheet.specs.declared.sizes.TheConstants.{POOL_COLUMNS, ROW_WIDTH, UNIT_BYTES};

/// A unit is so many bytes of memory.
pub const UNIT_BYTES: usize = 4;

/// Left of the rows stand addresses and numbers of pages, in so many units.
pub const LEFT: u32 = 150;

/// A row is a page of memory, of so many units.
pub const ROW_WIDTH: u32 = 1_024;

/// A figure is so wide.
pub const FIGURE_WIDTH: u32 = 1_176;

/// From one row to the next.
pub const ROW_PITCH: u32 = 30;

/// The height of a row.
pub const ROW_HEIGHT: u32 = 24;

/// From the upper end of a row's room to its upper edge.
pub const ROW_GAP: u32 = 3;

/// From a row's upper edge to the line that its words stand on.
pub const BASELINE: u32 = 17;

/// What is left below the lowest part of a figure.
pub const FRAME_EDGE: u32 = 2;

/// The number of a page stands so far from the left.
pub const CHIP_LEFT: u32 = 96;

/// The width of a page's number, in its owner's tint.
pub const CHIP_WIDTH: u32 = 46;

/// A letter of a label has at most so many units.
pub const LABEL_UNITS: u32 = 10;

/// What a label leaves free of its piece.
pub const LABEL_EDGE: u32 = 8;

/// What a short label leaves free of its piece.
pub const SHORT_EDGE: u32 = 4;

/// The side of a square of the pool.
pub const CELL: u32 = 32;

/// The pool has so many squares in a row.
pub const POOL_COLUMNS: u32 = 32;

/// An owner's tag has so many letters.
pub const TAG_LETTERS: usize = 3;

/// So many tints of tasks take turns.
pub const TINTS: u32 = 6;

/// One of so many squares of the pool has the number of its page.
pub const NUMBERED: u32 = 4;

/// From a square's left edge to the number of its page, and down to the line that the number stands on.
pub const NUMBER_INDENT: u32 = 3;

pub const NUMBER_BASELINE: u32 = 14;

/// From a square's upper edge to the line that a tag stands on.
pub const TAG_BASELINE: u32 = 28;

/// The lines that the name of the pool and the number of free pages stand on.
pub const POOL_NAME_Y: u32 = 14;

pub const POOL_NOTE_Y: u32 = 31;

/// The header of a flex block.
pub const HEADER_BYTES: u32 = 8;

/// The frame where a block was is so far outside its row, and so wide.
pub const GHOST_EDGE: u32 = 3;

pub const GHOST_WIDTH: u32 = 9;

/// How far the arrow of a slide within one row rises above it.
pub const ARC_RISE: u32 = 18;

/// How far right of a block's beginning the arrow of a slide between rows begins, and how far it bows out.
pub const ARROW_INDENT: u32 = 6;

pub const BOW: u32 = 96;

/// From one card to the next beside it.
pub const CARD_PITCH: u32 = 170;

/// From one row of cards to the next.
pub const CARD_RISE: u32 = 66;

/// So many cards stand side by side.
pub const CARDS_ACROSS: u32 = 6;

/// A line of a card has at most so many bytes.
pub const CARD_COLUMNS: usize = 17;

/// What is free between two cards side by side.
pub const CARD_GAP: u32 = 6;

/// What is free between two cards one above the other.
pub const CARD_SPACE: u32 = 4;

/// From a card's left edge to its words.
pub const CARD_INDENT: u32 = 8;

/// From a card's upper edge to the line that its first words stand on.
pub const CARD_BASELINE: u32 = 19;

/// From a line of a card to the next.
pub const CARD_LINE: u32 = 18;

/// From the rows to the cards.
pub const LENS_HEIGHT: u32 = 16;

/// The width of a chart of messages.
pub const CHART_WIDTH: u32 = 320;

/// From one step of a chart to the next.
pub const BEAT: u32 = 32;

/// From the left of a chart to the line of its first task.
pub const CHART_LEFT: u32 = 70;

/// From the top of a chart to the end of an arrow of its first step.
pub const CHART_TOP: u32 = 40;

/// From the line of a chart's first task to that of its last.
pub const CHART_SPREAD: u32 = 180;

/// The line that the names of a chart's tasks stand on.
pub const NAME_Y: u32 = 16;

/// Where the lines of a chart's tasks begin.
pub const LIFE_TOP: u32 = 24;

/// A letter of a task's name above its line has at most so many units.
pub const LETTER_UNITS: u32 = 9;

/// An arrow begins so far below the end of one that was taken at the same step.
pub const ARROW_RISE: u32 = 9;

/// The length of the arrow of a message that waits.
pub const ARROW_STUB: u32 = 30;

/// How far the arrow of a message from a task to itself bows out.
pub const LOOP_BOW: u32 = 50;

/// An arrow ends so far from the line that it goes to.
pub const TIP_GAP: u32 = 3;

/// The arrow of a message that vanished ends at so many hundredths of its way.
pub const VANISHES: u32 = 84;

/// From an arrow's beginning to its words: to the side, and down.
pub const WORDS_ASIDE: u32 = 14;

pub const WORDS_DOWN: u32 = 21;

/// From the beginning of an arrow of a message that waits to its words: to the side, and down.
pub const STUB_ASIDE: u32 = 40;

pub const STUB_DOWN: u32 = 13;

/// What is left below the lines of a chart.
pub const CHART_EDGE: u32 = 4;

/// A chart shows so many messages, the last ones.
pub const MOST_NOTES: usize = 10;

/// A sheet shows so many steps, the first ones.
pub const MOST_STEPS: usize = 200;

/// A row is a page, the pool is as wide as a row, and both, like the cards, are within the figure.
pub fn sizes_law()
    ensures page { UNIT_BYTES * ROW_WIDTH ≡ PAGE }
    ensures pool { CELL * POOL_COLUMNS ≡ ROW_WIDTH }
    ensures rows { LEFT + ROW_WIDTH ≤ FIGURE_WIDTH }
    ensures cards { LEFT + CARD_PITCH * CARDS_ACROSS ≤ FIGURE_WIDTH }
{}
