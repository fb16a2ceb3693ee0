//! How much of a desk a picture shows.

ghost use Rattle.std.specs.Prelude.{◌≡◌, ◌+◌, ◌*◌};
ghost use Rattle.rh_defs.specs.declared.sizes.TheConstants.{PAGE};
ghost use Rattle.rh_figure.specs.declared.limits.TheConstants.{CELL_BYTES, EDGE_ROWS, MAP_CELLS, MOST_ROWS};

/// A line of a map has at most so many columns.
pub const MAP_COLUMNS: usize = 79;

/// A map's row of a page has so many characters.
pub const MAP_CELLS: usize = 64;

/// A character of a map's row stands for so many bytes.
pub const CELL_BYTES: usize = 64;

/// Of an area with more pages the first and last `EDGE_ROWS` are shown, and a row that counts those between.
pub const MOST_ROWS: usize = 17;

/// So many pages at each end of a long area are shown.
pub const EDGE_ROWS: usize = 8;

/// So many segments of a heap are drawn one by one.
pub const MOST_SEGMENTS: usize = 512;

/// Of more tasks only those that the command is about have their slots drawn.
pub const MOST_SLOTS: usize = 8;

/// A band of cards has at most so many.
pub const MOST_CARDS: usize = 24;

/// A list of numbers or messages names so many, and counts the others.
pub const MOST_LISTED: usize = 12;

/// A sentence shows so many bytes at most that were written, as a text.
pub const MOST_TOLD: usize = 24;

/// So many messages that bounce or vanish at a command are told one by one; of more their number.
pub const MOST_FATES: usize = 3;

/// A card shows so many bytes of a block.
pub const CARD_BYTES: usize = 7;

/// So many lines of a reply are shown.
pub const MOST_REPLY_LINES: usize = 14;

/// A shown line of a reply has at most so many bytes.
pub const REPLY_COLUMNS: usize = 76;

/// A shown line of a script has at most so many bytes.
pub const LINE_COLUMNS: usize = 92;

/// A row of a map is a page, and a long area's rows are those at its ends and one between.
pub fn limits_law()
    ensures page { MAP_CELLS * CELL_BYTES ≡ PAGE }
    ensures rows { 2 * EDGE_ROWS + 1 ≡ MOST_ROWS }
{}
