//! Statuses: how a call ended, as a number. Of those from 2 on a call ends with the first in this order: 2, 3, 5, 6, 4.

/// The text was written, and no line was bad; or the bytes are a heap, or a slot.
pub const DONE: u32 = 0;

/// The text was written, and some line was bad; or the bytes are none.
pub const SOME_BAD: u32 = 1;

/// The pages aren't 8 to 1,024, or what is lent for them is too short; or there is no such kind.
pub const BAD_PAGES: u32 = 2;

/// The files are badly packed.
pub const BAD_FILES: u32 = 3;

/// The text is longer than the bytes that it was to be written to.
pub const SHORT_TEXT: u32 = 4;

/// The script has more than `rh_session::LONGEST_SCRIPT` bytes.
pub const LONG_SCRIPT: u32 = 5;

/// A lens isn't so wide, or has no such scale.
pub const BAD_LENS: u32 = 6;
