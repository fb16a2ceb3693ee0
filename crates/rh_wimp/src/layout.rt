//! Where the words of a message stand, and how long messages are.

use rh_defs::sizes::{LONGEST_MESSAGE, MESSAGE_NAME, WORD};

/// The fewest bytes of a message block: its length, sender, refs and action.
pub const LEAST_LENGTH: usize = 20;

/// The fewest bytes of a message block about a file: a name takes a word at least.
pub const LEAST_FILE_LENGTH: usize = 48;

/// The fewest bytes of a RAMFetch or RAMTransmit.
pub const LEAST_RAM_LENGTH: usize = 28;

/// Where the sender's handle stands in a message block.
pub const SENDER: usize = 4;

/// Where my_ref stands.
pub const MY_REF: usize = 8;

/// Where your_ref stands.
pub const YOUR_REF: usize = 12;

/// Where the action stands.
pub const ACTION: usize = 16;

/// Where the action's data begins.
pub const DATA: usize = 20;

/// Where the name of a file begins.
pub const NAME: usize = MESSAGE_NAME;

/// The bytes of what is said of a file, before its name.
pub const FILE_LENGTH: usize = NAME - DATA;

/// The bytes of the two words of a RAMFetch or RAMTransmit.
pub const RAM_LENGTH: usize = 2 * WORD;

/// Where the link stands in a block of the module area.
pub const LINK: usize = 0;

/// Where the event code stands there.
pub const CODE: usize = 4;

/// Where the message block begins there.
pub const MESSAGE: usize = 8;

/// The most bytes of a message there.
pub const MOST_PARCEL: usize = MESSAGE + LONGEST_MESSAGE;
