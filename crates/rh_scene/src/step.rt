//! A step of a picture.

use crate::kept::Kept;
use crate::marks::Marks;
use rh_defs::MessageItem;

/// A step of a picture beside the desk behind it: what was kept of the desk before, what the command did, and all
/// messages and the numbers of all pages behind it, as the desk tells them.
#[derive(Clone, Copy)]
pub struct Step<'a> {
    pub kept: &'a Kept,
    pub marks: Marks<'a>,
    pub messages: &'a [MessageItem],
    pub pages: &'a [u16],
}
