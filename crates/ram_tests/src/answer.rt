//! Answers as text.

use std::alloc::Global;
use std::fmt::Debug;

/// A value as it is written in the code; none where memory is short.
pub(crate) fn shown<T: Debug + Drop>(alloc: Global, value: T) -> Option<String> {
    format!(in alloc; "{value:?}").ok()
}
