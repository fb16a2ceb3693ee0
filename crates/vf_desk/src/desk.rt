//! The desk that a program in C holds. What it does stands in `steps`: a struct with a ghost field sees all that its
//! file names, and the definitions of what is done name the struct.
ghost use Rattle.std.specs.Prelude.{◌≡◌, is_some};

mod steps;

use crate::handle::OpenDeskHandle;

/// A desk. One of zeros alone is closed, and has no file.
#[repr(C)]
pub struct VfDesk {
    pub handle: OpenDeskHandle,
    pub live: bool,
    pub ghost known: { live ≡ is_some handle.open_desk },
}
