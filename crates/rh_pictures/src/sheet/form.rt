//! What a sheet shows, and how.

ghost use Rattle.std.specs.Prelude.{◌≡◌, None};

use crate::lens::size::LensSize;

/// Whether a sheet shows marked steps alone, and through which lens areas are drawn; without one they are drawn at true
/// scale, with cards.
#[derive(Clone, Copy)]
pub struct SheetForm {
    pub marked: bool,
    pub lens: Option<LensSize>,
}

impl SheetForm {
    /// All steps, or marked ones alone, with areas at true scale.
    pub fn at_true_scale(marked: bool) -> SheetForm
        ensures { result ≡ record { marked = marked; lens = None } }
    {
        SheetForm { marked, lens: None }
    }
}
