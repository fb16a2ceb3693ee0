//! How large a lens is.

ghost use Rattle.std.specs.Prelude.{◌≡◌, IfSome, None, Some};
ghost use Rattle.rh_pictures.specs.LensSizes.{IsLensSize};

use rh_lens::sizes::{LEAST_WIDTH, MOST_SCALE, MOST_WIDTH};

/// How wide a lens is, and how many units it has for 8 bytes.
#[derive(Clone, Copy, Debug, PartialEq, Eq)]
pub struct LensSize {
    pub width: u32,
    pub scale: u32,
}

impl LensSize {
    /// This size, if a lens can have it.
    pub fn if_drawable(self) -> Option<LensSize>
        ensures some { IfSome result (λ size. (size ≡ self) × IsLensSize size) }
        ensures none { result ≡ None → IsLensSize self → ⊥ }
    {
        if self.width < LEAST_WIDTH
            || self.width > MOST_WIDTH
            || self.scale == 0
            || self.scale > MOST_SCALE
        {
            return None;
        }
        Some(self)
    }
}
