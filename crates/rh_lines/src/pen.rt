//! What texts are written with, and what never fails.

ghost use Rattle.std.specs.Prelude.{◌≡◌, ◌++◌, List, ℕ};

/// What texts are written with. A write never fails: whoever made the pen asks it at the end whether its writer did.
pub trait Pen {
    // All bytes that were offered, behind what tells this pen from others.
    ghost offered: { Self → List ℕ };

    /// Writes the bytes behind the others.
    fn put(&mut self, bytes: &[u8])
        ensures { offered self.new ≡ offered self.old ++ bytes.now };
}
