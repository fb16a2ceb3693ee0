//! Bytes that clauses alone see.

ghost use Rattle.std.specs.Prelude.{◌≡◌, [], ◌++◌, List, ℕ};
ghost use Rattle.std.specs.Borrow.{ftrue};

use std::marker::{Model, PhantomData};

/// Bytes that were noted, which clauses alone see. It takes no memory, and its methods do nothing when they run.
#[derive(Drop)]
pub struct GhostBytes {
    marker: PhantomData<u8>,
    pub ghost bytes: { List ℕ },
}

impl Model for GhostBytes {
    ghost also_owns = { λ _. ftrue };
}

impl GhostBytes {
    /// No byte is noted yet.
    pub fn new() -> GhostBytes
        ensures { result.bytes ≡ [] }
    {
        GhostBytes {
            marker: PhantomData,
        }
    }

    /// Notes these bytes behind the others.
    pub fn note(&mut self, _bytes: &[u8])
        ensures { self.new.bytes ≡ self.old.bytes ++ _bytes.now }
    {}
}
