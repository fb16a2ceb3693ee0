//! The handles of the tasks that are live.

ghost use Rattle.std.specs.Prelude.{◌≡◌, ◌==◌, filter, not, IfOk};
ghost use Rattle.std.specs.List.{list_any};

use std::alloc::{AllocError, Global};

/// The live handles, in the order that they joined.
#[derive(Drop)]
pub(crate) struct Live {
    pub handles: Vec<u32>,
}

impl Live {
    pub(crate) fn new(alloc: Global, handles: &[u32]) -> Result<Live, AllocError>
        ensures { IfOk result (λ live. live.handles.items ≡ handles.now) }
    {
        Ok(Live {
            handles: Vec::from_slice(alloc, handles)?,
        })
    }

    pub(crate) fn is_live(&self, handle: u32) -> bool
        ensures { result ≡ list_any (λ h. h == handle) self.now.handles.items }
    {
        self.handles.iter().any(|h| *h == handle)
    }

    /// The handle is live no more.
    pub(crate) fn leave(&mut self, handle: u32)
        ensures { self.new.handles.items ≡ filter (λ h. not (h == handle)) self.old.handles.items }
    {
        self.handles.retain(|h| *h != handle);
    }
}
