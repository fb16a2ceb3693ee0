//! Files that a world keeps, and files that are lent to it.

ghost use Rattle.std.specs.Prelude.{◌≤◌, [], ◌∷◌, length};
ghost use Rattle.rh_defs.specs.declared.sizes.TheConstants.{LONGEST_FILE};

use rh_defs::{Files, Name};
use rh_tasks::NamedFiles;
use std::alloc::{AllocError, Global};

/// The bytes of the file `doc`.
pub(crate) const DOC: [u8; 3] = [1, 2, 3];

/// The file `doc` alone.
pub(crate) fn one_file(alloc: Global, doc: &Name) -> Result<Files, AllocError> {
    let mut files = Files::new(alloc);
    files.insert(doc.copied(), vec![in alloc; 1, 2, 3]?)?;
    Ok(files)
}

/// A file that lies where somebody else keeps it.
#[derive(Drop)]
pub(crate) struct LentFile<'a> {
    pub name: &'a Name,
    pub bytes: &'a [u8],
    ghost short: { length bytes.now ≤ LONGEST_FILE },
}

impl<'a> NamedFiles for LentFile<'a> {
    ghost contents = { λ file. (file.name.now, file.bytes.now) ∷ [] };

    fn get(&self, name: &Name) -> Option<&[u8]> {
        if self.name != name {
            return None;
        }
        Some(self.bytes)
    }
}
