//! The named files that a world reads.

ghost use Rattle.std.specs.Prelude.{◌≡◌, ◌≤◌, Some, None, MatchOption, IfSome, length};
ghost use Rattle.rh_defs.specs.Files.{FileList, file_bytes};
ghost use Rattle.rh_defs.specs.declared.sizes.TheConstants.{LONGEST_FILE};

use rh_defs::{Files, Name};

/// Named files to be read, each of at most `LONGEST_FILE` bytes: what a world needs of them.
pub trait NamedFiles {
    /// Each file's name and bytes, in the order given.
    ghost contents: { Self → FileList };

    /// The bytes of the file with the name, None where there is none.
    fn get(&self, name: &Name) -> Option<&[u8]>
        ensures value { MatchOption result (file_bytes name.now (contents self.now) ≡ None)
            (λ bytes. file_bytes name.now (contents self.now) ≡ Some bytes.now) }
        ensures short { IfSome result (λ bytes. length bytes.now ≤ LONGEST_FILE) };
}

impl NamedFiles for Files {
    ghost contents = { λ files. files };

    fn get(&self, name: &Name) -> Option<&[u8]> {
        Files::get(self, name)
    }
}
