//! The named files.

ghost use Rattle.std.specs.Prelude.{◌≡◌, ◌≤◌, [], ◌∷◌, ◌++◌, false, OnOk, OnErr, Some, None, MatchOption, IfSome};
ghost use Rattle.std.specs.Prelude.{length, vec_len};
ghost use Rattle.rh_defs.specs.Files.{has_file, file_bytes};
ghost use Rattle.rh_defs.specs.declared.sizes.TheConstants.{LONGEST_FILE};

use crate::name::Name;
use indexmap::IndexMap;
use std::alloc::{AllocError, Global};
use std::marker::Model;

/// Named files in the order given, each of at most `LONGEST_FILE` bytes. No two have one name.
#[derive(Drop)]
pub struct Files {
    contents: IndexMap<Name, Vec<u8>>,
}

impl Model for Files {
    ghost use Rattle.std.specs.Prelude.{ℕ, List};
    ghost use Rattle.rh_defs.specs.Files.{contents_of, AreShort};

    ghost Value = { List (List ℕ × List ℕ) };

    ghost view = { λ f. contents_of f.contents.entries };

    ghost invariant = { λ f. AreShort (contents_of f.contents.entries) };
}

impl Files {
    /// No files.
    pub fn new(alloc: Global) -> Files
        ensures { result ≡ [] }
    {
        Files {
            contents: IndexMap::new(alloc),
        }
    }

    /// Adds a file behind the others. AllocError where memory is refused, and then the files are as before.
    pub fn insert(&mut self, name: Name, bytes: Vec<u8>) -> Result<(), AllocError>
        requires new_name { has_file name self.old ≡ false }
        requires small { vec_len bytes ≤ LONGEST_FILE }
        ensures ok { OnOk result (self.new ≡ self.old ++ (name, bytes.items) ∷ []) }
        ensures err { OnErr result (self.new ≡ self.old) }
    {
        self.contents.insert(name, bytes)?;
        Ok(())
    }

    /// Whether a file has the name.
    pub fn contains(&self, name: &Name) -> bool
        ensures { result ≡ has_file name.now self.now }
    {
        self.contents.contains_key(name)
    }

    /// The bytes of the file with the name, None where there is none.
    pub fn get(&self, name: &Name) -> Option<&[u8]>
        ensures value { MatchOption result (file_bytes name.now self.now ≡ None)
            (λ bytes. file_bytes name.now self.now ≡ Some bytes.now) }
        ensures short { IfSome result (λ bytes. length bytes.now ≤ LONGEST_FILE) }
    {
        let Some(bytes) = self.contents.get(name) else {
            return None;
        };
        Some(bytes.as_slice())
    }
}
