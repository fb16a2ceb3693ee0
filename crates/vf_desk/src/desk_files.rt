//! The named files of a desk: bytes that were copied, and bytes that a caller keeps.

ghost use Rattle.std.specs.Prelude.{◌≡◌, ◌≤◌, [], ◌∷◌, ◌++◌, false, OnOk, OnErr, Some, None, MatchOption, IfOk, IfSome};
ghost use Rattle.std.specs.Prelude.{length};
ghost use Rattle.rh_defs.specs.Files.{has_file, file_bytes};
ghost use Rattle.rh_defs.specs.declared.sizes.TheConstants.{LONGEST_FILE};
ghost use Rattle.vf_desk.specs.FileRows.{kept_bytes, given_bytes};

use indexmap::IndexMap;
use rh_defs::Name;
use rh_tasks::NamedFiles;
use std::alloc::{AllocError, Global};
use std::marker::Model;

/// The bytes of a file.
#[derive(Drop)]
pub enum FileBytes {
    /// A copy.
    Copied(Vec<u8>),
    /// Those that the caller keeps, and that stay as they are.
    Lent(&'static [u8]),
}

/// Named files in the order given, each of at most `LONGEST_FILE` bytes. No two have one name.
#[derive(Drop)]
pub struct DeskFiles {
    contents: IndexMap<Name, FileBytes>,
}

impl Model for DeskFiles {
    ghost use Rattle.rh_defs.specs.Files.{AreShort, FileList};
    ghost use Rattle.vf_desk.specs.FileRows.{file_rows};

    ghost Value = { FileList };

    ghost view = { λ f. file_rows f.contents.entries };

    ghost invariant = { λ f. AreShort (file_rows f.contents.entries) };
}

impl DeskFiles {
    /// No files.
    pub fn new(alloc: Global) -> DeskFiles
        ensures { result ≡ [] }
    {
        DeskFiles {
            contents: IndexMap::new(alloc),
        }
    }

    /// Adds a file behind the others. AllocError where memory is refused, and then the files are as before.
    pub fn insert(&mut self, name: Name, bytes: FileBytes) -> Result<(), AllocError>
        requires new_name { has_file name self.old ≡ false }
        requires small { length (kept_bytes bytes) ≤ LONGEST_FILE }
        ensures ok { OnOk result (self.new ≡ self.old ++ (name, kept_bytes bytes) ∷ []) }
        ensures err { OnErr result (self.new ≡ self.old) }
    {
        self.contents.insert(name, bytes)?;
        Ok(())
    }

    /// Whether a file has the name.
    pub fn contains(&self, name: &Name) -> bool
        ensures { result ≡ has_file name.now self.now }
    {
        self.contents.contains_key(name)
    }

    /// The bytes of the file with the name, None where there is none.
    pub fn get(&self, name: &Name) -> Option<&[u8]>
        ensures value { MatchOption result (file_bytes name.now self.now ≡ None)
            (λ bytes. file_bytes name.now self.now ≡ Some bytes.now) }
        ensures short { IfSome result (λ bytes. length bytes.now ≤ LONGEST_FILE) }
    {
        let Some(bytes) = self.contents.get(name) else {
            return None;
        };
        Some(bytes.as_slice())
    }
}

/// A file that is added.
#[derive(Clone, Copy)]
pub enum NewFile<'a> {
    /// Bytes that are copied.
    Copied(&'a [u8]),
    /// Bytes that the caller keeps, and that stay as they are.
    Lent(&'static [u8]),
}

impl NewFile<'_> {
    /// The bytes.
    pub fn as_slice(&self) -> &[u8]
        ensures { result.now ≡ given_bytes self.now }
    {
        match self {
            NewFile::Copied(bytes) => bytes,
            NewFile::Lent(bytes) => bytes,
        }
    }

    /// The bytes as a desk keeps them: AllocError where memory is refused for a copy.
    pub fn kept(&self, alloc: Global) -> Result<FileBytes, AllocError>
        ensures { IfOk result (λ bytes. kept_bytes bytes ≡ given_bytes self.now) }
    {
        match self {
            NewFile::Copied(bytes) => {
                let mut copy = Vec::with_capacity(alloc, bytes.len())?;
                copy.extend_from_slice(bytes)?;
                Ok(FileBytes::Copied(copy))
            }
            NewFile::Lent(bytes) => Ok(FileBytes::Lent(bytes)),
        }
    }
}

impl FileBytes {
    /// The bytes.
    fn as_slice(&self) -> &[u8]
        ensures { result.now ≡ kept_bytes self.now }
    {
        match self {
            FileBytes::Copied(bytes) => bytes.as_slice(),
            FileBytes::Lent(bytes) => bytes,
        }
    }
}

impl NamedFiles for DeskFiles {
    ghost contents = { λ files. files };

    fn get(&self, name: &Name) -> Option<&[u8]> {
        DeskFiles::get(self, name)
    }
}
