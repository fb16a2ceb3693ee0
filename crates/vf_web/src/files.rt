//! Named files in bytes that a caller lends.

ghost use Rattle.std.specs.Prelude.{◌≡◌, ◌+◌, ◌<◌, ◌≤◌, length, is_none, is_some, MatchOption, IfSome, IsTrue, None};
ghost use Rattle.std.specs.Prelude.{Some};
ghost use Rattle.std.specs.Option.{option_map};
ghost use Rattle.rh_defs.specs.Files.{file_bytes};
ghost use Rattle.rh_defs.specs.Forms.{is_name};
ghost use Rattle.rh_defs.specs.declared.sizes.TheConstants.{LONGEST_FILE};
ghost use Rattle.vf_web.specs.Packed.{are_apart, files_in, front_file, packed_files, named_file};

use rh_defs::Name;
use rh_defs::sizes::{LONGEST_FILE, WORD};
use rh_store::bytes::word_in;
use rh_tasks::NamedFiles;
use std::marker::Model;

/// Named files in lent bytes, one behind the other. No two have one name.
#[derive(Drop)]
pub struct LentFiles<'a> {
    bytes: &'a [u8],
}

impl<'a> Model for LentFiles<'a> {
    ghost use Rattle.std.specs.Prelude.{◌≡◌, Some};
    ghost use Rattle.rh_defs.specs.Files.{FileList};
    ghost use Rattle.vf_web.specs.Packed.{files_in, files_of};

    ghost Value = { FileList };

    ghost view = { λ f. files_of f.bytes.now };

    ghost invariant = { λ f. files_in f.bytes.now ≡ Some (files_of f.bytes.now) };
}

impl<'a> LentFiles<'a> {
    /// The files that these bytes are: none, where they are no files or two of them have one name.
    pub fn new(bytes: &'a [u8]) -> Option<LentFiles<'a>>
        ensures { MatchOption result (files_in bytes.now ≡ None) (λ files. files_in bytes.now ≡ Some files) }
    {
        if are_listed(bytes) && have_own_names(bytes) {
            return Some(LentFiles { bytes });
        }
        None
    }

    /// The bytes of the file with the name, None where there is none.
    pub fn get(&self, name: &Name) -> Option<&[u8]>
        ensures value { MatchOption result (file_bytes name.now self.now ≡ None)
            (λ bytes. file_bytes name.now self.now ≡ Some bytes.now) }
        ensures short { IfSome result (λ bytes. length bytes.now ≤ LONGEST_FILE) }
    {
        find(self.bytes, name.as_bytes())
    }
}

impl<'a> NamedFiles for LentFiles<'a> {
    ghost contents = { λ files. files };

    fn get(&self, name: &Name) -> Option<&[u8]> {
        LentFiles::get(self, name)
    }
}

/// The file at the front of some bytes, and the bytes behind it.
#[derive(Clone, Copy)]
struct FrontFile<'a> {
    name: &'a [u8],
    bytes: &'a [u8],
    behind: &'a [u8],
}

/// Whether these bytes are files, one behind the other, whatever their names.
fn are_listed(bytes: &[u8]) -> bool
    ensures { result ≡ is_some (packed_files bytes.now) }
{
    let mut rest = bytes;
    while !rest.is_empty() {
        let Some(front) = front_file(rest) else {
            return false;
        };
        rest = front.behind;
    }
    true
}

/// Whether no two of these files have one name.
fn have_own_names(bytes: &[u8]) -> bool
    requires { IsTrue (is_some (packed_files bytes.now)) }
    ensures { IfSome (packed_files bytes.now) (λ files. result ≡ are_apart files) }
{
    let mut rest = bytes;
    while let Some(front) = front_file(rest) {
        if find(front.behind, front.name).is_some() {
            return false;
        }
        rest = front.behind;
    }
    true
}

/// The bytes of the first of these files with the name, None where there is none.
fn find<'a>(bytes: &'a [u8], name: &[u8]) -> Option<&'a [u8]>
    requires { IsTrue (is_some (packed_files bytes.now)) }
    ensures value { IfSome (packed_files bytes.now) (λ files. MatchOption result (file_bytes name.now files ≡ None)
        (λ found. file_bytes name.now files ≡ Some found.now)) }
    ensures short { IfSome result (λ found. length found.now ≤ LONGEST_FILE) }
{
    let mut rest = bytes;
    while let Some(front) = front_file(rest) {
        if front.name == name {
            return Some(front.bytes);
        }
        rest = front.behind;
    }
    None
}

/// The file at the front of some bytes, and the bytes behind it, where a file stands there.
#[tactic(auto, unfolding(crate::specs::Packed::front_file))]
fn front_file(bytes: &[u8]) -> Option<FrontFile<'_>>
    ensures value { option_map (λ front. ((front.name.now, front.bytes.now), front.behind.now)) result
        ≡ front_file bytes.now }
    ensures short { IfSome result (λ front. length front.bytes.now ≤ LONGEST_FILE) }
    ensures fewer { IfSome result (λ front. length front.behind.now < length bytes.now) }
{
    let Some((len, rest)) = bytes.split_first() else {
        return None;
    };
    let len = *len as usize;
    if rest.len() < len + WORD {
        return None;
    }
    let size = word_in(rest, len) as usize;
    named_file(&rest[..len], size, &rest[len + WORD..])
}

/// The file with this name, whose bytes are the first `size` of these, where it may be one.
#[tactic(auto, unfolding(crate::specs::Packed::named_file))]
fn named_file<'a>(name: &'a [u8], size: usize, rest: &'a [u8]) -> Option<FrontFile<'a>>
    ensures value { option_map (λ front. ((front.name.now, front.bytes.now), front.behind.now)) result
        ≡ named_file name.now size rest.now }
    ensures short { IfSome result (λ front. length front.bytes.now ≤ LONGEST_FILE) }
    ensures fewer { IfSome result (λ front. length front.behind.now ≤ length rest.now) }
{
    if !may_name(name) || size > LONGEST_FILE || size > rest.len() {
        return None;
    }
    Some(FrontFile {
        name,
        bytes: &rest[..size],
        behind: &rest[size..],
    })
}

/// Whether a file may have these bytes as its name.
fn may_name(bytes: &[u8]) -> bool
    ensures { result ≡ is_name bytes.now }
{
    match Name::new(bytes) {
        Some(name) => name.is_valid(),
        None => false,
    }
}
