//! How a desk begins and ends.
ghost use Rattle.std.specs.Prelude.{◌≡◌, ◌≢◌, ◌≤◌, ◌++◌, ◌∷◌, [], false, None, Some, length, IfSome, OnOk, OnErr};
ghost use Rattle.rh_defs.specs.Files.{has_file};
ghost use Rattle.vf_desk.specs.FileRows.{given_bytes};
ghost use Rattle.vf_desk.specs.Inner.FirstConsole.{first_console};
ghost use Rattle.vf_desk.specs.Opening.{Adds, Opens, file_status, opening_status};
ghost use Rattle.rh_defs.specs.declared.sizes.TheConstants.{LONGEST_FILE};

use crate::console::{Console, PagedWorld};
use crate::desk::VfDesk;
use crate::desk_files::{DeskFiles, NewFile};
use crate::forms::name_of;
use crate::held::Held;
use crate::open_desk::OpenDesk;
use crate::said::Said;
use crate::status::{BAD_ARGUMENT, BAD_LENGTH, FILE_EXISTS, NO_MEMORY, OK, OPEN};
use rh_defs::sizes::{LONGEST_FILE, MAX_PAGES, MIN_PAGES};
use rh_defs::{Command, Handle, Name, Question, Ref};
use rh_heap_index::page_store;
use rh_tasks::World;
use std::alloc::{AllocError, Global};
use std::mem;

/// Adds a named file, which `load` finds once the desk is open.
#[unsafe(no_mangle)]
pub extern "C" fn vf_desk_file(alloc: Global, desk: &mut VfDesk, name: &[u8], bytes: &[u8]) -> u32
    ensures { Adds name.now bytes.now desk.old.handle.open_desk desk.new.handle.open_desk result }
{
    add(alloc, desk, name, &NewFile::Copied(bytes))
}

/// Adds a named file as `vf_desk_file` does, but copies none of its bytes: the caller keeps them, and they stay as they
/// are.
#[unsafe(no_mangle)]
pub extern "C" fn vf_desk_file_lent(
    alloc: Global,
    desk: &mut VfDesk,
    name: &[u8],
    bytes: &'static [u8],
) -> u32
    ensures { Adds name.now bytes.now desk.old.handle.open_desk desk.new.handle.open_desk result }
{
    add(alloc, desk, name, &NewFile::Lent(bytes))
}

/// Adds a named file.
fn add(alloc: Global, desk: &mut VfDesk, name: &[u8], file: &NewFile<'_>) -> u32
    ensures { Adds name.now (given_bytes file.now) desk.old.handle.open_desk desk.new.handle.open_desk result }
{
    let Some(mut open_desk) = desk.take(alloc) else {
        return first_file(alloc, desk, name, file);
    };
    let status = open_desk.add_file(alloc, name, file);
    desk.put(open_desk);
    status
}

/// Adds the first named file of a handle that has nothing yet.
fn first_file(alloc: Global, desk: &mut VfDesk, name: &[u8], file: &NewFile<'_>) -> u32
    requires { desk.old.handle.open_desk ≡ None }
    ensures { Adds name.now (given_bytes file.now) desk.old.handle.open_desk desk.new.handle.open_desk result }
{
    let fault = first_file_status(name, file.as_slice());
    if fault != OK {
        return fault;
    }
    let Some(mut open_desk) = OpenDesk::new_box(alloc) else {
        return NO_MEMORY;
    };
    let status = open_desk.add_file(alloc, name, file);
    if status != OK {
        return status;
    }
    desk.put(open_desk);
    OK
}

/// Whether a file can be the first one, if memory is granted.
fn first_file_status(name: &[u8], bytes: &[u8]) -> u32
    ensures { result ≡ file_status None name.now bytes.now }
{
    if name_of(name).is_none() {
        return BAD_ARGUMENT;
    }
    if bytes.len() > LONGEST_FILE {
        return BAD_LENGTH;
    }
    OK
}

/// Opens a desk of 8 to 1,024 pages with the files that were added, whose first handle and ref are these, from 1 on.
#[unsafe(no_mangle)]
pub extern "C" fn vf_desk_open(
    alloc: Global,
    desk: &mut VfDesk,
    pages: u32,
    first_handle: u32,
    first_ref: u32,
) -> u32
    ensures { Opens pages first_handle first_ref desk.old.handle.open_desk desk.new.handle.open_desk result }
{
    let Some(mut open_desk) = desk.take(alloc) else {
        return open_new(alloc, desk, pages, first_handle, first_ref);
    };
    let status = open_desk.open(alloc, pages, first_handle, first_ref);
    desk.put(open_desk);
    status
}

/// Opens a desk without files in a handle that has nothing yet.
fn open_new(alloc: Global, desk: &mut VfDesk, pages: u32, first_handle: u32, first_ref: u32) -> u32
    requires { desk.old.handle.open_desk ≡ None }
    ensures { Opens pages first_handle first_ref desk.old.handle.open_desk desk.new.handle.open_desk result }
{
    let fault = first_status(pages, first_handle, first_ref);
    if fault != OK {
        return fault;
    }
    let Some(mut open_desk) = OpenDesk::new_box(alloc) else {
        return NO_MEMORY;
    };
    let status = open_desk.open(alloc, pages, first_handle, first_ref);
    if status != OK {
        return status;
    }
    desk.put(open_desk);
    OK
}

/// Closes a desk, and gives back all that it took. A closed one with no file stays as it is.
#[unsafe(no_mangle)]
pub extern "C" fn vf_desk_close(alloc: Global, desk: &mut VfDesk) -> u32
    ensures status { result ≡ 0 }
    ensures closed { desk.new.handle.open_desk ≡ None }
{
    let _station = desk.take(alloc);
    OK
}

impl OpenDesk {
    /// No file, and no desk that is open.
    fn new(alloc: Global, held: Held) -> OpenDesk
        ensures files { result.files ≡ [] }
        ensures console { result.console ≡ None }
    {
        OpenDesk {
            files: DeskFiles::new(alloc),
            console: None,
            held,
        }
    }

    /// A new one in a box; none where memory is refused. What is large is built there later, and never moves.
    fn new_box(alloc: Global) -> Option<Box<OpenDesk>>
        ensures { IfSome result (λ open_desk. (open_desk.value.files ≡ []) × (open_desk.value.console ≡ None)) }
    {
        let held = Held::new(alloc).ok()?;
        match Box::new(alloc, OpenDesk::new(alloc, held)) {
            Ok(open_desk) => Some(open_desk),
            Err(_) => None,
        }
    }

    /// Adds a named file: OPEN, BAD_ARGUMENT, BAD_LENGTH, FILE_EXISTS, NO_MEMORY.
    fn add_file(&mut self, alloc: Global, name: &[u8], file: &NewFile<'_>) -> u32
        ensures { Adds name.now (given_bytes file.now) (Some self.old) (Some self.new) result }
    {
        if self.console.is_some() {
            return OPEN;
        }
        let Some(name) = name_of(name) else {
            return BAD_ARGUMENT;
        };
        if file.as_slice().len() > LONGEST_FILE {
            return BAD_LENGTH;
        }
        if self.files.contains(&name) {
            return FILE_EXISTS;
        }
        match insert(alloc, &mut self.files, name, file) {
            Ok(()) => OK,
            Err(_) => NO_MEMORY,
        }
    }

    /// Opens the desk: OPEN, BAD_ARGUMENT, NO_MEMORY.
    fn open(&mut self, alloc: Global, pages: u32, first_handle: u32, first_ref: u32) -> u32
        ensures { Opens pages first_handle first_ref (Some self.old) (Some self.new) result }
    {
        let status = opening_status(self, pages, first_handle, first_ref);
        if status != OK {
            return status;
        }
        let Ok(store) = page_store(alloc, pages) else {
            return NO_MEMORY;
        };
        let files = mem::replace(&mut self.files, DeskFiles::new(alloc));
        let (handle, r) = (Handle(first_handle), Ref(first_ref));
        self.begin(World::with_next(store, files, handle, r));
        OK
    }

    /// Takes a world, if none is there: no line was answered yet. It is inlined: the world is made where it will lie,
    /// and its 28 KB need no room on the stack.
    #[inline(always)]
    fn begin(&mut self, world: PagedWorld)
        ensures first { self.old.console ≡ None → self.new.console ≡ Some (first_console world) }
        ensures later { self.old.console ≢ None → self.new.console ≡ self.old.console }
        ensures files { self.new.files ≡ self.old.files }
    {
        if self.console.is_none() {
            self.console = Some(Console {
                world,
                said: Said::Nothing,
                command: Command::Ask(Question::Areas),
            });
        }
    }
}

/// Whether a desk can be opened so, if memory is granted.
fn opening_status(open_desk: &OpenDesk, pages: u32, first_handle: u32, first_ref: u32) -> u32
    ensures { result ≡ opening_status (Some open_desk.now) pages first_handle first_ref }
{
    if open_desk.console.is_some() {
        return OPEN;
    }
    first_status(pages, first_handle, first_ref)
}

/// Whether a handle that has nothing can be opened so, if memory is granted.
fn first_status(pages: u32, first_handle: u32, first_ref: u32) -> u32
    ensures { result ≡ opening_status None pages first_handle first_ref }
{
    let pages = pages as usize;
    if pages < MIN_PAGES || MAX_PAGES < pages || first_handle == 0 || first_ref == 0 {
        return BAD_ARGUMENT;
    }
    OK
}

/// Adds a file behind the others.
fn insert(
    alloc: Global,
    files: &mut DeskFiles,
    name: Name,
    file: &NewFile<'_>,
) -> Result<(), AllocError>
    requires new_name { has_file name files.old ≡ false }
    requires small { length (given_bytes file.now) ≤ LONGEST_FILE }
    ensures ok { OnOk result (files.new ≡ files.old ++ (name, given_bytes file.now) ∷ []) }
    ensures err { OnErr result (files.new ≡ files.old) }
{
    let bytes = file.kept(alloc)?;
    files.insert(name, bytes)
}
