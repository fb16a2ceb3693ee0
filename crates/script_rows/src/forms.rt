//! What is written of a script: over memory of its own, lent memory and a plain store, and of a script in memory.

ghost use Rattle.std.specs.Prelude.{◌≡◌, ◌*◌, ◌≤◌, length, IfOk};
ghost use Rattle.rh_defs.specs.Memory.{fresh};
ghost use Rattle.rh_defs.specs.declared.sizes.TheConstants.{MAX_PAGES, MIN_PAGES, PAGE};
ghost use Rattle.rh_pages.specs.Paged.{paged_memory};
ghost use Rattle.rh_pages.specs.declared.table.TheConstants.{LISTS};
ghost use Rattle.rh_store.specs.Plain as plain;

use rh_defs::sizes::PAGE;
use rh_defs::{Files, Name};
use rh_lines::{Flagged, Sink, WholeText, WriteFailed};
use rh_pages::{LISTS, LentBacking, PagedStore};
use rh_pictures::SheetForm;
use rh_run::{
    RunFault, Status, draw_map, draw_sheet, map_of, map_over, replies_of, run, run_over, sheet_of,
    sheet_over,
};
use rh_session::{Buffers, LONGEST_SCRIPT};
use rh_store::PlainStore;
use std::alloc::{AllocError, Global};

/// What is written of a script: its replies, or a map or a sheet of each step, or of marked steps alone.
#[derive(Clone, Copy, Debug, PartialEq)]
pub(crate) enum Form {
    Replies,
    Map(bool),
    Sheet(bool),
}

pub(crate) const FORMS: [Form; 5] = [
    Form::Replies,
    Form::Map(false),
    Form::Map(true),
    Form::Sheet(false),
    Form::Sheet(true),
];

/// More bytes than any of these texts has.
const TEXT_ROOM: usize = 1_048_576;

/// How a run ended, or a map or a sheet.
pub(crate) type Ended = Result<Status, RunFault>;

/// The text that was written, and how that ended.
#[derive(Drop, PartialEq)]
pub(crate) struct Written {
    pub(crate) text: Vec<u8>,
    pub(crate) ended: Ended,
}

/// One file.
fn one_file(alloc: Global) -> Result<Files, AllocError> {
    let mut files = Files::new(alloc);
    if let Some(name) = Name::new(b"doc") {
        files.insert(name, vec![in alloc; 3, 1, 4, 1, 5]?)?;
    }
    Ok(files)
}

/// What is written over so many pages of memory of its own.
pub(crate) fn over_own(
    alloc: Global,
    script: &[u8],
    form: Form,
    pages: u32,
) -> Result<Written, AllocError>
    requires least { MIN_PAGES ≤ pages }
    requires most { pages ≤ MAX_PAGES }
{
    let files = one_file(alloc)?;
    let mut reader = Flagged::new(script);
    let mut writer = Flagged::new(Vec::<u8>::new(alloc));
    let ended = match form {
        Form::Replies => run(alloc, files, &mut reader, &mut writer, pages),
        Form::Map(marked) => draw_map(alloc, files, &mut reader, &mut writer, pages, marked),
        Form::Sheet(marked) => {
            draw_sheet(
                alloc,
                files,
                &mut reader,
                &mut writer,
                pages,
                SheetForm::at_true_scale(marked),
                b"It",
            )
        }
    };
    let text = writer.into_inner();
    Ok(Written { text, ended })
}

/// A plain store of so many pages.
fn plain_store(alloc: Global, pages: u32) -> Result<PlainStore, AllocError>
    requires least { 8 ≤ pages }
    requires most { pages ≤ 256 }
    ensures fresh { IfOk result (λ s. plain.memory_of s ≡ fresh (plain.memory_of s).pages) }
    ensures pages { IfOk result (λ s. (plain.memory_of s).pages ≡ pages) }
{
    let store = PlainStore::new(alloc, pages as usize)?;
    Ok(store)
}

/// A run's replies over a plain store.
pub(crate) fn over_plain(alloc: Global, script: &[u8], pages: u32) -> Result<Written, AllocError>
    requires least { 8 ≤ pages }
    requires most { pages ≤ 256 }
{
    let store = plain_store(alloc, pages)?;
    let mut reader = Flagged::new(script);
    let mut writer = Flagged::new(Vec::<u8>::new(alloc));
    let files = one_file(alloc)?;
    let mut buffers = Box::new(alloc, Buffers::new())?;
    let ended = run_over(store, files, &mut reader, &mut writer, &mut buffers);
    let text = writer.into_inner();
    Ok(Written { text, ended })
}

/// A store of 64 pages on memory that is lent, whatever it holds.
#[tactic(auto, unfolding(rh_defs::specs::Memory::fresh))]
fn lent_store<'a>(bytes: &'a mut [u8], numbers: &'a mut [u16]) -> PagedStore<LentBacking<'a>>
    requires bytes { length bytes.now ≡ PAGE * 64 }
    requires numbers { length numbers.now ≡ LISTS * 64 }
    ensures fresh { paged_memory result ≡ fresh (paged_memory result).pages }
    ensures least { MIN_PAGES ≤ (paged_memory result).pages }
    ensures most { (paged_memory result).pages ≤ MAX_PAGES }
{
    PagedStore::over(LentBacking::new(bytes, numbers), 64)
}

/// What is written over 64 pages of lent memory.
pub(crate) fn over_lent(alloc: Global, script: &[u8], form: Form) -> Result<Written, AllocError> {
    let mut bytes = vec![in alloc; 165; PAGE * 64]?;
    let mut numbers = vec![in alloc; 999; LISTS * 64]?;
    let store = lent_store(&mut bytes, &mut numbers);
    let files = one_file(alloc)?;
    let mut reader = Flagged::new(script);
    let mut writer = Flagged::new(Vec::<u8>::new(alloc));
    let mut buffers = Box::new(alloc, Buffers::new())?;
    let lent = &mut *buffers;
    let ended = match form {
        Form::Replies => run_over(store, files, &mut reader, &mut writer, lent),
        Form::Map(marked) => map_over(store, files, &mut reader, &mut writer, marked, lent),
        Form::Sheet(marked) => {
            sheet_over(
                store,
                files,
                &mut reader,
                &mut writer,
                SheetForm::at_true_scale(marked),
                b"It",
                lent,
            )
        }
    };
    let text = writer.into_inner();
    Ok(Written { text, ended })
}

/// How a script that lies in memory ends over 64 pages of lent memory.
pub(crate) fn end_over_lent<W: Sink>(
    alloc: Global,
    script: &[u8],
    form: Form,
    writer: &mut W,
) -> Result<Result<Status, WriteFailed>, AllocError> {
    let script = &script[..script.len().min(LONGEST_SCRIPT)];
    let mut bytes = vec![in alloc; 165; PAGE * 64]?;
    let mut numbers = vec![in alloc; 999; LISTS * 64]?;
    let store = lent_store(&mut bytes, &mut numbers);
    let files = one_file(alloc)?;
    Ok(match form {
        Form::Replies => replies_of(store, files, script, writer),
        Form::Map(marked) => map_of(store, files, script, writer, marked),
        Form::Sheet(marked) => sheet_of(
            store,
            files,
            script,
            writer,
            SheetForm::at_true_scale(marked),
            b"It",
        ),
    })
}

/// What is written of such a script, into bytes that are lent too.
pub(crate) fn whole_over_lent(
    alloc: Global,
    script: &[u8],
    form: Form,
) -> Result<Written, AllocError> {
    let mut room = vec![in alloc; b'.'; TEXT_ROOM]?;
    let mut writer = WholeText::new(&mut room);
    let ended = end_over_lent(alloc, script, form, &mut writer)?;
    let length = writer.length();
    let mut text = Vec::new(alloc);
    text.extend_from_slice(room.as_slice().get(..length).unwrap_or(b""))?;
    let ended = match ended {
        Ok(status) => Ok(status),
        Err(WriteFailed) => Err(RunFault::WriteFailed),
    };
    Ok(Written { text, ended })
}
