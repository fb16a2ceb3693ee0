//! What the program does with its words.

ghost use Rattle.std.specs.Prelude.{◌≡◌, ◌≢◌, ◌≤◌, ◌<◌, [], codes, length, map, string_bytes, IfOk, IfErr, IfSome};
ghost use Rattle.rh_defs.specs.Runs.{start};
ghost use Rattle.rh_desk.specs.declared.command_line.TheConstants.{PAGES};
ghost use Rattle.rh_desk.specs.Done.{AnyWordsEnd, CheckEnds, ExplainOver, FileOver, HelpEnds, InputCheckEnds, MapOver};
ghost use Rattle.rh_desk.specs.Done.{RunEnds, RunOver, SheetOver, ShownOver, WordsEnd, line_as};
ghost use Rattle.rh_desk.specs.Done.{sheet_name as name_of_sheet, status_as, streams};
ghost use Rattle.rh_desk.specs.ProgramEnd.{ending_of, exit_status};
ghost use Rattle.rh_desk.specs.Telling.{Tells, run_fault_text};
ghost use Rattle.rh_explained.specs.Help.{command_help};
ghost use Rattle.rh_lines.specs.Flow.{Breaks, Input, Puts, Takes};
ghost use Rattle.rh_pictures.specs.LensSizes.{IsLensSize};
ghost use Rattle.rh_session.specs.Outcome.{Finished};
ghost use Rattle.std.specs.IoError.{error_kind};
ghost use Rattle.std.specs.declared.io.ErrorKind.TheVariants.{OutOfMemory};
ghost use Rattle.rh_defs.specs.declared.sizes.TheConstants.{MAX_PAGES, MIN_PAGES};

use crate::asked::{kind_asked, meant};
use crate::command_line::{PAGES, parsed, request_of};
use crate::files::{check_words, read_files, read_whole};
use crate::input::{INPUT, read_input};
use crate::program_end::ProgramEnd;
use crate::reasons::FileLoss;
use crate::request::{ImageKind, Request, RunRequest, Shown};
use crate::telling::{ended, tell_file, tell_folder, tell_words_error};
use memchr::memrchr;
use rh_defs::Files;
use rh_explained::{CommandKind, put_command_help};
use rh_lines::{Flagged, Sink, Source, WriteFailed, WriterPen, put};
use rh_pictures::SheetForm;
use rh_run::{RunFault, Status, check_image, check_slot_image, draw_map, draw_sheet, explain, run};
use std::alloc::Global;
use std::fs::{File, OpenFile};
use std::io::{self, Read};
use std::rt;

/// So many bytes of help are held, and written by one call.
const HELP_ROOM: usize = 2_048;

/// The name of the input in a sheet.
const INPUT_NAME: &[u8] = b"standard input";

/// Runs the program on its words, of which the first is its own name, and answers its exit status:
/// 0 for a clean run, a good heap or slot, help or the version, 1 for a bad line, heap or slot, 2 for wrong words, 3
/// for a file, read, write, length or memory fault.
pub fn program<R: rt::Files, I: Source, O: Sink, E: Sink>(
    runtime: &R,
    alloc: Global,
    words: &[String],
    input: &mut I,
    output: &mut O,
    errors: &mut E,
) -> u8
    requires { (I.input input.old).reads ≡ 0 }
    ensures small { result ≤ 3 }

    // At 0 and 1 the output took all that it was offered, and at 2 it was offered nothing.
    ensures well { result ≤ 1 → (O.output output.new).failed ≡ (O.output output.old).failed }
    ensures wrong { result ≡ 2 → O.output output.new ≡ O.output output.old }

    // With no words but its name, a run of the input over 64 pages that came to its end; nothing is told of it.
    ensures ran { length words.now ≤ 1 → (status : Status) → result ≡ exit_status (ending_of (Ok status))
        → Finished (start PAGES []) (I.input input.old) (I.input input.new) (O.output output.old)
        (O.output output.new) status }
    ensures quiet { length words.now ≤ 1 → result ≤ 1 → E.output errors.new ≡ E.output errors.old }

    // It ends as a run over 64 pages without files does, and with more words as what they ask for does.
    ensures alone { length words.now ≤ 1 → (ending : ProgramEnd) × (result ≡ exit_status ending)
        × RunOver (start PAGES []) (streams (I.input input.old) (I.input input.new) (O.output output.old)
        (O.output output.new) (E.output errors.old) (E.output errors.new)) ending }
    ensures asked { 1 < length words.now → (ending : ProgramEnd) × (result ≡ exit_status ending)
        × AnyWordsEnd R.File.remaining (map string_bytes words.now)
        (streams (I.input input.old) (I.input input.new) (O.output output.old) (O.output output.new)
        (E.output errors.old) (E.output errors.new)) ending }
{
    let ending = if words.len() <= 1 {
        run_ending(alloc, Files::new(alloc), PAGES, input, output, errors)
    } else {
        any_words(runtime, alloc, words, input, output, errors)
    };
    ending.exit_status()
}

/// Tells why the program's words could not be had, and answers its exit status: 3 where memory was refused, and 2 where
/// one of them, its own name among them, is not text.
#[tactic(auto, using(crate::proofs::TellLemmas::puts_tells))]
pub fn words_unread<E: Sink>(error: &io::Error, errors: &mut E) -> u8
    ensures fault { 2 ≤ result }
    ensures small { result ≤ 3 }
    ensures memory { error_kind error.now ≡ OutOfMemory → result ≡ 3 }
    ensures other { error_kind error.now ≢ OutOfMemory → result ≡ 2 }
    ensures memory_error { error_kind error.now ≡ OutOfMemory
        → Tells (E.output errors.old) (E.output errors.new) (run_fault_text RunFault.NoMemory) }
    ensures other_error { error_kind error.now ≢ OutOfMemory
        → Tells (E.output errors.old) (E.output errors.new) (codes "rh_desk: a word is not text\n") }
{
    let ending = if error.kind() == io::ErrorKind::OutOfMemory {
        ended(Err(RunFault::NoMemory), errors)
    } else {
        let _told = put(errors, b"rh_desk: a word is not text\n");
        ProgramEnd::WrongWords
    };
    ending.exit_status()
}

/// Runs a script over so many pages with these files, and tells the fault that stopped it, if one did.
fn run_ending<I: Source, O: Sink, E: Sink>(
    alloc: Global,
    files: Files,
    pages: u32,
    script: &mut I,
    output: &mut O,
    errors: &mut E,
) -> ProgramEnd
    requires least { MIN_PAGES ≤ pages }
    requires most { pages ≤ MAX_PAGES }
    requires fresh { (I.input script.old).reads ≡ 0 }

    // A run that came to its end.
    ensures ran { (status : Status) → result ≡ ending_of (Ok status)
        → Finished (start pages files) (I.input script.old) (I.input script.new) (O.output output.old)
        (O.output output.new) status }
    ensures well { exit_status result ≤ 1 → (O.output output.new).failed ≡ (O.output output.old).failed }
    ensures run { result ≡ ProgramEnd.WrongWords → ⊥ }
    ensures quiet { exit_status result ≤ 1 → E.output errors.new ≡ E.output errors.old }
    ensures over { RunOver (start pages files)
        (streams (I.input script.old) (I.input script.new) (O.output output.old) (O.output output.new)
        (E.output errors.old) (E.output errors.new)) result }
{
    ended(run(alloc, files, script, output, pages), errors)
}

/// Explains what went wrong in a script over so many pages with these files, and tells the fault that stopped it, if
/// one did.
fn explain_ending<I: Source, O: Sink, E: Sink>(
    alloc: Global,
    files: Files,
    pages: u32,
    script: &mut I,
    output: &mut O,
    errors: &mut E,
) -> ProgramEnd
    requires least { MIN_PAGES ≤ pages }
    requires most { pages ≤ MAX_PAGES }
    requires fresh { (I.input script.old).reads ≡ 0 }
    ensures well { exit_status result ≤ 1 → (O.output output.new).failed ≡ (O.output output.old).failed }
    ensures run { result ≡ ProgramEnd.WrongWords → ⊥ }
    ensures over { ExplainOver (start pages files)
        (streams (I.input script.old) (I.input script.new) (O.output output.old) (O.output output.new)
        (E.output errors.old) (E.output errors.new)) result }
{
    ended(explain(alloc, files, script, output, pages), errors)
}

/// Writes the map of a script over so many pages with these files, and tells the fault that stopped it, if one did.
fn map_ending<I: Source, O: Sink, E: Sink>(
    alloc: Global,
    files: Files,
    pages: u32,
    marked: bool,
    script: &mut I,
    output: &mut O,
    errors: &mut E,
) -> ProgramEnd
    requires least { MIN_PAGES ≤ pages }
    requires most { pages ≤ MAX_PAGES }
    requires fresh { (I.input script.old).reads ≡ 0 }
    ensures well { exit_status result ≤ 1 → (O.output output.new).failed ≡ (O.output output.old).failed }
    ensures run { result ≡ ProgramEnd.WrongWords → ⊥ }
    ensures over { MapOver marked (start pages files)
        (streams (I.input script.old) (I.input script.new) (O.output output.old) (O.output output.new)
        (E.output errors.old) (E.output errors.new)) result }
{
    ended(
        draw_map(alloc, files, script, output, pages, marked),
        errors,
    )
}

/// Writes the sheet of a script over so many pages with these files, and tells the fault that stopped it, if one did.
fn sheet_ending<I: Source, O: Sink, E: Sink>(
    alloc: Global,
    files: Files,
    request: &RunRequest<'_, '_>,
    form: SheetForm,
    script: &mut I,
    output: &mut O,
    errors: &mut E,
) -> ProgramEnd
    requires fresh { (I.input script.old).reads ≡ 0 }
    requires lens { IfSome form.lens IsLensSize }
    ensures well { exit_status result ≤ 1 → (O.output output.new).failed ≡ (O.output output.old).failed }
    ensures run { result ≡ ProgramEnd.WrongWords → ⊥ }
    ensures over { SheetOver form (name_of_sheet request.now.script.now) (start request.now.pages files)
        (streams (I.input script.old) (I.input script.new) (O.output output.old) (O.output output.new)
        (E.output errors.old) (E.output errors.new)) result }
{
    let name = sheet_name(request.script);
    let pages = request.pages;
    ended(
        draw_sheet(alloc, files, script, output, pages, form, name),
        errors,
    )
}

/// The name that the sheet of a script has.
fn sheet_name(script: &str) -> &[u8]
    ensures { result.now ≡ name_of_sheet script.now }
{
    if script == INPUT {
        return INPUT_NAME;
    }
    let path = script.as_bytes();
    match memrchr(b'/', path) {
        Some(at) => &path[at + 1..],
        None => path,
    }
}

/// Writes what is to be written of a script, and tells the fault that stopped it, if one did.
fn show_ending<I: Source, O: Sink, E: Sink>(
    alloc: Global,
    files: Files,
    request: &RunRequest<'_, '_>,
    script: &mut I,
    output: &mut O,
    errors: &mut E,
) -> ProgramEnd
    requires { (I.input script.old).reads ≡ 0 }
    ensures well { exit_status result ≤ 1 → (O.output output.new).failed ≡ (O.output output.old).failed }
    ensures run { result ≡ ProgramEnd.WrongWords → ⊥ }
    ensures over { ShownOver request.now.shown request.now.script.now (start request.now.pages files)
        (streams (I.input script.old) (I.input script.new) (O.output output.old) (O.output output.new)
        (E.output errors.old) (E.output errors.new)) result }
{
    match request.shown {
        Shown::Replies => run_ending(alloc, files, request.pages, script, output, errors),
        Shown::Explanations => {
            explain_ending(alloc, files, request.pages, script, output, errors)
        }
        Shown::Map { marked } => {
            map_ending(alloc, files, request.pages, marked, script, output, errors)
        }
        Shown::Sheet { form } => {
            sheet_ending(alloc, files, request, form, script, output, errors)
        }
    }
}

/// Writes the help of a command of a script where that is asked for, and else does what the words mean.
fn any_words<R: rt::Files, I: Source, O: Sink, E: Sink>(
    runtime: &R,
    alloc: Global,
    words: &[String],
    input: &mut I,
    output: &mut O,
    errors: &mut E,
) -> ProgramEnd
    requires { (I.input input.old).reads ≡ 0 }
    ensures well { exit_status result ≤ 1 → (O.output output.new).failed ≡ (O.output output.old).failed }
    ensures wrong { result ≡ ProgramEnd.WrongWords → O.output output.new ≡ O.output output.old }
    ensures ends { AnyWordsEnd R.File.remaining (map string_bytes words.now)
        (streams (I.input input.old) (I.input input.new) (O.output output.old) (O.output output.new)
        (E.output errors.old) (E.output errors.new)) result }
{
    match kind_asked(words) {
        Some(kind) => help_ending(kind, output, errors),
        None => run_words(runtime, alloc, meant(words), input, output, errors),
    }
}

/// Writes the help of a command of a script, and tells where it can't be written.
fn help_ending<O: Sink, E: Sink>(kind: CommandKind, output: &mut O, errors: &mut E) -> ProgramEnd
    ensures well { exit_status result ≤ 1 → (O.output output.new).failed ≡ (O.output output.old).failed }
    ensures run { result ≡ ProgramEnd.WrongWords → ⊥ }
    ensures ends { (input : Input) → HelpEnds kind (streams input input (O.output output.old) (O.output output.new)
        (E.output errors.old) (E.output errors.new)) result }
{
    match print_help(kind, output) {
        Ok(()) => ProgramEnd::Clean,
        Err(_) => ended(Err(RunFault::WriteFailed), errors),
    }
}

/// Writes the help of a command of a script. Fails only where the writer failed or took none of what it was offered.
fn print_help<O: Sink>(kind: CommandKind, output: &mut O) -> Result<(), WriteFailed>
    ensures { Puts (O.output output.old) (O.output output.new) result (command_help kind) }
{
    let mut room = [0; HELP_ROOM];
    let mut pen = WriterPen::new(output, &mut room);
    put_command_help(kind, &mut pen);
    pen.finish()
}

fn run_words<R: rt::Files, I: Source, O: Sink, E: Sink>(
    runtime: &R,
    alloc: Global,
    words: &[String],
    input: &mut I,
    output: &mut O,
    errors: &mut E,
) -> ProgramEnd
    requires { (I.input input.old).reads ≡ 0 }
    ensures well { exit_status result ≤ 1 → (O.output output.new).failed ≡ (O.output output.old).failed }
    ensures wrong { result ≡ ProgramEnd.WrongWords → O.output output.new ≡ O.output output.old }
    ensures ends { WordsEnd R.File.remaining (map string_bytes words.now)
        (streams (I.input input.old) (I.input input.new) (O.output output.old) (O.output output.new)
        (E.output errors.old) (E.output errors.new)) result }
{
    let matches = match parsed(alloc, words) {
        Ok(matches) => matches,
        Err(error) => return tell_words_error(alloc, words, &error, output, errors),
    };
    match request_of(&matches) {
        Some(Request::Check { kind, file }) => {
            check_file(runtime, alloc, kind, file, input, output, errors)
        }
        Some(Request::Run(request)) => {
            run_request(runtime, alloc, &request, input, output, errors)
        }
        None => ProgramEnd::WrongWords,
    }
}

/// Looks over the NAME=PATH words, reads their files, and runs the script from its file, or the input for `-`, or
/// writes its map or its sheet.
fn run_request<R: rt::Files, I: Source, O: Sink, E: Sink>(
    runtime: &R,
    alloc: Global,
    request: &RunRequest<'_, '_>,
    input: &mut I,
    output: &mut O,
    errors: &mut E,
) -> ProgramEnd
    requires { (I.input input.old).reads ≡ 0 }
    ensures well { exit_status result ≤ 1 → (O.output output.new).failed ≡ (O.output output.old).failed }
    ensures wrong { result ≡ ProgramEnd.WrongWords → O.output output.new ≡ O.output output.old }
    ensures ends { RunEnds R.File.remaining request.now.shown request.now.pages request.now.script.now
        (map (λ word. word.now) request.now.files.now)
        (streams (I.input input.old) (I.input input.new) (O.output output.old) (O.output output.new)
        (E.output errors.old) (E.output errors.new)) result }
{
    if let Err(ending) = check_words(alloc, request.files, errors) {
        return ending;
    }
    let files = match read_files(runtime, alloc, request.files, errors) {
        Ok(files) => files,
        Err(ending) => return ending,
    };
    if request.script == INPUT {
        return show_ending(alloc, files, request, input, output, errors);
    }
    match File::open(runtime, request.script) {
        Ok(file) => show_file(alloc, files, request, file, output, errors),
        Err(error) if error.kind() == io::ErrorKind::OutOfMemory => {
            ended(Err(RunFault::NoMemory), errors)
        }
        Err(error) => tell_file(request.script, FileLoss::of(&error), errors),
    }
}

/// Writes what is to be written of the script in a file. That a script which can't be read is a folder is told.
fn show_file<F: Read + OpenFile + Drop, O: Sink, E: Sink>(
    alloc: Global,
    files: Files,
    request: &RunRequest<'_, '_>,
    file: F,
    output: &mut O,
    errors: &mut E,
) -> ProgramEnd
    ensures well { exit_status result ≤ 1 → (O.output output.new).failed ≡ (O.output output.old).failed }
    ensures run { result ≡ ProgramEnd.WrongWords → ⊥ }
    ensures over { (input : Input) → FileOver F.remaining request.now.shown (start request.now.pages files)
        request.now.script.now (streams input input (O.output output.old) (O.output output.new)
        (E.output errors.old) (E.output errors.new)) result }
{
    let is_folder = is_folder(&file);
    let mut reader = Flagged::new(file);
    let ending = show_ending(alloc, files, request, &mut reader, output, errors);
    if is_folder && ending == ProgramEnd::Fault {
        tell_folder(errors);
    }
    ending
}

fn is_folder<F: OpenFile>(file: &F) -> bool {
    match file.metadata() {
        Ok(metadata) => metadata.is_dir(),
        Err(_) => false,
    }
}

/// Says whether the bytes of a file, or those of the input for `-`, are of a kind.
fn check_file<R: rt::Files, I: Source, O: Sink, E: Sink>(
    runtime: &R,
    alloc: Global,
    kind: ImageKind,
    path: &str,
    input: &mut I,
    output: &mut O,
    errors: &mut E,
) -> ProgramEnd
    ensures well { exit_status result ≤ 1 → (O.output output.new).failed ≡ (O.output output.old).failed }
    ensures run { result ≡ ProgramEnd.WrongWords → ⊥ }
    ensures of_file { path.now ≢ codes "-" → (I.input input.new ≡ I.input input.old)
        × CheckEnds R.File.remaining kind path.now (streams (I.input input.old) (I.input input.new)
        (O.output output.old) (O.output output.new) (E.output errors.old) (E.output errors.new)) result }
    ensures of_input { path.now ≡ codes "-" → InputCheckEnds kind (streams (I.input input.old) (I.input input.new)
        (O.output output.old) (O.output output.new) (E.output errors.old) (E.output errors.new)) result }
{
    if path == INPUT {
        return check_input(alloc, kind, input, output, errors);
    }
    match read_whole(runtime, alloc, path, errors) {
        Ok(bytes) => ended(check_bytes(kind, bytes.as_slice(), output), errors),
        Err(ending) => ending,
    }
}

/// Says whether the bytes of the input are of a kind.
fn check_input<I: Source, O: Sink, E: Sink>(
    alloc: Global,
    kind: ImageKind,
    input: &mut I,
    output: &mut O,
    errors: &mut E,
) -> ProgramEnd
    ensures well { exit_status result ≤ 1 → (O.output output.new).failed ≡ (O.output output.old).failed }
    ensures run { result ≡ ProgramEnd.WrongWords → ⊥ }
    ensures ends { InputCheckEnds kind (streams (I.input input.old) (I.input input.new)
        (O.output output.old) (O.output output.new) (E.output errors.old) (E.output errors.new)) result }
{
    match read_input(alloc, input, errors) {
        Ok(image) => ended(check_bytes(kind, image.as_slice(), output), errors),
        Err(ending) => ending,
    }
}

/// Writes what bytes of a kind consist of, or what is wrong with them.
fn check_bytes<O: Sink>(kind: ImageKind, bytes: &[u8], output: &mut O) -> Result<Status, RunFault>
    ensures ok { IfOk result (λ status. Takes (O.output output.old) (O.output output.new) (line_as kind bytes.now)) }
    ensures status { IfOk result (λ status. status ≡ status_as kind bytes.now) }
    ensures err { IfErr result (λ fault. (fault ≡ RunFault.WriteFailed) × Breaks (O.output output.old)
        (O.output output.new) (line_as kind bytes.now)) }
{
    match kind {
        ImageKind::Heap => check_image(bytes, output),
        ImageKind::Slot => check_slot_image(bytes, output),
    }
}
