//! The program's words.

ghost use Rattle.std.specs.Prelude.{◌≡◌, IfOk, IfSome, codes, false, map, string_bytes};
ghost use Rattle.clap.specs.Words.{FailsBy, app_of, fault_of, found_of, one_of, rows_of, rule_of, subcommand_of};
ghost use Rattle.clap.specs.Words.{subcommand_rows_of};
ghost use Rattle.rh_desk.specs.CommandLine.{check_words, draw_words, files_rule, lens_rule, marked_rule};
ghost use Rattle.rh_desk.specs.CommandLine.{needed_rule, pages_rule};
ghost use Rattle.rh_desk.specs.CommandLine.{picture_words, program_words, script_words};
ghost use Rattle.rh_desk.specs.Requests.{AsksFor, AsksKind, AsksLens, AsksMarked, AsksNothing, AsksShown};
ghost use Rattle.rh_desk.specs.ShownLens.{lens_size};
ghost use Rattle.rh_pictures.specs.LensSizes.{IsLensSize};

use crate::request::{ImageKind, Request, RunRequest, Shown};
use clap::{Arg, ArgAction, ArgMatches, Command, Error, value_parser};
use rh_defs::sizes::{MAX_PAGES, MIN_PAGES};
use rh_pictures::{LensSize, SheetForm};
use std::alloc::{AllocError, Global};

/// The pages of a desk where nothing is said.
pub const PAGES: u32 = 64;

/// How large the lens of a sheet is.
pub const LENS: LensSize = LensSize {
    width: 960,
    scale: 16,
};

/// How the program is called.
const USAGE: &str = "\
vervainfile run [--pages N] SCRIPT [NAME=PATH ...]
       vervainfile explain [--pages N] SCRIPT [NAME=PATH ...]
       vervainfile map [--pages N] [--marked] SCRIPT [NAME=PATH ...]
       vervainfile draw [--pages N] [--marked] [--lens] SCRIPT [NAME=PATH ...]
       vervainfile check [--slot] FILE
       vervainfile help COMMAND  (one of these, or of a script, as alloc)
       vervainfile               (with no words: the script on standard input)";

/// What the subcommands for scripts do.
const ABOUT_RUN: &str = "Run a script and print its replies";

const ABOUT_EXPLAIN: &str = "Run a script and say what was wrong with bad and refused lines";

const ABOUT_MAP: &str = "Run a script and print a map of memory after each step";

const ABOUT_DRAW: &str = "Run a script and print memory after each step as a page of HTML";

/// What stands under the help.
const MORE: &str = "\
With no words at all the script on standard input is run, over 64 pages and
without files.

Example:
  vervainfile run --pages 8 hello.desk picture=logo.spr

Exit status:
  0  each line was good, or the bytes are a heap, or with --slot a slot
  1  a line was bad, or explain met a refused command, or the bytes are none
  2  the words are wrong
  3  a file, read, write, length or memory fault";

/// What was asked for. `clap` let through nothing else, which its types don't say.
pub fn request_of<'m, 'a>(matches: &'m ArgMatches<'a>) -> Option<Request<'m, 'a>>
    ensures asked { IfSome result (AsksFor (subcommand_rows_of matches.now)) }
    ensures none { result ≡ None → AsksNothing (subcommand_rows_of matches.now) }
{
    let (name, found) = matches.subcommand()?;
    if name == "check" {
        let file = found.get_str("file")?;
        let kind = image_kind(found);
        return Some(Request::Check { kind, file });
    }
    let pages = found.get_one::<u32>("pages").unwrap_or(PAGES);
    let script = found.get_str("script")?;
    if pages < MIN_PAGES as u32 || pages > MAX_PAGES as u32 {
        return None;
    }
    let files = found.get_strs("files").unwrap_or(&[]);
    Some(Request::Run(RunRequest {
        pages,
        script,
        files,
        shown: shown_of(name, found),
    }))
}

/// What the bytes are to be: a slot where `--slot` was given, else a heap.
fn image_kind(found: &ArgMatches<'_>) -> ImageKind
    ensures { AsksKind (one_of (codes "slot") (rows_of (found_of found.now))) result }
{
    if found.get_flag("slot") {
        ImageKind::Slot
    } else {
        ImageKind::Heap
    }
}

/// What is to be written of a script by a subcommand with a name.
fn shown_of(name: &str, found: &ArgMatches<'_>) -> Shown
    ensures shown { AsksShown name.now (rows_of (found_of found.now)) result }
    ensures drawable { IfSome (lens_size result) IsLensSize }
{
    if name == "map" {
        Shown::Map {
            marked: is_marked(found),
        }
    } else if name == "draw" {
        let form = SheetForm {
            marked: is_marked(found),
            lens: lens_asked(found),
        };
        Shown::Sheet { form }
    } else if name == "explain" {
        Shown::Explanations
    } else {
        Shown::Replies
    }
}

/// Whether marked steps alone are to be shown.
fn is_marked(found: &ArgMatches<'_>) -> bool
    ensures { AsksMarked (one_of (codes "marked") (rows_of (found_of found.now))) result }
{
    found.get_flag("marked")
}

/// The lens through which areas are to be drawn: of this size where `--lens` was given.
fn lens_asked(found: &ArgMatches<'_>) -> Option<LensSize>
    ensures asked { AsksLens (one_of (codes "lens") (rows_of (found_of found.now))) result }
    ensures drawable { IfSome result IsLensSize }
{
    if found.get_flag("lens") {
        Some(LENS)
    } else {
        None
    }
}

/// The words, as far as `clap` knows them.
pub fn parsed<'a>(alloc: Global, words: &'a [String]) -> Result<ArgMatches<'a>, Error>
    ensures found { IfOk result (λ matches. subcommand_rows_of matches ≡ subcommand_of program_words
        (map string_bytes words.entry.now)) }
    ensures fails { FailsBy (fault_of program_words (map string_bytes words.entry.now)) result }
{
    Command::new(alloc, "vervainfile")
        .version("1.0.0")
        .about("The memory of a desktop, shared by its tasks")
        .override_usage(USAGE)
        .after_help(MORE)
        .subcommand_required(true)
        .subcommand(running(alloc, "run", ABOUT_RUN)?)?
        .subcommand(running(alloc, "explain", ABOUT_EXPLAIN)?)?
        .subcommand(picturing(alloc, "map", ABOUT_MAP)?)?
        .subcommand(drawing(alloc)?)?
        .subcommand(checking(alloc)?)?
        .try_get_matches_from(words)
}

/// The words of a run, or of its explanations.
fn running<'a>(alloc: Global, name: &'a str, about: &'a str) -> Result<Command<'a>, AllocError>
    ensures { IfOk result (λ command. app_of command ≡ script_words name.now) }
{
    Command::new(alloc, name)
        .about(about)
        .after_help(MORE)
        .arg(pages_arg(alloc))?
        .arg(script_arg(alloc))?
        .arg(files_arg(alloc))
}

fn pages_arg<'a>(alloc: Global) -> Arg<'a>
    ensures rule { rule_of result ≡ pages_rule }
    ensures local { result.global ≡ false }
{
    Arg::new(alloc, "pages")
        .long("pages")
        .value_name("N")
        .help("Pages of the desk, 8 to 1024 [default: 64]")
        .value_parser(value_parser!(u32).range(MIN_PAGES as i64..MAX_PAGES as i64 + 1))
}

fn script_arg<'a>(alloc: Global) -> Arg<'a>
    ensures rule { rule_of result ≡ needed_rule (codes "script") }
    ensures local { result.global ≡ false }
{
    Arg::new(alloc, "script")
        .value_name("SCRIPT")
        .help("The script, a command a line; - for standard input")
        .required(true)
        .action(ArgAction::Set)
}

fn files_arg<'a>(alloc: Global) -> Arg<'a>
    ensures rule { rule_of result ≡ files_rule }
    ensures local { result.global ≡ false }
{
    Arg::new(alloc, "files")
        .value_name("NAME=PATH")
        .help("Files that the script may load, each by a name of its own")
        .num_args(0..)
        .action(ArgAction::Append)
}

/// The words of a picture of a script.
fn picturing<'a>(alloc: Global, name: &'a str, about: &'a str) -> Result<Command<'a>, AllocError>
    ensures { IfOk result (λ command. app_of command ≡ picture_words name.now) }
{
    Command::new(alloc, name)
        .about(about)
        .after_help(MORE)
        .arg(pages_arg(alloc))?
        .arg(marked_arg(alloc))?
        .arg(script_arg(alloc))?
        .arg(files_arg(alloc))
}

/// The words of a sheet of a script.
fn drawing<'a>(alloc: Global) -> Result<Command<'a>, AllocError>
    ensures { IfOk result (λ command. app_of command ≡ draw_words) }
{
    Command::new(alloc, "draw")
        .about(ABOUT_DRAW)
        .after_help(MORE)
        .arg(pages_arg(alloc))?
        .arg(marked_arg(alloc))?
        .arg(lens_arg(alloc))?
        .arg(script_arg(alloc))?
        .arg(files_arg(alloc))
}

fn lens_arg<'a>(alloc: Global) -> Arg<'a>
    ensures rule { rule_of result ≡ lens_rule }
    ensures local { result.global ≡ false }
{
    Arg::new(alloc, "lens")
        .long("lens")
        .help("Draw areas through a lens, each part as wide as its words")
        .action(ArgAction::SetTrue)
}

fn marked_arg<'a>(alloc: Global) -> Arg<'a>
    ensures rule { rule_of result ≡ marked_rule }
    ensures local { result.global ≡ false }
{
    Arg::new(alloc, "marked")
        .long("marked")
        .help("Show marked steps alone: a line #picture marks the next")
        .action(ArgAction::SetTrue)
}

fn checking<'a>(alloc: Global) -> Result<Command<'a>, AllocError>
    ensures { IfOk result (λ command. app_of command ≡ check_words) }
{
    let slot = Arg::new(alloc, "slot")
        .long("slot")
        .help("Take the bytes for a slot, not for a heap")
        .action(ArgAction::SetTrue);
    let file = Arg::new(alloc, "file")
        .value_name("FILE")
        .help("The bytes, 1048576 at most; - for standard input")
        .required(true)
        .action(ArgAction::Set);
    Command::new(alloc, "check")
        .about("Say whether a file's bytes are a heap or a slot, and what it has")
        .after_help(MORE)
        .arg(slot)?
        .arg(file)
}
