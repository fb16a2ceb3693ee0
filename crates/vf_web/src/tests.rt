//! What the exports write, and how they end.

use crate::status::{BAD_FILES, BAD_PAGES, DONE, SHORT_TEXT, SOME_BAD};
use crate::{vf_check, vf_draw, vf_map, vf_run};
use rh_defs::sizes::{MAX_PAGES, PAGE};
use rh_defs::{Files, Name};
use rh_lines::Flagged;
use rh_pages::LISTS;
use rh_pictures::SheetForm;
use rh_run::{draw_map, draw_sheet};
use std::alloc::Global;
use std::fmt::Debug;
use std::process::Abort;
use std::test::Fail;

/// The most pages, as a call takes them.
const MOST: u32 = MAX_PAGES as u32;

/// What stands before a call where it tells the length of its text.
const UNSET: usize = 777_777;

/// The pages of most tests.
const PAGES: u32 = 8;

/// The bytes and the page numbers that these need.
const POOL: usize = PAGE * 8;

const NUMBERS: usize = LISTS * 8;

/// What bytes and numbers hold before a call.
const DIRT: u8 = 0xA5;

const HELLO: &[u8] = b"task a 100\nalloc a 0 5\nput a 0 0 68656c6c6f\nshow a 0\n";

const REPLIES: &[u8] = b"ok 1\nok &9008\nok\nok 5 68656c6c6f\n";

/// A script that reads a file, and two files of which it is one.
const LOADS: &[u8] = b"task a 100\nload a 0 words\nshow a 0\n";

const LOADED: &[u8] = b"ok 1\nok &9008\nok 3 616263\n";

const FILES: &[u8] = b"\x05other\x00\x00\x00\x00\x05words\x03\x00\x00\x00abc";

/// What a call takes besides what it writes.
#[derive(Clone, Copy)]
struct Job<'a> {
    pages: u32,
    pool: usize,
    numbers: usize,
    script: &'a [u8],
    files: &'a [u8],
}

/// Which of the exports is called.
#[derive(Clone, Copy)]
enum Call {
    Run,
    Map,
    Draw,
}

/// How a call ended: its status, the bytes for its text, and how many are needed.
type Ended = (u32, Vec<u8>, usize);

/// A script over 8 pages.
fn eight<'a>(script: &'a [u8], files: &'a [u8]) -> Job<'a> {
    Job {
        pages: PAGES,
        pool: POOL,
        numbers: NUMBERS,
        script,
        files,
    }
}

/// Calls an export with dirty memory, and with so many bytes for its text.
fn ended(alloc: Global, call: Call, job: &Job<'_>, room: usize) -> Result<Ended, Fail> {
    let mut pool = vec![in alloc; DIRT; job.pool]?;
    let mut numbers = vec![in alloc; 0xA5A5u16; job.numbers]?;
    let mut text = vec![in alloc; DIRT; room]?;
    let mut needed = UNSET;
    let status = match call {
        Call::Run => vf_run(
            job.pages,
            &mut pool,
            &mut numbers,
            job.script,
            job.files,
            &mut text,
            &mut needed,
        ),
        Call::Map => vf_map(
            job.pages,
            &mut pool,
            &mut numbers,
            job.script,
            job.files,
            0,
            &mut text,
            &mut needed,
        ),
        Call::Draw => vf_draw(
            job.pages,
            &mut pool,
            &mut numbers,
            job.script,
            b"a name",
            job.files,
            0,
            &mut text,
            &mut needed,
        ),
    };
    Ok((status, text, needed))
}

/// Ends the test where a value isn't the one that is wanted.
fn same<R: Abort, T: PartialEq + Debug + Drop>(rt: &R, found: T, wanted: T) {
    assert_eq!(rt; found, wanted);
}

/// Asserts that bytes begin with a text, and are as they were behind it.
fn begins<R: Abort>(rt: &R, found: &[u8], text: &[u8]) {
    assert!(rt; text.len() <= found.len());
    same(rt, &found[..text.len()], text);
    same(rt, found[text.len()..].iter().all(|b| *b == DIRT), true);
}

/// Asserts that these bytes are the first ones of a text.
fn is_front<R: Abort>(rt: &R, front: &[u8], text: &[u8]) {
    assert!(rt; front.len() <= text.len());
    same(rt, front, &text[..front.len()]);
}

/// Asserts that a call wrote a text where there is room for more.
fn writes<R: Abort>(rt: &R, ended: Ended, status: u32, text: &[u8]) {
    same(rt, (ended.0, ended.2), (status, text.len()));
    begins(rt, ended.1.as_slice(), text);
}

/// Asserts that a call refused, and wrote nothing.
fn refuses<R: Abort>(rt: &R, ended: Ended, status: u32) {
    same(rt, (ended.0, ended.2), (status, UNSET));
    begins(rt, ended.1.as_slice(), b"");
}

/// Scripts with their files: how a run ends, and the text that it writes.
const RUNS: [(&[u8], &[u8], u32, &[u8]); 7] = [
    (HELLO, b"", DONE, REPLIES),
    (LOADS, FILES, DONE, LOADED),
    (b"", b"", DONE, b""),
    (
        b"fly\ntask a 100",
        b"",
        SOME_BAD,
        b"bad Unknown\nbad Unended\n",
    ),
    (HELLO, b"\x0cabcdefghijkl\x00\x00\x00\x00", DONE, REPLIES),
    (HELLO, b"\x02A1\x01\x00\x00\x00x", DONE, REPLIES),
    (
        HELLO,
        b"\x01a\x00\x00\x00\x00\x01A\x00\x00\x00\x00",
        DONE,
        REPLIES,
    ),
];

#[test]
fn scripts_are_run(rt: HostRuntime) -> Result<(), Fail> {
    for (script, files, status, text) in RUNS {
        let job = eight(script, files);
        writes(&rt, ended(rt.alloc(), Call::Run, &job, 100)?, status, text);
    }
    Ok(())
}

#[test]
fn a_text_is_cut_where_its_bytes_end(rt: HostRuntime) -> Result<(), Fail> {
    let alloc = rt.alloc();
    let len = REPLIES.len();
    for (room, status) in [
        (len, DONE),
        (len - 1, SHORT_TEXT),
        (1, SHORT_TEXT),
        (0, SHORT_TEXT),
    ] {
        let (found, text, needed) = ended(alloc, Call::Run, &eight(HELLO, b""), room)?;
        same(&rt, (found, needed), (status, len));
        same(&rt, text.as_slice(), &REPLIES[..room]);
    }
    Ok(())
}

#[test]
fn pages_and_memory_are_looked_at(rt: HostRuntime) -> Result<(), Fail> {
    let alloc = rt.alloc();
    for (pages, pool, numbers) in [
        (0, POOL, NUMBERS),
        (7, POOL, NUMBERS),
        (8, POOL - 1, NUMBERS),
        (8, POOL, NUMBERS - 1),
        (9, POOL, NUMBERS),
        (MOST + 1, PAGE * (MAX_PAGES + 1), LISTS * (MAX_PAGES + 1)),
    ] {
        for call in [Call::Run, Call::Map, Call::Draw] {
            let job = Job {
                pages,
                pool,
                numbers,
                script: HELLO,
                files: b"\x01",
            };
            refuses(&rt, ended(alloc, call, &job, 10)?, BAD_PAGES);
        }
    }
    for (pages, pool, numbers) in [
        (8, POOL + 1, NUMBERS + 1),
        (MOST, PAGE * MAX_PAGES, LISTS * MAX_PAGES),
    ] {
        let job = Job {
            pages,
            pool,
            numbers,
            script: HELLO,
            files: b"",
        };
        writes(&rt, ended(alloc, Call::Run, &job, 100)?, DONE, REPLIES);
    }
    Ok(())
}

#[test]
fn badly_packed_files_are_refused(rt: HostRuntime) -> Result<(), Fail> {
    let alloc = rt.alloc();
    let packed: [&[u8]; 11] = [
        b"\x00\x00\x00\x00\x00",
        b"\x05",
        b"\x05words",
        b"\x05words\x03\x00\x00",
        b"\x05words\x03\x00\x00\x00ab",
        b"\x05words\x03\x00\x00\x00abc\x00",
        b"\x01-\x00\x00\x00\x00",
        b"\x011\x00\x00\x00\x00",
        b"\x0dabcdefghijklm\x00\x00\x00\x00",
        b"\x01a\x00\x00\x00\x01",
        b"\x01a\x00\x00\x00\x00\x01b\x00\x00\x00\x00\x01a\x00\x00\x00\x00",
    ];
    for files in packed {
        for call in [Call::Run, Call::Map, Call::Draw] {
            refuses(
                &rt,
                ended(alloc, call, &eight(HELLO, files), 10)?,
                BAD_FILES,
            );
        }
    }
    Ok(())
}

#[test]
fn a_file_has_at_most_a_mebibyte(rt: HostRuntime) -> Result<(), Fail> {
    let alloc = rt.alloc();
    for (size, status) in [(0x0010_0000u32, DONE), (0x0010_0001, BAD_FILES)] {
        let mut files = Vec::new(alloc);
        files.extend_from_slice(b"\x01a")?;
        files.extend_from_slice(&size.to_le_bytes())?;
        files.resize(6 + size as usize, 0)?;
        let (found, _, _) = ended(alloc, Call::Run, &eight(HELLO, files.as_slice()), 100)?;
        same(&rt, found, status);
    }
    Ok(())
}

/// The files that a native program is given.
fn native_files(alloc: Global) -> Result<Files, Fail> {
    let mut files = Files::new(alloc);
    if let Some(name) = Name::new(b"words") {
        let mut bytes = Vec::new(alloc);
        bytes.extend_from_slice(b"abc")?;
        if !files.contains(&name) && bytes.len() < 100 {
            files.insert(name, bytes)?;
        }
    }
    Ok(files)
}

/// What a native program draws of the script that reads a file: its sheet, or else its map.
fn native_text(alloc: Global, is_sheet: bool) -> Result<Vec<u8>, Fail> {
    let files = native_files(alloc)?;
    let mut reader = Flagged::new(LOADS);
    let mut writer = Flagged::new(Vec::<u8>::new(alloc));
    let _status = if is_sheet {
        draw_sheet(
            alloc,
            files,
            &mut reader,
            &mut writer,
            PAGES,
            SheetForm::at_true_scale(false),
            b"a name",
        )
    } else {
        draw_map(alloc, files, &mut reader, &mut writer, PAGES, false)
    };
    Ok(writer.into_inner())
}

#[test]
fn maps_and_sheets_are_those_of_the_program(rt: HostRuntime) -> Result<(), Fail> {
    for (call, is_sheet) in [(Call::Map, false), (Call::Draw, true)] {
        let text = native_text(rt.alloc(), is_sheet)?;
        same(&rt, text.len() > 500, true);
        let drawn = ended(rt.alloc(), call, &eight(LOADS, FILES), 100_000)?;
        writes(&rt, drawn, DONE, text.as_slice());
        let (status, front, needed) = ended(rt.alloc(), call, &eight(LOADS, FILES), 500)?;
        same(&rt, (status, needed), (SHORT_TEXT, text.len()));
        same(&rt, front.len(), 500);
        is_front(&rt, front.as_slice(), text.as_slice());
    }
    Ok(())
}

/// What a heap of 24 bytes begins with: a block of 8.
const HEAP: &[u8] =
    b"Heap\x00\x00\x00\x00\x18\x00\x00\x00\x20\x00\x00\x00\x08\x00\x00\x00\x00\x00\x00\x00\x00\x00\x00\x00\x00\x00\x00\x00";

/// A heap of 24 bytes without its last byte.
const CUT_HEAP: &[u8] =
    b"Heap\x00\x00\x00\x00\x18\x00\x00\x00\x20\x00\x00\x00\x08\x00\x00\x00\x00\x00\x00\x00\x00\x00\x00\x00\x00\x00\x00";

/// What is checked, as a heap or a slot: its bytes, how that ends, and the line that is written.
const IMAGES: [(u32, &[u8], u32, &[u8]); 4] = [
    (0, HEAP, DONE, b"ok 1 8 0 0 8\n"),
    (0, CUT_HEAP, SOME_BAD, b"bad BadDescriptor\n"),
    (1, HEAP, SOME_BAD, b"bad BadLength\n"),
    (2, HEAP, BAD_PAGES, b""),
];

/// Checks an image, with 40 bytes for the line.
fn checked<R: Abort>(rt: &R, kind: u32, image: &[u8], status: u32, line: &[u8]) {
    let mut text = [DIRT; 40];
    let mut needed = 0;
    same(rt, vf_check(kind, image, &mut text, &mut needed), status);
    same(rt, needed, line.len());
    begins(rt, &text, line);
}

#[test]
fn images_are_checked(rt: HostRuntime) {
    for (kind, image, status, line) in IMAGES {
        checked(&rt, kind, image, status, line);
    }
}

#[test]
fn a_line_is_cut_where_its_bytes_end(rt: HostRuntime) {
    let mut text = [DIRT; 3];
    let mut needed = 0;
    same(&rt, vf_check(0, HEAP, &mut text, &mut needed), SHORT_TEXT);
    same(&rt, (needed, text), (13, *b"ok "));
}
