//! Faults that no machine gives when it is asked: an input without end, one that fails, files for which memory is
//! refused, and words that can't be had.

use crate::ends::{Trial, end_of};
use crate::same::same;
use arrayvec::ArrayVec;
use rh_desk::words_unread;
use rh_lines::Flagged;
use std::alloc::{Allocator, Global};
use std::fs::{File, Metadata, OpenOptions};
use std::io::{self, Read};
use std::process::Abort;
use std::rt;
use std::test::Fail;

/// A reader that gives a line feed a read, without end.
#[derive(Drop)]
struct Endless;

impl Read for Endless {
    fn read(&mut self, buf: &mut [u8]) -> io::Result<usize> {
        if buf.is_empty() {
            return Ok(0);
        }
        buf[0] = b'\n';
        Ok(1)
    }
}

/// A reader that fails.
#[derive(Drop)]
struct Broken;

impl Read for Broken {
    fn read(&mut self, _buf: &mut [u8]) -> io::Result<usize> {
        Err(io::Error::from(io::ErrorKind::Other))
    }
}

/// Files of which none can be had, for want of memory.
struct NoMemory;

/// The error of each call on them.
fn no_memory() -> io::Error {
    io::Error::from(io::ErrorKind::OutOfMemory)
}

impl rt::Files for NoMemory {
    type File = File;

    type Dir = Broken;

    fn open_file(&self, _how: &OpenOptions, _path: &str) -> io::Result<File> {
        Err(no_memory())
    }

    fn open_dir(&self, _path: &str) -> io::Result<Broken> {
        Err(no_memory())
    }

    fn metadata(&self, _path: &str) -> io::Result<Metadata> {
        Err(no_memory())
    }

    fn symlink_metadata(&self, _path: &str) -> io::Result<Metadata> {
        Err(no_memory())
    }

    fn copy(&self, _from: &str, _to: &str) -> io::Result<u64> {
        Err(no_memory())
    }

    fn rename(&self, _from: &str, _to: &str) -> io::Result<()> {
        Err(no_memory())
    }

    fn remove_file(&self, _path: &str) -> io::Result<()> {
        Err(no_memory())
    }

    fn create_dir(&self, _path: &str) -> io::Result<()> {
        Err(no_memory())
    }

    fn remove_dir(&self, _path: &str) -> io::Result<()> {
        Err(no_memory())
    }

    fn remove_dir_all<B: Allocator>(&self, _alloc: B, _path: &str) -> io::Result<()> {
        Err(no_memory())
    }
}

/// What is told where memory is refused.
const NO_MEMORY: &str = "rh_desk: no memory\n";

#[test]
fn want_of_memory_for_a_file_is_told(rt: HostRuntime) -> Result<(), Fail> {
    for words in [
        ["run", "a.desk"].as_slice(),
        ["run", "-", "a=a.bin"].as_slice(),
        ["check", "a.bin"].as_slice(),
        ["check", "--slot", "a.bin"].as_slice(),
    ] {
        let trial = Trial::new(words, "", NO_MEMORY, 3);
        let all = trial.all_words(rt.alloc())?;
        let input = b"areas\n".as_slice();
        trial.meets(&rt, &end_of(&NoMemory, rt.alloc(), all.as_slice(), input));
    }
    Ok(())
}

/// Runs the program with these words on an input, and compares what it tells.
fn is_told<R: Abort + rt::Files, I: Read + Drop>(
    rt: &R,
    alloc: Global,
    words: &[&str],
    input: I,
    told: &str,
) -> Result<(), Fail> {
    let trial = Trial::new(words, "", told, 3);
    let all = trial.all_words(alloc)?;
    trial.meets(rt, &end_of(rt, alloc, all.as_slice(), input));
    Ok(())
}

#[test]
fn a_script_without_end_is_told(rt: HostRuntime) -> Result<(), Fail> {
    let told = "rh_desk: script too long\n";
    is_told(&rt, rt.alloc(), &[], Endless, told)?;
    is_told(&rt, rt.alloc(), &["run", "-"], Endless, told)
}

#[test]
fn an_input_that_fails_is_told(rt: HostRuntime) -> Result<(), Fail> {
    let told = "rh_desk: read failed\n";
    is_told(&rt, rt.alloc(), &[], Broken, told)?;
    is_told(&rt, rt.alloc(), &["run", "-"], Broken, told)
}

#[test]
fn words_that_are_not_text_are_told(rt: HostRuntime) {
    let mut errors = Flagged::new(ArrayVec::<u8, 64>::new());
    let odd = io::Error::from(io::ErrorKind::InvalidData);
    same(&rt, words_unread(&odd, &mut errors), 2);
    let none = io::Error::from(io::ErrorKind::OutOfMemory);
    same(&rt, words_unread(&none, &mut errors), 3);
    let told = b"rh_desk: a word is not text\nrh_desk: no memory\n";
    same(&rt, errors.into_inner().as_slice(), told.as_slice());
}
