//! Rows about a table of four places.

use crate::answer::{shown, tell};
use crate::row::Row;
use rh_wimp::Table;
use std::alloc::Global;
use std::io;

/// The places of the table.
const PLACES: usize = 4;

/// Makes the calls of the rows on an empty table.
pub(crate) fn rows<R: Print + AllocGlobal>(rt: &R, rows: &str) -> io::Result<()> {
    let mut numbers = Table::new();
    for line in rows.lines() {
        let answer = call(rt.alloc(), &mut numbers, &Row::new(line));
        tell(rt, line, answer)?;
    }
    Ok(())
}

/// What the call of a row answers, none where the place isn't there.
fn call(alloc: Global, numbers: &mut Table<u32, PLACES>, row: &Row<'_>) -> Option<String> {
    match row.word(0)? {
        "push" => shown(alloc, push(numbers, row.number(1)?)?),
        "remove" => shown(alloc, remove(numbers, row.size(1)?)?),
        "write" => shown(alloc, write(numbers, row.size(1)?, row.number(2)?)?),
        "add_one" => shown(alloc, add_one(numbers, row.size(1)?)?),
        "read" => shown(alloc, read(numbers, row.size(1)?)?),
        _ => ask(alloc, numbers, row),
    }
}

/// What a question about all numbers answers.
fn ask(alloc: Global, numbers: &Table<u32, PLACES>, row: &Row<'_>) -> Option<String> {
    match row.word(0)? {
        "len" => shown(alloc, numbers.len()),
        "all" => shown(alloc, numbers.as_slice()),
        "position" => {
            let wanted = row.number(1)?;
            shown(alloc, numbers.iter().position(|number| *number == wanted))
        }
        "any" => {
            let wanted = row.number(1)?;
            shown(alloc, numbers.iter().any(|number| *number == wanted))
        }
        "in_turn" => in_turn(alloc, numbers),
        _ => None,
    }
}

fn push(numbers: &mut Table<u32, PLACES>, number: u32) -> Option<()> {
    if numbers.len() >= PLACES {
        return None;
    }
    numbers.push(number);
    Some(())
}

fn remove(numbers: &mut Table<u32, PLACES>, at: usize) -> Option<u32> {
    if at >= numbers.len() {
        return None;
    }
    Some(numbers.remove(at))
}

fn write(numbers: &mut Table<u32, PLACES>, at: usize, number: u32) -> Option<()> {
    if at >= numbers.len() {
        return None;
    }
    numbers[at] = number;
    Some(())
}

fn add_one(numbers: &mut Table<u32, PLACES>, at: usize) -> Option<()> {
    if at >= numbers.len() {
        return None;
    }
    let number = &mut numbers[at];
    *number = number.wrapping_add(1);
    Some(())
}

fn read(numbers: &Table<u32, PLACES>, at: usize) -> Option<u32> {
    if at >= numbers.len() {
        return None;
    }
    Some(numbers[at])
}

/// The numbers one after the other, as a loop has them.
fn in_turn(alloc: Global, numbers: &Table<u32, PLACES>) -> Option<String> {
    let mut seen = String::new(alloc);
    for number in numbers {
        let word = format!(in alloc; " {number}").ok()?;
        seen.push_str(&word).ok()?;
    }
    Some(seen)
}
