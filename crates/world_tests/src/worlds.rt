//! Rows over a world: commands that are done, and what the world tells of itself.

use crate::answer::{shown, tell};
use crate::row::Row;
use crate::{lists, replies, sights};
use rh_defs::sizes::GREATEST_NUMBER;
use rh_defs::{Anchor, Command, Name, Refusal, Reply};
use rh_lines::parse_line;
use rh_store::Store;
use rh_tasks::{NamedFiles, World};
use std::alloc::Global;
use std::io;

/// The most bytes that a row puts at once.
const MOST: usize = 600;

/// Makes the calls of the rows.
pub(crate) fn rows<R: Print + AllocGlobal, S: Store, F: NamedFiles>(
    rt: &R,
    world: &mut World<S, F>,
    rows: &str,
) -> io::Result<()> {
    for line in rows.lines() {
        let answer = call(rt.alloc(), world, &Row::new(line));
        tell(rt, line, answer)?;
    }
    Ok(())
}

/// What the call of a row answers.
fn call<S: Store, F: NamedFiles>(
    alloc: Global,
    world: &mut World<S, F>,
    row: &Row<'_>,
) -> Option<String> {
    match row.word(0)? {
        "do" => shown(alloc, said(world, &command(row.rest()?)?)?),
        "put_sevens" => {
            let sevens = [7; MOST];
            let bytes = sevens.get(..row.size(3)?)?;
            shown(alloc, puts(world, &row.name(1)?, row.number(2)?, bytes)?)
        }
        "transfer" => transfer(alloc, world, row),
        "answer" => replies::answer(alloc, world, row.rest()?),
        "print" => replies::print(alloc, world, row),
        "recall_spelling" => {
            world.recall_spelling();
            shown(alloc, ())
        }
        word => ask(alloc, world, word, row),
    }
}

/// The command that a line spells.
pub(crate) fn command(line: &str) -> Option<Command> {
    parse_line(line.as_bytes()).ok()?
}

/// What a command answers that is in range.
pub(crate) fn said<S: Store, F: NamedFiles>(
    world: &mut World<S, F>,
    command: &Command,
) -> Option<Reply> {
    if !command.in_range() {
        return None;
    }
    Some(world.apply(command))
}

/// What `put` answers of bytes that it takes.
#[tactic(auto, unfolding(rh_defs::specs::Range::in_range))]
fn puts<S: Store, F: NamedFiles>(
    world: &mut World<S, F>,
    name: &Name,
    offset: u32,
    bytes: &[u8],
) -> Option<Result<Reply, Refusal>> {
    if !name.is_valid() {
        return None;
    }
    if bytes.is_empty() {
        return None;
    }
    if offset > GREATEST_NUMBER {
        return None;
    }
    Some(world.put(name, Anchor(0), offset, bytes))
}

/// Moves bytes from an address of one task's to an address of another's.
fn transfer<S: Store, F: NamedFiles>(
    alloc: Global,
    world: &mut World<S, F>,
    row: &Row<'_>,
) -> Option<String> {
    let (from, to) = (row.handle(1)?, row.handle(3)?);
    let (source, target, n) = (row.number(2)?, row.number(4)?, row.number(5)?);
    shown(alloc, world.transfer_block(from, source, to, target, n))
}

/// What the world is asked by a name or a place.
fn ask<S: Store, F: NamedFiles>(
    alloc: Global,
    world: &World<S, F>,
    word: &str,
    row: &Row<'_>,
) -> Option<String> {
    match word {
        "show" => show(alloc, world, row),
        "blocks" => shown(alloc, world.blocks(&row.name(1)?, row.size(2)?)),
        "status" => status(alloc, world, &row.name(1)?),
        "heap" => shown(alloc, world.heap(&row.name(1)?, row.number(2)?)),
        "areas" => shown(alloc, world.areas(row.size(1)?)),
        "area_entry" => shown(alloc, world.area_entry(row.size(1)?)),
        "blocks_of" => lists::blocks_of(alloc, world, &row.name(1)?),
        "segments_of" => lists::segments_of(alloc, world, &row.name(1)?, row.number(2)?),
        _ => sights::ask(alloc, world, word, row),
    }
}

/// What a task's status is.
fn status<S: Store, F: NamedFiles>(
    alloc: Global,
    world: &World<S, F>,
    name: &Name,
) -> Option<String> {
    let found = world.status(name);
    format!(in alloc; "{found:?}").ok()
}

/// So many bytes of a block from an offset on, read into bytes that are 1, and those after the call.
fn show<S: Store, F: NamedFiles>(
    alloc: Global,
    world: &World<S, F>,
    row: &Row<'_>,
) -> Option<String> {
    let (name, anchor, offset) = (row.name(1)?, row.anchor(2)?, row.number(3)?);
    if !anchor.is_valid() {
        return None;
    }
    let mut bytes = vec![in alloc; 1; row.size(4)?.min(MOST)].ok()?;
    let found = world.show(&name, anchor, offset, &mut bytes);
    format!(in alloc; "{found:?} {bytes:?}").ok()
}
