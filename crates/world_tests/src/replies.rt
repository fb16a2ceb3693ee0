//! Replies that are printed over a world.

use crate::answer::shown;
use crate::row::Row;
use crate::worlds::{command, said};
use rh_defs::{Command, Numbers, Question, Refusal, Reply};
use rh_lines::WholeText;
use rh_script::{print_answer, print_reply};
use rh_store::Store;
use rh_tasks::{NamedFiles, World};
use std::alloc::Global;

/// More bytes than any of these replies has.
const MOST_BYTES: usize = 65_536;

/// The text of the answer to a question, which is that of its reply too; none where these differ.
pub(crate) fn answer<S: Store, F: NamedFiles>(
    alloc: Global,
    world: &mut World<S, F>,
    line: &str,
) -> Option<String> {
    let command = command(line)?;
    let answered = printed_answer(alloc, world, &command)?;
    let reply = said(world, &command)?;
    if printed_reply(alloc, world, &command, &reply)? != answered {
        return None;
    }
    Some(answered)
}

/// The text of a reply that the desk doesn't give to a question.
pub(crate) fn print<S: Store, F: NamedFiles>(
    alloc: Global,
    world: &World<S, F>,
    row: &Row<'_>,
) -> Option<String> {
    let reply = match row.word(1)? {
        "count" => Reply::Answered(Numbers::BlockCount(7)),
        "refused" => Reply::Refused(Refusal::NoBlock),
        "done" => Reply::Done,
        _ => return None,
    };
    let name = row.name(3)?;
    let question = match row.word(2)? {
        "blocks" => Question::Blocks { name },
        "show" => Question::Show {
            name,
            anchor: row.anchor(4)?,
        },
        _ => return None,
    };
    printed_reply(alloc, world, &Command::Ask(question), &reply)
}

fn printed_answer<S: Store, F: NamedFiles>(
    alloc: Global,
    world: &World<S, F>,
    command: &Command,
) -> Option<String> {
    let Command::Ask(question) = command else {
        return None;
    };
    let mut bytes = [0; MOST_BYTES];
    let mut text = WholeText::new(&mut bytes);
    print_answer(world, question, &mut text).ok()?;
    let length = text.length();
    quoted(alloc, bytes.get(..length)?)
}

fn printed_reply<S: Store, F: NamedFiles>(
    alloc: Global,
    world: &World<S, F>,
    command: &Command,
    reply: &Reply,
) -> Option<String> {
    let mut bytes = [0; MOST_BYTES];
    let mut text = WholeText::new(&mut bytes);
    print_reply(world, command, reply, &mut text).ok()?;
    let length = text.length();
    quoted(alloc, bytes.get(..length)?)
}

/// What was printed, in quotes.
fn quoted(alloc: Global, text: &[u8]) -> Option<String> {
    shown(alloc, str::from_utf8(text).ok()?)
}
