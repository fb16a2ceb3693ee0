//! Replies as text.

ghost use Rattle.std.specs.Prelude.{◌≡◌, ◌++◌, true, if◌then◌else◌};
ghost use Rattle.rh_defs.specs.Questions.{Nothing, asked, begins, is_same as is_same_as};
ghost use Rattle.rh_defs.specs.Range.{can_be_asked};
ghost use Rattle.rh_defs.specs.Text.{answer_text, first_line, reply_text};
ghost use Rattle.rh_lines.specs.Flow.{Puts};

use crate::held::print_read;
use crate::listed::{print_areas, print_blocks};
use crate::records::print_status;
use crate::segments::print_heap;
use crate::shown::print_shown;
use rh_defs::{Command, Numbers, Question, Reply};
use rh_lines::{Pen, Sink, WriteFailed, WriterPen, put_first_line};
use rh_store::Store;
use rh_tasks::{NamedFiles, World};

/// Writes the reply to a command that was just applied, all its lines, over the desk after it. Only a reply that is
/// what the desk answers to a question has more than one. Fails only where the writer failed or took none of what it
/// was offered; a front of the text is then written.
pub fn print_reply<S: Store, F: NamedFiles, W: Sink>(
    world: &World<S, F>,
    command: &Command,
    reply: &Reply,
    writer: &mut W,
) -> Result<(), WriteFailed>
    ensures { Puts (W.output writer.old) (W.output writer.new) result
        (reply_text world.now.desk command.now reply.now) }
{
    let mut pen = WriterPen::new(writer, &mut []);
    put_reply(world, command, reply, &mut pen);
    pen.finish()
}

/// Writes the reply to a command that was just applied, all its lines, over the desk after it. Only a reply that is
/// what the desk answers to a question has more than one.
pub fn put_reply<S: Store, F: NamedFiles, P: Pen>(
    world: &World<S, F>,
    command: &Command,
    reply: &Reply,
    pen: &mut P,
)
    ensures { P.offered pen.new ≡ P.offered pen.old ++ reply_text world.now.desk command.now reply.now }
{
    if !command.in_range() {
        return put_first_line(reply, pen);
    }
    match command {
        Command::Ask(question) => print_asked(world, question, reply, pen),
        _ => put_first_line(reply, pen),
    }
}

/// Writes the reply to a question: with all that the desk answers, where the reply is the first line of that.
fn print_asked<S: Store, F: NamedFiles, P: Pen>(
    world: &World<S, F>,
    question: &Question,
    reply: &Reply,
    pen: &mut P,
)
    requires { can_be_asked question.now ≡ true }
    ensures { P.offered pen.new ≡ P.offered pen.old
        ++ (if begins (asked world.now.desk question.now) reply.now then answer_text (asked world.now.desk question.now)
        else first_line reply.now Nothing) }
{
    if answers(world, question, reply) {
        put_answer(world, question, pen)
    } else {
        put_first_line(reply, pen)
    }
}

/// Whether the reply has the numbers of what the desk answers.
fn answers<S: Store, F: NamedFiles>(world: &World<S, F>, question: &Question, reply: &Reply) -> bool
    requires { can_be_asked question.now ≡ true }
    ensures { result ≡ begins (asked world.now.desk question.now) reply.now }
{
    match (world.answer_question(question), reply) {
        (Ok(first), Reply::Answered(numbers)) => is_same(&first, numbers),
        _ => false,
    }
}

/// Whether two first lines of answers have the same numbers.
fn is_same(first: &Numbers, other: &Numbers) -> bool
    ensures { result ≡ is_same_as first.now other.now }
{
    first == other
}

/// Writes what the desk answers to a question, all its lines, or why it is refused. Fails only where the writer failed
/// or took none of what it was offered; a front of the text is then written.
pub fn print_answer<S: Store, F: NamedFiles, W: Sink>(
    world: &World<S, F>,
    question: &Question,
    writer: &mut W,
) -> Result<(), WriteFailed>
    ensures { Puts (W.output writer.old) (W.output writer.new) result
        (answer_text (asked world.now.desk question.now)) }
{
    let mut pen = WriterPen::new(writer, &mut []);
    put_answer(world, question, &mut pen);
    pen.finish()
}

/// Writes what the desk answers to a question, all its lines, or why it is refused.
pub fn put_answer<S: Store, F: NamedFiles, P: Pen>(
    world: &World<S, F>,
    question: &Question,
    pen: &mut P,
)
    ensures { P.offered pen.new ≡ P.offered pen.old ++ answer_text (asked world.now.desk question.now) }
{
    match question {
        Question::Show { name, anchor } => print_shown(world, name, *anchor, pen),
        Question::Read {
            name,
            address,
            size,
        } => print_read(world, name, *address, *size, pen),
        Question::Blocks { name } => print_blocks(world, name, pen),
        Question::Heap { name } => print_heap(world, name, pen),
        Question::Status { name } => print_status(world, name, pen),
        Question::Areas => print_areas(world, pen),
    }
}
