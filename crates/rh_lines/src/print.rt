//! Bad lines, and the first lines of replies, as text.

ghost use Rattle.std.specs.Prelude.{◌≡◌, ◌≤◌, ◌++◌, ◌∷◌, [], ◌+◌, codes, length, map};
ghost use Rattle.std.specs.Fmt.{decimal};
ghost use Rattle.rh_defs.specs.Questions.{Nothing, each_of};
ghost use Rattle.rh_defs.specs.declared.question.TheConstants.{MOST_NUMBERS};
ghost use Rattle.rh_defs.specs.Messages.{code_number};
ghost use Rattle.rh_defs.specs.Text.{address, ok, action_name, fault_text, first_line, outcome_words, refusal_name};
ghost use Rattle.rh_defs.specs.Text.{hex_words, later, rest_of_line};
ghost use Rattle.rh_defs.specs.declared.sizes.TheConstants.{LONGEST_DATA};
ghost use Rattle.hex.specs.Hex.{encode_lower};
ghost use Rattle.rh_lines.specs.Flow.{Puts};
ghost use Rattle.rh_lines.specs.declared.row.TheConstants.{ROW};

use crate::hexadecimal::put_hex_number;
use crate::pen::Pen;
use crate::row::Row;
use crate::sink::{Sink, WriteFailed};
use crate::suffix::Suffix;
use crate::writer_pen::WriterPen;
use rh_defs::sizes::LONGEST_DATA;
use rh_defs::{Action, EventCode, Handle, LineFault, Numbers, Outcome, Ref, Refusal, Reply};

/// The line of a refused command has so many bytes before the refusal's name.
const REFUSED: usize = 8;

/// Writes the reply of a bad line, `bad FAULT`. Fails only where the writer failed or took none
/// of what it was offered; a front of the text is then written.
pub fn print_fault<W: Sink>(fault: &LineFault, writer: &mut W) -> Result<(), WriteFailed>
    ensures { Puts (W.output writer.old) (W.output writer.new) result (fault_text fault.now) }
{
    let mut pen = WriterPen::new(writer, &mut []);
    put_fault(fault, &mut pen);
    pen.finish()
}

/// Writes the reply of a bad line, `bad FAULT`.
#[tactic(auto, unfolding(rh_defs::specs::Text::fault_text))]
pub fn put_fault<P: Pen>(fault: &LineFault, pen: &mut P)
    ensures { P.offered pen.new ≡ P.offered pen.old ++ fault_text fault.now }
{
    match fault {
        LineFault::TooLong => pen.put(b"bad TooLong\n"),
        LineFault::Unended => pen.put(b"bad Unended\n"),
        LineFault::Unknown => pen.put(b"bad Unknown\n"),
        LineFault::Count => pen.put(b"bad Count\n"),
        LineFault::Word(n) => {
            let mut row = Row::new();
            row.text(b"bad Word ");
            row.decimal(u32::from(*n));
            row.byte(b'\n');
            pen.put(row.as_slice());
        }
    }
}

/// Writes the first line of a reply, without the bytes that a block shows. Fails only where the writer failed or took
/// none of what it was offered; a front of the line is then written.
pub fn print_first_line<W: Sink>(reply: &Reply, writer: &mut W) -> Result<(), WriteFailed>
    ensures { Puts (W.output writer.old) (W.output writer.new) result (first_line reply.now Nothing) }
{
    let mut pen = WriterPen::new(writer, &mut []);
    put_first_line(reply, &mut pen);
    pen.finish()
}

/// Writes the first line of a reply, without the bytes that a block shows.
#[tactic(auto, unfolding(rh_defs::specs::Text::first_line))]
pub fn put_first_line<P: Pen>(reply: &Reply, pen: &mut P)
    ensures { P.offered pen.new ≡ P.offered pen.old ++ first_line reply.now Nothing }
{
    match reply {
        Reply::Refused(refusal) => pen.put(refused_line(*refusal)),
        Reply::Done => pen.put(b"ok\n"),
        Reply::Block { address } => print_address(*address, pen),
        Reply::WasBudging(true) => pen.put(b"ok on\n"),
        Reply::WasBudging(false) => pen.put(b"ok off\n"),
        Reply::Answered(numbers) => print_numbers(numbers, pen),
        Reply::NoEvent => pen.put(b"ok 0\n"),
        Reply::Event {
            code,
            action,
            my_ref,
            your_ref,
            outcome,
        } => print_event(*code, *action, *my_ref, *your_ref, outcome, pen),
        Reply::Started(handle) => print_number(handle.0, pen),
        Reply::Sent(number) => print_number(number.0, pen),
        Reply::Answering(number) => print_number(number.0, pen),
        Reply::Moved { bytes: number } | Reply::Made { number } => print_number(*number, pen),
    }
}

fn print_number<P: Pen>(number: u32, pen: &mut P)
    ensures { P.offered pen.new ≡ P.offered pen.old ++ ok (decimal number ∷ []) }
{
    let mut row = Row::new();
    add_number(number, &mut row);
    pen.put(row.as_slice());
}

/// Adds the first line of a reply that is one number.
pub fn add_number(number: u32, row: &mut Row)
    requires { length row.old + 15 ≤ ROW }
    ensures { row.new ≡ row.old ++ ok (decimal number ∷ []) }
{
    row.text(b"ok ");
    row.decimal(number);
    row.byte(b'\n');
}

#[tactic(auto, unfolding(rh_defs::specs::Text::address))]
fn print_address<P: Pen>(number: u32, pen: &mut P)
    ensures { P.offered pen.new ≡ P.offered pen.old ++ ok (address number ∷ []) }
{
    let mut line = Suffix::new();
    line.byte(b'\n');
    put_hex_number(number, &mut line);
    line.byte(b'&');
    line.byte(b' ');
    line.byte(b'k');
    line.byte(b'o');
    pen.put(line.as_slice());
}

/// The first line of an answer.
fn print_numbers<P: Pen>(numbers: &Numbers, pen: &mut P)
    ensures { P.offered pen.new ≡ P.offered pen.old ++ ok (map decimal (each_of numbers.now)) }
{
    let mut row = Row::new();
    row.text(b"ok");
    add_numbers(&numbers.each(), &mut row);
    pen.put(row.as_slice());
}

/// Ends the line with these numbers.
fn add_numbers(numbers: &[u32], row: &mut Row)
    requires few { length numbers.now ≤ MOST_NUMBERS }
    requires room { length row.old ≤ 2 }
    ensures { row.new ≡ row.old ++ rest_of_line (map decimal numbers.now) }
{
    for number in numbers {
        row.byte(b' ');
        row.decimal(*number);
    }
    row.byte(b'\n');
}

/// What a poll took, and what it did with it.
fn print_event<P: Pen>(
    code: EventCode,
    action: Action,
    my_ref: Ref,
    your_ref: Ref,
    outcome: &Outcome,
    pen: &mut P,
)
    ensures { P.offered pen.new ≡ P.offered pen.old
        ++ ok (decimal (code_number code) ∷ action_name action ∷ decimal my_ref ∷ decimal your_ref
        ∷ outcome_words outcome.now) }
{
    let mut row = Row::new();
    add_code(code, &mut row);
    add_action(action, &mut row);
    row.decimal(my_ref.0);
    row.byte(b' ');
    row.decimal(your_ref.0);
    add_outcome(outcome, &mut row);
    pen.put(row.as_slice());
}

/// Ends the line with the words of an outcome.
fn add_outcome(outcome: &Outcome, row: &mut Row)
    requires { length row.old ≤ 50 }
    ensures { row.new ≡ row.old ++ rest_of_line (outcome_words outcome.now) }
{
    match outcome {
        Outcome::Ignored => row.text(b" ignored\n"),
        Outcome::Failed => row.text(b" failed\n"),
        Outcome::Drained => row.text(b" drained\n"),
        Outcome::Done => row.text(b" done\n"),
        Outcome::Taken => row.text(b" taken\n"),
        Outcome::Refused(refusal) => add_failed(*refusal, row),
        Outcome::Fetch(fetch) => add_ref(b" fetch ", *fetch, row),
        Outcome::Asked(ack) => add_ref(b" asked ", *ack, row),
        Outcome::Sent { count, transmit } => {
            add_count(b" sent ", *count, row);
            add_ref(b" ", *transmit, row);
        }
        Outcome::Saved { count, load } => {
            add_count(b" saved ", *count, row);
            add_ref(b" ", *load, row);
        }
        Outcome::TookFull { count, fetch } => {
            add_count(b" took ", *count, row);
            add_ref(b" fetch ", *fetch, row);
        }
        Outcome::TookLast { count } => {
            add_count(b" took ", *count, row);
            row.text(b" done\n");
        }
        Outcome::Loaded { count } => {
            add_count(b" loaded ", *count, row);
            row.text(b" done\n");
        }
        Outcome::TookFailed { count, refusal } => {
            add_count(b" took ", *count, row);
            add_failed(*refusal, row);
        }
        Outcome::LoadedFailed { count, refusal } => {
            add_count(b" loaded ", *count, row);
            add_failed(*refusal, row);
        }
    }
}

fn add_count(word: &[u8], count: u32, row: &mut Row)
    requires short { length word.now ≤ 8 }
    requires room { length row.old ≤ 50 }
    ensures value { row.new ≡ row.old ++ (word.now ++ decimal count) }
    ensures few { length row.new ≤ length row.old + 19 }
{
    row.text(word);
    row.decimal(count);
}

fn add_ref(word: &[u8], number: Ref, row: &mut Row)
    requires short { length word.now ≤ 8 }
    requires room { length row.old ≤ 70 }
    ensures { row.new ≡ row.old ++ (word.now ++ (decimal number ++ codes "\n")) }
{
    row.text(word);
    row.decimal(number.0);
    row.byte(b'\n');
}

fn add_failed(refusal: Refusal, row: &mut Row)
    requires { length row.old ≤ 70 }
    ensures { row.new ≡ row.old ++ (codes " failed " ++ (refusal_name refusal ++ codes "\n")) }
{
    row.text(b" failed ");
    row.text(refusal_name(refusal));
    row.byte(b'\n');
}

/// Begins the line of a message with its event code.
fn add_code(code: EventCode, row: &mut Row)
    requires { length row.old ≤ 50 }
    ensures value { row.new ≡ row.old ++ (codes "ok " ++ (decimal (code_number code) ++ codes " ")) }
    ensures few { length row.new ≤ length row.old + 6 }
{
    match code {
        EventCode::User => row.text(b"ok 17 "),
        EventCode::Recorded => row.text(b"ok 18 "),
        EventCode::Acknowledge => row.text(b"ok 19 "),
    }
}

/// Writes the line about a message that a task with code of its own is handed: its sender's handle, and its data in
/// hexadecimal digits, where it has data.
pub fn put_handed_line<P: Pen>(from: Handle, bytes: &[u8], pen: &mut P)
    requires { length bytes.now ≤ LONGEST_DATA }
    ensures { P.offered pen.new ≡ P.offered pen.old ++ later (codes "from") (decimal from ∷ hex_words bytes.now) }
{
    let mut row = Row::new();
    row.text(b"  from ");
    row.decimal(from.0);
    pen.put(row.as_slice());
    end_with(bytes, pen);
}

/// Ends a line with some bytes, behind a space where there are any.
fn end_with<P: Pen>(bytes: &[u8], pen: &mut P)
    requires { length bytes.now ≤ LONGEST_DATA }
    ensures { P.offered pen.new ≡ P.offered pen.old ++ rest_of_line (hex_words bytes.now) }
{
    if bytes.is_empty() {
        return pen.put(b"\n");
    }
    pen.put(b" ");
    put_hex_digits(bytes, pen);
    pen.put(b"\n");
}

/// Writes the hexadecimal digits of the data of a message.
fn put_hex_digits<P: Pen>(bytes: &[u8], pen: &mut P)
    requires { length bytes.now ≤ LONGEST_DATA }
    ensures { P.offered pen.new ≡ P.offered pen.old ++ encode_lower bytes.now }
{
    let mut digits = [0; 2 * LONGEST_DATA];
    let text = &mut digits[..2 * bytes.len()];
    hex::encode_to_slice(bytes, &mut *text).unwrap();
    pen.put(text);
}

/// Adds the name of an action, or its number where it has none, and a space.
fn add_action(action: Action, row: &mut Row)
    requires { length row.old ≤ 50 }
    ensures value { row.new ≡ row.old ++ (action_name action ++ codes " ") }
    ensures few { length row.new ≤ length row.old + 12 }
{
    match action {
        Action::DataSave => row.text(b"DataSave "),
        Action::DataSaveAck => row.text(b"DataSaveAck "),
        Action::DataLoad => row.text(b"DataLoad "),
        Action::DataLoadAck => row.text(b"DataLoadAck "),
        Action::RamFetch => row.text(b"RAMFetch "),
        Action::RamTransmit => row.text(b"RAMTransmit "),
        Action::Other(n) => {
            row.decimal(n);
            row.byte(b' ');
        }
    }
}

/// The name of a refusal.
pub fn refusal_name(refusal: Refusal) -> &'static [u8]
    ensures value { result.now ≡ refusal_name refusal }
    ensures short { length result.now ≤ 15 }
{
    let line = refused_line(refusal);
    &line[REFUSED..line.len() - 1]
}

/// The line that says that a command is refused, `refused REFUSAL`.
pub fn refused_line(refusal: Refusal) -> &'static [u8]
    ensures value { result.now ≡ codes "refused " ++ (refusal_name refusal ++ codes "\n") }
    ensures short { length (refusal_name refusal) ≤ 15 }
{
    match refusal {
        Refusal::NameInUse => b"refused NameInUse\n",
        Refusal::NoName => b"refused NoName\n",
        Refusal::TooManyTasks => b"refused TooManyTasks\n",
        Refusal::NoHandles => b"refused NoHandles\n",
        Refusal::NoFile => b"refused NoFile\n",
        Refusal::NoBlock => b"refused NoBlock\n",
        Refusal::AnchorInUse => b"refused AnchorInUse\n",
        Refusal::NotABlock => b"refused NotABlock\n",
        Refusal::NotYours => b"refused NotYours\n",
        Refusal::Busy => b"refused Busy\n",
        Refusal::NotOpen => b"refused NotOpen\n",
        Refusal::NothingSent => b"refused NothingSent\n",
        Refusal::BadRange => b"refused BadRange\n",
        Refusal::BadSize => b"refused BadSize\n",
        Refusal::ExcessiveShrink => b"refused ExcessiveShrink\n",
        Refusal::NoTask => b"refused NoTask\n",
        Refusal::NoRefs => b"refused NoRefs\n",
        Refusal::QueueFull => b"refused QueueFull\n",
        Refusal::NoBudge => b"refused NoBudge\n",
        Refusal::NoRoom => b"refused NoRoom\n",
        Refusal::NoArea => b"refused NoArea\n",
        Refusal::TooManyAreas => b"refused TooManyAreas\n",
        Refusal::NoNumbers => b"refused NoNumbers\n",
        Refusal::TooBig => b"refused TooBig\n",
        Refusal::WrongManner => b"refused WrongManner\n",
        Refusal::BadRef => b"refused BadRef\n",
    }
}
