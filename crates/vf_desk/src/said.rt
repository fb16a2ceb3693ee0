//! What a line is answered, and its text.
ghost use Rattle.std.specs.Prelude.{◌≡◌, ◌++◌, IfSome};
ghost use Rattle.rh_defs.specs.declared.fault.LineFault.TheVariants.{Word};
ghost use Rattle.rh_defs.specs.Desk.{Desk};
ghost use Rattle.rh_defs.specs.Order.{IsReordered};
ghost use Rattle.rh_defs.specs.Text.{fault_text};
ghost use Rattle.vf_desk.specs.Said.{said_text};

use rh_defs::{Data, Handle, LineFault, Question, Reply};
use rh_lines::{Pen, put_fault, put_first_line, put_handed_line, refused_line};
use rh_script::put_answer;
use rh_store::Store;
use rh_tasks::{NamedFiles, World};

/// What a line was answered. It takes no memory: the text of a long list is looked up when it is wanted.
#[derive(Drop)]
pub enum Said {
    /// Nothing: the line has no command, or there was no line yet.
    Nothing,
    /// What is wrong with the line.
    Fault(LineFault),
    /// The reply to a command.
    Reply(Reply),
    /// The reply to a command that handed out a message: its sender's handle, and its data.
    Handed {
        reply: Reply,
        from: Handle,
        data: Data,
    },
    /// What the desk answers to this question.
    Told(Question),
}

impl Said {
    /// The text of it, where it is one of a few that are the same whatever the desk is.
    #[tactic(auto, unfolding(rh_defs::specs::Text::first_line))]
    pub fn fixed_text(&self) -> Option<&'static [u8]>
        ensures { IfSome result (λ text. (d : Desk) → text.now ≡ said_text d self.now) }
    {
        match self {
            Said::Nothing => Some(b""),
            Said::Fault(fault) => fixed_fault(fault),
            Said::Reply(Reply::Done) => Some(b"ok\n"),
            Said::Reply(Reply::Refused(refusal)) => Some(refused_line(*refusal)),
            Said::Reply(Reply::NoEvent) => Some(b"ok 0\n"),
            Said::Reply(Reply::WasBudging(true)) => Some(b"ok on\n"),
            Said::Reply(Reply::WasBudging(false)) => Some(b"ok off\n"),
            _ => None,
        }
    }

    /// Writes the text of it over the desk after the line.
    pub fn put<S: Store, F: NamedFiles, P: Pen>(&self, world: &World<S, F>, pen: &mut P)
        ensures { (d : Desk) → IsReordered d world.now.desk →
            P.offered pen.new ≡ P.offered pen.old ++ said_text d self.now }
    {
        match self {
            Said::Nothing => {}
            Said::Fault(fault) => put_fault(fault, pen),
            Said::Reply(reply) => put_first_line(reply, pen),
            Said::Handed { reply, from, data } => {
                put_first_line(reply, pen);
                put_handed_line(*from, data.as_slice(), pen);
            }
            Said::Told(question) => put_answer(world, question, pen),
        }
    }
}

/// The text of what is wrong with a line, where it is one of a few.
#[tactic(auto, unfolding(rh_defs::specs::Text::fault_text))]
fn fixed_fault(fault: &LineFault) -> Option<&'static [u8]>
    ensures { IfSome result (λ text. text.now ≡ fault_text fault.now) }
{
    match fault {
        LineFault::TooLong => Some(b"bad TooLong\n"),
        LineFault::Unknown => Some(b"bad Unknown\n"),
        LineFault::Count => Some(b"bad Count\n"),
        LineFault::Word(n) => fixed_word_fault(*n),
        _ => None,
    }
}

/// The text of a fault in a word, where it is one of the first.
fn fixed_word_fault(n: u8) -> Option<&'static [u8]>
    ensures { IfSome result (λ text. text.now ≡ fault_text (Word n)) }
{
    match n {
        2 => Some(b"bad Word 2\n"),
        3 => Some(b"bad Word 3\n"),
        4 => Some(b"bad Word 4\n"),
        5 => Some(b"bad Word 5\n"),
        6 => Some(b"bad Word 6\n"),
        7 => Some(b"bad Word 7\n"),
        _ => None,
    }
}
