//! The first lines of a reply, and how many lines it has.

ghost use Rattle.std.specs.Prelude.{◌≡◌, ◌≤◌, ◌++◌, IfSome, IsTrue, length};
ghost use Rattle.rh_defs.specs.declared.sizes.TheConstants.{LONGEST_DATA};
ghost use Rattle.rh_defs.specs.Questions.{Nothing, asked};
ghost use Rattle.rh_defs.specs.Range.{can_be_asked};
ghost use Rattle.rh_defs.specs.Text.{answer_text, fault_text, first_line, handed_text};
ghost use Rattle.rh_pictures.specs.DrawnReplies.{Excerpts};
ghost use Rattle.rh_pictures.specs.Inner.SmallTasks.{AreSmall};
ghost use Rattle.rh_map.specs.Replies.{front_of};

use crate::drawn::Drawn;
use rh_defs::{Data, Handle, LineFault, Question, Reply};
use rh_lines::{put_fault, put_first_line, put_handed_line};
use rh_map::Front;
use rh_scene::Sight;

/// Puts the answer to a question in place of what was there, and answers how many lines it has.
pub fn excerpt_answer<D: Drawn>(drawn: &D, question: &Question, front: &mut Front) -> u32
    requires { IsTrue (can_be_asked question.now) }
    ensures { Excerpts (front_of front.new) result (answer_text (asked (D.desk drawn.now) question.now)) }
{
    drawn.recall_desk();
    look_over(drawn);
    front.clear();
    drawn.put_answer(question, front);
    front.lines()
}

/// Puts the first line of a reply, and that of a message that is handed out, in place of what was there, and answers
/// how many lines these are.
pub fn excerpt_reply(reply: &Reply, handed: &Option<(Handle, Data)>, front: &mut Front) -> u32
    ensures { Excerpts (front_of front.new) result (first_line reply.now Nothing ++ handed_text handed.now) }
{
    front.clear();
    put_first_line(reply, front);
    put_handed(handed, front);
    front.lines()
}

/// Appends the line of a message that is handed out, where there is one.
fn put_handed(handed: &Option<(Handle, Data)>, front: &mut Front)
    ensures text { front.new ≡ front.old ++ handed_text handed.now }
    ensures short { IfSome handed.now (λ parts. length parts.1 ≤ LONGEST_DATA) }
{
    match handed {
        Some(parts) => put_handed_line(parts.0, parts.1.as_slice(), front),
        None => {}
    }
}

/// Puts the reply of a bad line in place of what was there, and answers how many lines it has.
pub fn excerpt_fault(fault: &LineFault, front: &mut Front) -> u32
    ensures { Excerpts (front_of front.new) result (fault_text fault.now) }
{
    front.clear();
    put_fault(fault, front);
    front.lines()
}

/// Looks at each task: no name is long, and there are few records, so that an answer has few lines.
fn look_over<S: Sight>(sight: &S)
    ensures { AreSmall (S.desk sight.now).tasks }
{
    let mut i = 0;
    'tasks: while let Some(task) = sight.task(i) {
        let _name = task.name.as_bytes();
        i += 1;
    }
}
