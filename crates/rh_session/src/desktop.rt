//! What a script is run over.

ghost use Rattle.std.specs.Prelude.{◌≡◌, IsTrue, find};
ghost use Rattle.std.specs.Option.{option_map};
ghost use Rattle.rh_defs.specs.Desk.{Desk, has_name};
ghost use Rattle.rh_defs.specs.Questions.{asked};
ghost use Rattle.rh_defs.specs.Range.{in_range};
ghost use Rattle.rh_defs.specs.Commands.{step};
ghost use Rattle.rh_defs.specs.RawTasks.{handed_parts, is_raw_task};
ghost use Rattle.rh_defs.specs.Text.{answer_text, taken_of};
ghost use Rattle.rh_session.specs.Taken.{Gives};

use rh_defs::{Command, Data, Handle, Name, Question, Reply};
use rh_lines::Pen;

/// What applies commands and answers questions.
pub trait Desktop: Drop {
    // The desks that this may be seen as: one, up to what no reply shows.
    ghost spells: { Self → Desk → Type 0 };

    /// Applies a command that is in range, and answers its reply.
    fn apply(&mut self, command: &Command) -> Reply
        requires in_range { IsTrue (in_range command.now) }
        ensures reply { (d : Desk) → spells self.old d → result ≡ (step d command.now).1 }
        ensures desk { (d : Desk) → spells self.old d → spells self.new (step d command.now).0 };

    /// Whether the task with the name has code of its own. Where it hasn't, a poll of it hands out nothing.
    fn is_raw(&self, name: &Name) -> bool
        ensures { (d : Desk) → spells self.now d → result ≡ is_raw_task (find (has_name name.now) d.tasks) };

    /// What a command would hand to a task with code of its own now: the sender's handle, and the message's data. None
    /// where it would hand out nothing.
    fn handed(&self, command: &Command) -> Option<(Handle, Data)>
        ensures { (d : Desk) → spells self.now d → result ≡ option_map handed_parts (taken_of d command.now) };

    /// Writes what is answered to a question, all its lines, or why it is refused.
    fn put_answer<P: Pen>(&self, question: &Question, pen: &mut P)
        ensures { Gives (λ text. (d : Desk) → spells self.now d → text ≡ answer_text (asked d question.now))
            (P.offered pen.old) (P.offered pen.new) };
}
