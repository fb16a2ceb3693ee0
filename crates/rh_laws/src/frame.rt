//! What a command leaves of the tasks that it isn't of.

ghost use Rattle.rh_defs.specs.Desk.{Desk};
ghost use Rattle.rh_defs.specs.Laws.{Always};
ghost use Rattle.rh_laws.specs.Frame.{KeepsBlocks, LeavesOthers, MovesFit, PollsFill, ReachesOpened, SendsAlone};

/// A command by which no task polls leaves every task but its own as it was; a transfer moves bytes to a place that the
/// other task opened. After any commands a poll changes of another task at most the first bytes of one buffer, which
/// that task holds for a transfer from the one that polls, or of a range in a block, where it has code of its own.
/// No flex block changes but by its own task's commands and polls, or where bytes are moved so. What a task with code
/// of its own sends, answers and spools changes no slot and no record, and its polls change no task. It changes another
/// task by moving bytes alone, to a place that this one opened to it.
pub fn frame_law()
    ensures others { LeavesOthers }
    ensures moves { MovesFit }
    ensures opened { ReachesOpened }
    ensures polls { Always PollsFill }
    ensures blocks { Always KeepsBlocks }
    ensures sends { (d : Desk) → SendsAlone d }
{}
