//! Which refusal a command is answered with.

ghost use Rattle.rh_defs.specs.Laws.{Always};
ghost use Rattle.rh_laws.specs.Conditions.{AnswersByTable, ChangesNothing, StandInOrder};

/// The conditions of each command stand in the one order of refusals. After any commands, a command is
/// refused by the first of its conditions that holds, and granted where none of them holds. One that is refused
/// changes nothing.
pub fn refusal_order_law()
    ensures order { StandInOrder }
    ensures answers { Always AnswersByTable }
    ensures unchanged { ChangesNothing }
{}
