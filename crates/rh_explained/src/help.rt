//! The help of a command of a script.

ghost use Rattle.std.specs.Prelude.{◌≡◌, ◌++◌, flat_map};
ghost use Rattle.rh_explained.specs.Help.{command_help, refusal_line, word_line};

use crate::command_kind::CommandKind;
use crate::sentences::why_for;
use crate::word_kind::WordKind;
use rh_defs::Refusal;
use rh_lines::{Pen, refusal_name};

/// Writes the forms of a kind of command, what it does, what its words are, and why it may be refused.
pub fn put_command_help<P: Pen>(kind: CommandKind, pen: &mut P)
    ensures { P.offered pen.new ≡ P.offered pen.old ++ command_help kind }
{
    pen.put(kind.forms());
    pen.put(b"\n");
    pen.put(kind.deed());
    pen.put(b"\n");
    put_words(kind.word_kinds(), pen);
    put_refusals(kind, kind.refusals(), pen);
}

fn put_words<P: Pen>(kinds: &[WordKind], pen: &mut P)
    ensures { P.offered pen.new ≡ P.offered pen.old ++ flat_map word_line kinds.now }
{
    for kind in kinds {
        put_word(*kind, pen);
    }
}

fn put_word<P: Pen>(kind: WordKind, pen: &mut P)
    ensures { P.offered pen.new ≡ P.offered pen.old ++ word_line kind }
{
    pen.put(b"  ");
    pen.put(kind.expected());
    pen.put(b"\n");
}

fn put_refusals<P: Pen>(kind: CommandKind, refusals: &[Refusal], pen: &mut P)
    ensures { P.offered pen.new ≡ P.offered pen.old ++ flat_map (refusal_line kind) refusals.now }
{
    for refusal in refusals {
        put_refusal(kind, *refusal, pen);
    }
}

fn put_refusal<P: Pen>(kind: CommandKind, refusal: Refusal, pen: &mut P)
    ensures { P.offered pen.new ≡ P.offered pen.old ++ refusal_line kind refusal }
{
    pen.put(b"  refused ");
    pen.put(refusal_name(refusal));
    pen.put(b": ");
    pen.put(why_for(kind, refusal));
    pen.put(b"\n");
}
