//! What takes the lines of a script.

ghost use Rattle.std.specs.Prelude.{◌≤◌, ◌<◌, ◌+◌, ℕ, List};
ghost use Rattle.rh_session.specs.Lines.{kept};
ghost use Rattle.rh_session.specs.Taken.{Gives};

use rh_lines::Pen;

/// What takes the lines of a script, one after the other, and writes what each gives. Of a line of more than 1,024
/// bytes only the first 1,025 count.
pub trait LineTaker: Drop {
    // What taking a line does: from a taker and a line to the taker behind it and the text that is written.
    ghost took: { Self → List ℕ → Self → List ℕ → Type 0 };

    // What taking the bytes behind the last line feed does, which may be none.
    ghost took_rest: { Self → List ℕ → Self → List ℕ → Type 0 };

    // How many more lines there is room for.
    ghost room: { Self → ℕ };

    /// Takes a whole line, without its line feed.
    fn take_line<P: Pen>(&mut self, line: &[u8], pen: &mut P)
        requires { 0 < room self.old }
        ensures took { Gives (took self.old (kept line.now) self.new) (P.offered pen.old) (P.offered pen.new) }
        ensures room { room self.old ≤ room self.new + 1 };

    /// Takes what stands behind the last line feed: the script has ended.
    fn take_rest<P: Pen>(&mut self, rest: &[u8], pen: &mut P)
        requires { 0 < room self.old }
        ensures { Gives (took_rest self.old (kept rest.now) self.new) (P.offered pen.old) (P.offered pen.new) };
}
