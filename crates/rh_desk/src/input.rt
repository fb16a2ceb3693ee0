//! The bytes of an input that is looked at as a file.

ghost use Rattle.std.specs.Prelude.{◌≡◌, IfErr, IfOk, vec_items};
ghost use Rattle.rh_desk.specs.Inputs.{IsAllOf, TellsLostInput};

use crate::program_end::ProgramEnd;
use crate::reasons::FileLoss;
use crate::telling::{ended, tell_file};
use rh_defs::sizes::{LONGEST_FILE, PAGE};
use rh_lines::{Sink, Source};
use rh_run::RunFault;
use std::alloc::Global;

/// The word that stands for the input.
pub const INPUT: &str = "-";

/// All bytes of an input. One that fails, or has more bytes than a file may have, is told.
pub fn read_input<I: Source, E: Sink>(
    alloc: Global,
    input: &mut I,
    errors: &mut E,
) -> Result<Vec<u8>, ProgramEnd>
    ensures whole { IfOk result (λ bytes. IsAllOf (I.input input.old) (I.input input.new) (vec_items bytes)) }
    ensures quiet { IfOk result (λ _. E.output errors.new ≡ E.output errors.old) }
    ensures err { IfErr result (λ ending. ending ≡ ProgramEnd.Fault) }
    ensures errors { IfErr result (λ _. TellsLostInput (I.input input.old) (I.input input.new) (E.output errors.old)
        (E.output errors.new)) }
{
    let mut bytes = Vec::new(alloc);
    let mut piece = [0; PAGE];
    while bytes.len() <= LONGEST_FILE {
        let count = match input.read(&mut piece) {
            Ok(0) => return Ok(bytes),
            Ok(count) => count,
            Err(_) => return Err(ended(Err(RunFault::ReadFailed), errors)),
        };
        if bytes.extend_from_slice(&piece[..count]).is_err() {
            return Err(ended(Err(RunFault::NoMemory), errors));
        }
    }
    Err(tell_file(INPUT, FileLoss::TooLong, errors))
}
