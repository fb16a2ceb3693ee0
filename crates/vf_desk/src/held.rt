//! Bytes of a desk in which a reply's text is printed before it is known to have room.
ghost use Rattle.std.specs.Prelude.{◌≡◌};
ghost use Rattle.rh_defs.specs.Desk.{Desk};
ghost use Rattle.rh_defs.specs.Order.{IsReordered};
ghost use Rattle.vf_desk.specs.Console.{Prints};
ghost use Rattle.vf_desk.specs.Said.{said_text};

use crate::console::Console;
use std::alloc::{AllocError, Global};
use std::marker::Model;

/// So many bytes of a text are held: all of most lists, which are then printed once.
const MOST_HELD: usize = 8_192;

/// Bytes in which texts are printed. What they are is of no matter, and contracts see none of them.
#[derive(Drop)]
pub struct Held {
    bytes: Vec<u8>,
}

impl Model for Held {
    ghost Value = { Unit {0} };

    ghost view = { λ _. tt };
}

impl Held {
    /// New ones, if memory is granted.
    pub fn new(alloc: Global) -> Result<Held, AllocError> {
        let bytes = vec![in alloc; 0; MOST_HELD]?;
        Ok(Held { bytes })
    }

    /// Prints what a console's last line was answered, as the console does.
    pub fn print(&mut self, console: &Console, to: &mut [u8]) -> Option<usize>
        ensures { (d : Desk) → IsReordered d console.now.world.desk →
            Prints (said_text d console.now.said) to.old to.new result }
    {
        console.print(&mut self.bytes, to)
    }
}
