//! Tasks by name.

ghost use Rattle.std.specs.Prelude.{◌≡◌, ◌≤◌, ◌+◌, ◌++◌, length};
ghost use Rattle.rh_lines.specs.declared.row.TheConstants.{ROW};
ghost use Rattle.rh_map.specs.MapTasks.{who_text};

use rh_defs::{Handle, Name};
use rh_lines::Row;

/// A task: the name of a live one, or the handle of one that has ended.
#[derive(Clone, Copy)]
pub enum Who<'a> {
    Live(&'a Name),
    Gone(Handle),
}

/// Adds a task's name, or its handle where it has ended.
pub fn add_who(row: &mut Row, who: &Who<'_>)
    requires { length row.old + 17 ≤ ROW }
    ensures value { row.new ≡ row.old ++ who_text who.now }
    ensures few { length row.new ≤ length row.old + 17 }
{
    match who {
        Who::Live(name) => row.text(name.as_bytes()),
        Who::Gone(handle) => {
            row.text(b"task ");
            row.decimal(handle.0);
        }
    }
}
