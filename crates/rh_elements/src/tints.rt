//! The tints of owners.

ghost use Rattle.std.specs.Prelude.{◌≡◌, ◌≤◌, ◌+◌, ◌++◌, length};
ghost use Rattle.rh_elements.specs.Tints.{tint_class};
ghost use Rattle.rh_lines.specs.declared.row.TheConstants.{ROW};

use rh_lines::Row;
use rh_sheet::sizes::TINTS;

/// Whose tint a thing has: that of a slot, by its task's handle, of the module area, or of another area.
#[derive(Clone, Copy)]
pub enum Tint {
    Slot(u32),
    Module,
    Other,
}

/// Adds the class of a tint.
pub fn add_tint(row: &mut Row, tint: Tint)
    requires { length row.old + 12 ≤ ROW }
    ensures value { row.new ≡ row.old ++ tint_class tint }
    ensures few { length row.new ≤ length row.old + 12 }
{
    match tint {
        Tint::Slot(handle) => {
            row.byte(b't');
            row.decimal(handle.saturating_sub(1) % TINTS);
        }
        Tint::Module => row.byte(b'm'),
        Tint::Other => row.byte(b'o'),
    }
}
