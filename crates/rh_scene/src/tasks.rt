//! Tasks by name and by handle.

ghost use Rattle.std.specs.Prelude.{◌≡◌, find, IfNone, IfSome, length, slice_get, None, Some};
ghost use Rattle.std.specs.Option.{option_map};
ghost use Rattle.rh_defs.specs.Desk.{Task, has_name, task_at};
ghost use Rattle.rh_figure.specs.Scene.{task_in};

use crate::sight::Sight;
use rh_defs::{Command, Handle, Name};

/// Where the task with the name stands in order of handle.
pub fn task_named<S: Sight>(sight: &S, name: &Name) -> Option<usize>
    ensures some { IfSome result (λ i. (t : Task) × (slice_get (S.desk sight.now).tasks i ≡ Some t) ×
        (find (has_name name.now) (S.desk sight.now).tasks ≡ Some t)) }
    ensures none { IfNone result (find (has_name name.now) (S.desk sight.now).tasks ≡ None) }
{
    let mut i = 0;
    'tasks: while let Some(task) = sight.task(i) {
        if task.name == name {
            return Some(i);
        }
        i += 1;
    }
    None
}

/// Where the task that a command is about stands in order of handle.
pub(crate) fn task_about<S: Sight>(sight: &S, command: Option<&Command>) -> Option<usize>
    ensures some { IfSome result (λ i. (t : Task) × (slice_get (S.desk sight.now).tasks i ≡ Some t) ×
        (task_in (option_map (λ c. c.now) command.entry) (S.desk sight.now) ≡ Some t)) }
    ensures none { IfNone result (task_in (option_map (λ c. c.now) command.entry) (S.desk sight.now) ≡ None) }
{
    task_named(sight, command?.task_name()?)
}

/// Where the task with the handle stands in order of handle.
pub fn task_with<S: Sight>(sight: &S, handle: Handle) -> Option<usize>
    ensures some { IfSome result (λ i. (t : Task) × (slice_get (S.desk sight.now).tasks i ≡ Some t) ×
        (task_at handle (S.desk sight.now) ≡ Some t)) }
    ensures none { IfNone result (task_at handle (S.desk sight.now) ≡ None) }
{
    let mut i = 0;
    'tasks: while let Some(task) = sight.task(i) {
        if task.handle == handle {
            return Some(i);
        }
        i += 1;
    }
    None
}
