//! Tasks as lines name them.

ghost use Rattle.std.specs.Prelude.{◌≡◌};
ghost use Rattle.rh_figure.specs.Phrases.{task_name};
ghost use Rattle.rh_map.specs.MapTasks.{who_text};

use rh_defs::Handle;
use rh_map::Who;
use rh_scene::{Sight, task_with};

/// The task with the handle: by its name where it lives.
pub fn who_of<S: Sight>(sight: &S, handle: Handle) -> Who<'_>
    ensures { who_text result ≡ task_name (S.desk sight.now) handle }
{
    let Some(i) = task_with(sight, handle) else {
        return Who::Gone(handle);
    };
    match sight.task(i) {
        Some(task) => Who::Live(task.name),
        None => Who::Gone(handle),
    }
}
