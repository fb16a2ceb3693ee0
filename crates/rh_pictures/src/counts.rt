//! How many tasks and made areas a desk has.

ghost use Rattle.std.specs.Prelude.{◌≡◌, ◌≤◌, length};
ghost use Rattle.rh_defs.specs.Desk.{most_made};

use rh_scene::Sight;

/// How many tasks are live.
pub fn count_tasks<S: Sight>(sight: &S) -> usize
    ensures { result ≡ length (S.desk sight.now).tasks }
{
    let mut i = 0;
    'tasks: while let Some(_task) = sight.task(i) {
        i += 1;
    }
    i
}

/// How many areas were made at run.
pub fn count_made<S: Sight>(sight: &S) -> usize
    ensures count { result ≡ length (S.desk sight.now).made }
    ensures few { result ≤ most_made }
{
    let mut i = 0;
    'areas: while let Some(_area) = sight.made(i) {
        i += 1;
    }
    i
}
