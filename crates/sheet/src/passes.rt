//! What holds of a whole section: the levels rise to 100, and each task has a name of its own and no more work than its period.
ghost use Rattle.std.specs.Prelude.{◌≡◌, ◌+◌, ◌^◌, ◌<◌, [], length};
ghost use Rattle.grammar.specs.Passes.{rising_from, is_named, is_barred, apart_from};

use basis::Fault;
use grammar::{Reason, TaskLine, same};

// Names the first level that is not above the one before, or the last one where it is not 100. Their heading is line `heading` of the file.
pub(crate) fn check_levels(levels: &[u8], heading: usize) -> Result<(), Fault>
    requires { heading + length levels.now < 2 ^ 64 }
    ensures { result ≡ rising_from heading 0 levels.now }
{
    let mut last = 0;
    for (i, level) in levels.iter().enumerate() {
        if *level <= last {
            return Err(Reason::Level.at(heading + i + 1));
        }
        last = *level;
    }
    if last != 100 {
        return Err(Reason::Level.at(heading + levels.len()));
    }
    Ok(())
}

// Whether one of the tasks has this name. A loop, since the proof of `any` did not close.
fn is_named(name: &[u8], tasks: &[TaskLine]) -> bool
    ensures { result ≡ is_named name.now tasks.now }
{
    for task in tasks {
        if same(task.name.text(), name) {
            return true;
        }
    }
    false
}

// Whether a task has the name of an earlier one or the name `rest`, or more work than its period.
fn is_barred(task: TaskLine, earlier: &[TaskLine]) -> bool
    ensures { result ≡ is_barred task earlier.now }
{
    let name = task.name.text();
    is_named(name, earlier) || same(name, b"rest") || task.work > task.period
}

// Names the first task that is barred. The first task stands on line `first` of the file.
pub(crate) fn check_tasks(tasks: &[TaskLine], first: usize) -> Result<(), Fault>
    requires { first + length tasks.now < 2 ^ 64 }
    ensures { result ≡ apart_from first [] tasks.now }
{
    for (i, task) in tasks.iter().enumerate() {
        if is_barred(*task, &tasks[..i]) {
            return Err(Reason::Task.at(first + i));
        }
    }
    Ok(())
}
