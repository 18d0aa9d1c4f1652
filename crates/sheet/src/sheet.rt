ghost use Rattle.std.specs.Prelude.{◌≡◌, ◌<◌, ◌≤◌, true, length};
ghost use Rattle.grammar.specs.Tasks.{sound_all, rising};

pub mod calls;
pub mod read;

use basis::Places;
use grammar::{Power, TaskLine};

// What a machine file says, as the reader fills it in. Only the reader makes one, and the blank.
#[derive(Clone, Copy)]
pub struct Sheet {
    levels: Places<u8, 8>,
    power: Power,
    tasks: Places<TaskLine, 16>,
    // the line of the file on which the first task stands, or 0 in the blank sheet; no `Option`, which its one reader would have to
    // take apart for a sheet that has a task anyway
    first_task: usize,
    ghost level_some: { 0 < length levels },
    ghost level_few: { length levels ≤ 8 },
    ghost level_order: { rising 0 levels ≡ true },
    ghost task_few: { length tasks ≤ 16 },
    ghost task_sound: { sound_all tasks ≡ true },
    ghost task_line: { first_task ≤ 100 },
}
