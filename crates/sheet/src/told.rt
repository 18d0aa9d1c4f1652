ghost use Rattle.std.specs.Prelude.{◌≤◌};

pub mod calls;

use basis::Places;
use grammar::{Power, TaskLine};

// What the bodies read so far say, with the lines of the headings of the levels and of the tasks, each 0 until its body is read.
#[derive(Clone, Copy)]
pub struct Told {
    pub levels: Places<u8, 8>,
    pub levels_heading: usize,
    pub power: Power,
    pub tasks: Places<TaskLine, 16>,
    pub tasks_heading: usize,
    ghost levels_early: { levels_heading ≤ 90 },
    ghost tasks_early: { tasks_heading ≤ 90 },
}
