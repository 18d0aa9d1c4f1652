//! What the lines of the bodies say.
use crate::name::{NO_NAME, Name};
use basis::Blank;

// A task as its line gives it: the work and the period are in ticks.
#[derive(Clone, Copy, Debug)]
pub struct TaskLine {
    pub name: Name,
    pub work: u32,
    pub period: u32,
}

// The power figures of one board, in milliwatts: what it always draws, what running adds at any speed, and what switching adds at full speed.
#[derive(Clone, Copy, Debug, PartialEq)]
pub struct Power {
    pub static_mw: u32,
    pub steady_mw: u32,
    pub switching_mw: u32,
}

// What stands in a place that no task uses.
pub const NO_TASK: TaskLine = TaskLine {
    name: NO_NAME,
    work: 0,
    period: 0,
};

impl Blank for TaskLine {
    ghost use Rattle.grammar.specs.Tasks.{no_task};

    ghost BLANK = { no_task };

    const BLANK: TaskLine = NO_TASK;
}

// The power of the blank sheet.
pub const NO_POWER: Power = Power {
    static_mw: 0,
    steady_mw: 0,
    switching_mw: 0,
};
