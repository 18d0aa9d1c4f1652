//! The blank sheet, and what a sheet holds.
ghost use Rattle.std.specs.Prelude.{◌≡◌};
ghost use Rattle.sheet.specs.Sheets.{content};
ghost use Rattle.grammar.specs.Sheets.{blank_content};

use crate::sheet::Sheet;
use basis::Places;
use grammar::task::NO_POWER;
use grammar::{Power, TaskLine};

impl Sheet {
    // Full speed as the only level, zero power and no task: what a program holds before it has read a file.
    pub fn blank() -> Sheet
        ensures { content result ≡ blank_content }
    {
        Sheet {
            levels: Places::of(&[100]),
            power: NO_POWER,
            tasks: Places::new(),
            first_task: 0,
        }
    }

    // The levels in percent, rising to 100.
    pub fn levels(&self) -> &[u8]
        ensures { result.now ≡ (content self.now).levels }
    {
        self.levels.entries()
    }

    // The power figures of one board.
    pub fn power(&self) -> Power
        ensures { result ≡ (content self.now).power }
    {
        self.power
    }

    // The tasks in the sequence of the file.
    pub fn tasks(&self) -> &[TaskLine]
        ensures { result.now ≡ (content self.now).tasks }
    {
        self.tasks.entries()
    }

    // The line of the file on which the first task stands, or 0 in the blank sheet.
    pub fn first_task(&self) -> usize
        ensures { result ≡ (content self.now).first }
    {
        self.first_task
    }
}
