//! The works and periods of a sheet.
ghost use Rattle.std.specs.Prelude.{◌≡◌, ◌≤◌, length};
ghost use Rattle.sheet.specs.Sheets.{content};
ghost use Rattle.table.specs.Cycles.{Sound};
ghost use Rattle.table.specs.Admissions.{loads_of};
ghost use Rattle.table.specs.Allowances.{allowed};

use crate::level::Level;
use basis::Places;
use sheet::Sheet;
use theory::Load;

// Up to sixteen works and periods, of each task 1 ≤ work ≤ period ≤ 30,000.
#[derive(Clone, Copy)]
pub(crate) struct TaskSet {
    pub(crate) loads: Places<Load, 16>,
    ghost few: { length loads ≤ 16 },
    ghost sound: { Sound loads },
}

impl TaskSet {
    // Those of the tasks of a sheet.
    pub(crate) fn of(sheet: &Sheet) -> TaskSet
        ensures { result.loads ≡ loads_of (content sheet.now).tasks }
    {
        TaskSet {
            loads: Places::mapped(
                sheet.tasks(),
                |task| Load {
                    work: task.work,
                    period: task.period,
                },
            ),
        }
    }

    // The same tasks with their allowances at a level in place of their works.
    #[tactic(auto, unfolding(crate::specs::Allowances::allowed))]
    pub(crate) fn allowances(&self, level: Level) -> Places<Load, 16>
        ensures { result ≡ allowed level.percent self.now.loads }
    {
        Places::mapped(
            self.loads.entries(),
            |load| Load {
                work: level.allowance(load.work),
                period: load.period,
            },
        )
    }
}
