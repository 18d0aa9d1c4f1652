//! The calls of a table.
ghost use Rattle.std.specs.Prelude.{◌≡◌, IfOk, Ok, Err, MatchResult, OnErr, OnOk};
ghost use Rattle.sheet.specs.Sheets.{content};
ghost use Rattle.grammar.specs.Sheets.{blank_content};
ghost use Rattle.table.specs.Workloads.{loads_in, turn_of};
ghost use Rattle.table.specs.Cycles.{Least};
ghost use Rattle.table.specs.Allowances.{fits_at, Lowest};
ghost use Rattle.table.specs.Admissions.{LeastCycle, LowestBase, loads_of, table_of, admit_of, blank_table};
ghost use Rattle.table.specs.Tables.{admitted};

use crate::cycle::Turn;
use crate::level::Level;
use crate::table::Table;
use crate::tasks::TaskSet;
use crate::workload::Workload;
use basis::{Fault, Places, Reason};
use grammar::task::NO_POWER;
use grammar::{Name, Power};
use sheet::Sheet;

impl Table {
    // No task, in a cycle of one tick, at full speed and with zero power: what a program holds before it has admitted a sheet.
    // It is the table of the blank sheet.
    pub fn blank() -> Table
        ensures parts { admitted result ≡ blank_table }
        ensures origin { admit_of blank_content ≡ Ok (admitted result) }
    {
        Table {
            names: Places::new(),
            works: Workload::blank(),
            allowances: Workload::blank(),
            levels: Places::of(&[100]),
            base: Level::new(100),
            power: NO_POWER,
        }
    }

    // Takes the table of a sheet in place of this one. A refused sheet leaves this table what it was.
    pub fn admit(&mut self, sheet: &Sheet) -> Result<(), Fault>
        ensures answer { MatchResult result (λ _. admit_of (content sheet.now) ≡ Ok (admitted self.new)) (λ fault. admit_of (content sheet.now) ≡ Err fault) }
        ensures kept { OnErr result (self.new ≡ self.old) }
        ensures cycle { OnOk result (LeastCycle (admitted self.new)) }
        ensures base { OnOk result (LowestBase (admitted self.new)) }
    {
        *self = Table::measured(sheet)?;
        Ok(())
    }

    // The table of a sheet, or why it is refused.
    fn measured(sheet: &Sheet) -> Result<Table, Fault>
        ensures answer { MatchResult result (λ t. admit_of (content sheet.now) ≡ Ok (admitted t)) (λ fault. admit_of (content sheet.now) ≡ Err fault) }
        ensures cycle { IfOk result (λ t. LeastCycle (admitted t)) }
        ensures base { IfOk result (λ t. LowestBase (admitted t)) }
    {
        let tasks = TaskSet::of(sheet);
        let cycle = tasks
            .cycle()
            .map_err(|place| Reason::LongCycle.at(sheet.first_task() + place))?;
        let base = tasks.base(sheet.levels(), cycle).ok_or(Reason::Overfull)?;
        Ok(Table::fitted(sheet, &tasks, cycle, base))
    }

    // The table of a sheet whose works, cycle and base level are found.
    fn fitted(sheet: &Sheet, tasks: &TaskSet, cycle: Turn, base: Level) -> Table
        requires tasks { tasks.now.loads ≡ loads_of (content sheet.now).tasks }
        requires cycle { Least tasks.now.loads cycle.ticks }
        requires base { Lowest (content sheet.now).levels (fits_at tasks.now.loads cycle.ticks) base.percent }
        ensures { admitted result ≡ table_of (content sheet.now) cycle.ticks base.percent }
    {
        Table {
            names: Places::mapped(sheet.tasks(), |task| task.name),
            works: Workload::new(tasks.loads, cycle),
            allowances: Workload::new(tasks.allowances(base), cycle),
            levels: Places::of(sheet.levels()),
            base,
            power: sheet.power(),
        }
    }

    // The names of the tasks, by place.
    pub fn names(&self) -> &[Name]
        ensures { result.now ≡ (admitted self.now).names }
    {
        self.names.entries()
    }

    // The works and periods of the tasks, by place.
    pub fn works(&self) -> &Workload
        ensures loads { loads_in result.now ≡ (admitted self.now).works }
        ensures cycle { turn_of result.now ≡ (admitted self.now).cycle }
    {
        &self.works
    }

    // The allowances at the base level and periods of the tasks, by place.
    pub fn allowances(&self) -> &Workload
        ensures loads { loads_in result.now ≡ (admitted self.now).allowances }
        ensures cycle { turn_of result.now ≡ (admitted self.now).cycle }
    {
        &self.allowances
    }

    // The levels in percent, rising to 100.
    pub fn levels(&self) -> &[u8]
        ensures { result.now ≡ (admitted self.now).levels }
    {
        self.levels.entries()
    }

    // The base level in percent: the lowest that fits.
    pub fn base(&self) -> u8
        ensures { result ≡ (admitted self.now).base }
    {
        self.base.percent
    }

    // The power figures of one board.
    pub fn power(&self) -> Power
        ensures { result ≡ (admitted self.now).power }
    {
        self.power
    }
}
