//! The calls of a slot machine.
ghost use Rattle.std.specs.Prelude.{◌≡◌, ℕ, ◌+◌, ◌<◌, ◌≤◌, length, if◌then◌else◌, None, nat_lt, slice_index_or};
ghost use Rattle.theory.specs.Loads.{size, work};
ghost use Rattle.theory.specs.Slots.{owner, next};
ghost use Rattle.table.specs.Workloads.{loads_in};
ghost use Rattle.wake.specs.Jobs.{no_job, first_job};
ghost use Rattle.wake.specs.Machines.{serves_of, tick_of, left_in, owner_in, last_tick};

use crate::job::{Job, Waiting};
use crate::machine::SlotMachine;
use basis::{Places, pick};
use table::Workload;

// The tick at which a machine stands still.
const LAST_TICK: u32 = 100_000_000;

// The first jobs of the tasks, released at tick 0 with as many slots as their work. A loop and no `mapped`, which does not tell its
// function the place.
fn first_jobs(workload: &Workload) -> Places<Job, 16>
    ensures one_number { length result ≡ size (loads_in workload.now) }
    ensures jobs { (k : ℕ) → slice_index_or result k no_job ≡ first_job (loads_in workload.now) k }
{
    let loads = workload.loads();
    let mut jobs = Places::new();
    for (place, load) in loads.iter().enumerate() {
        // there is room for sixteen
        let _full = jobs.push(Job::released(*load, 0, place));
    }
    jobs
}

impl SlotMachine {
    // The machine at tick 0, with each task's first job.
    pub fn start(workload: &Workload) -> SlotMachine
        ensures serves { serves_of result ≡ workload.now }
        ensures tick { tick_of result ≡ 0 }
        ensures left { (i : ℕ) → left_in result i ≡ work (loads_in workload.now) i }
    {
        SlotMachine {
            workload: *workload,
            jobs: first_jobs(workload),
            tick: 0,
        }
    }

    // One tick: its owner, if the board is awake and a job has slots left, loses a slot; then due jobs make room for their successors.
    // At the last tick the machine stands still.
    pub fn pass(&mut self, awake: bool) -> Option<usize>
        ensures answer { result ≡ (if nat_lt (tick_of self.old) last_tick then owner_in self.old awake else None) }
        ensures last { last_tick ≤ tick_of self.old → self.new ≡ self.old }
        ensures serves { serves_of self.new ≡ serves_of self.old }
        ensures tick { tick_of self.old < last_tick → tick_of self.new ≡ tick_of self.old + 1 }
        ensures left { tick_of self.old < last_tick → (i : ℕ) → left_in self.new i ≡ next (loads_in (serves_of self.old)) awake (left_in self.old) (tick_of self.old) i }
    {
        if self.tick >= LAST_TICK {
            return None;
        }
        let owner = self.owner(awake);
        let workload = &self.workload;
        let tick = self.tick + 1;
        self.jobs.update(|job| job.passed(owner, workload, tick));
        self.tick = tick;
        owner
    }

    // Who owns the coming tick: in an awake tick the earliest job with slots left.
    pub fn owner(&self, awake: bool) -> Option<usize>
        ensures { result ≡ owner_in self.now awake }
    {
        if awake {
            pick(self.jobs.entries(), &Waiting)
        } else {
            None
        }
    }
}
