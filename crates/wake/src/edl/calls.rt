//! The calls of the EDL plan.
ghost use Rattle.std.specs.Prelude.{◌≡◌, ℕ, ◌<◌, ◌≤◌, [], length, MatchResult, slice_index};
ghost use Rattle.basis.specs.Faults.{fault_of};
ghost use Rattle.basis.specs.declared.fault.Reason.TheVariants.{ShortMemory};
ghost use Rattle.theory.specs.Sums.{bit};
ghost use Rattle.theory.specs.Lates.{edl, due_at};
ghost use Rattle.table.specs.Workloads.{loads_in, turn_of};
ghost use Rattle.wake.specs.Plans.{late_of};
ghost use Rattle.wake.specs.Edls.{planned_of, bytes_of, lent_of, Laid};

use crate::edl::EdlPlan;
use crate::plan::WakePlan;
use basis::{Fault, Reason};
use table::Workload;
use theory::Load;

// The work of the jobs that are due at a tick. A loop, since the `sum` of a chain is no nearer to the sum over the places.
fn work_due(workload: &Workload, tick: u32) -> u32
    ensures { result ≡ due_at (loads_in workload.now) tick }
{
    let mut sum = 0;
    for load in workload.loads() {
        if tick % load.period == 0 {
            sum += load.work;
        }
    }
    sum
}

// Writes the plan, one byte a tick, from the last tick of the cycle down: each tick takes one slot of the backlog, if there is one.
// By ticks: after a loop over `iter_mut`, a proof knows no byte.
fn write_plan(memory: &mut [u8], workload: &Workload)
    requires { turn_of workload.now ≤ length memory.old }
    ensures ticks { (t : ℕ) → t < turn_of workload.now → slice_index memory.new t ≡ bit (edl (loads_in workload.now) (turn_of workload.now) t) }
    ensures further { (t : ℕ) → turn_of workload.now ≤ t → slice_index memory.new t ≡ slice_index memory.old t }
{
    let mut backlog = 0;
    for tick in (0..workload.cycle()).rev() {
        backlog += work_due(workload, tick + 1);
        // there is no `From` between these
        memory[tick as usize] = u8::from(backlog > 0);
        backlog = backlog.saturating_sub(1);
    }
}

impl<'a> EdlPlan<'a> {
    // No task, in a cycle of one tick, in which the board rests, whatever the memory holds.
    pub fn blank(memory: &'a mut [u8]) -> EdlPlan<'a>
        ensures loads { loads_in (planned_of result) ≡ [] }
        ensures cycle { turn_of (planned_of result) ≡ 1 }
        ensures bytes { bytes_of result ≡ memory.old }
        ensures lent { lent_of result ≡ memory.entry.ghost_name }
    {
        EdlPlan {
            workload: Workload::blank(),
            memory,
            laid: 0,
        }
    }

    // Lays the plan of a workload. Fewer bytes than the cycle has ticks are refused, and plan and bytes stay as they are.
    pub fn lay(&mut self, workload: &Workload) -> Result<(), Fault>
        ensures lent { lent_of self.new ≡ lent_of self.old }
        ensures cases { MatchResult result
            (λ _. Laid self.old workload.now self.new)
            (λ e. (e ≡ fault_of ShortMemory) × (length (bytes_of self.old) < turn_of workload.now) × (self.new ≡ self.old)) }
    {
        // there is no `From` between these
        let cycle = workload.cycle() as usize;
        if self.memory.len() < cycle {
            return Err(Fault::from(Reason::ShortMemory));
        }
        let memory = std::mem::replace(&mut self.memory, &mut []);
        write_plan(&mut *memory, workload);
        self.memory = memory;
        self.workload = *workload;
        self.laid = cycle;
        Ok(())
    }

    // Whether the board is awake in a tick of the cycle.
    fn tick(&self, at: usize) -> bool
        ensures { at < turn_of (planned_of self.now) → result ≡ edl (loads_in (planned_of self.now)) (turn_of (planned_of self.now)) at }
    {
        at < self.laid && self.memory[at] == 1
    }
}

impl<'a> WakePlan for EdlPlan<'a> {
    ghost plan = { λ p. late_of p.workload };

    fn loads(&self) -> &[Load] {
        self.workload.loads()
    }

    fn cycle(&self) -> u32 {
        self.workload.cycle()
    }

    // In the first cycle a tick is asked by its own number, which spares the remainder: every count of rest ticks stays in it.
    #[tactic(auto, using(crate::proofs::Rests::in_cycle))]
    fn is_awake(&self, tick: u32) -> bool {
        let cycle = self.workload.cycle();
        // there is no `From` between these
        if tick < cycle {
            return self.tick(tick as usize);
        }
        self.tick((tick % cycle) as usize)
    }
}
