ghost use Rattle.std.specs.Prelude.{◌≡◌, ℕ, ◌<◌, ◌≤◌, length, slice_index_or};
ghost use Rattle.theory.specs.Loads.{size};
ghost use Rattle.theory.specs.Slots.{job_at};
ghost use Rattle.table.specs.Workloads.{loads_in};
ghost use Rattle.wake.specs.Jobs.{no_job};

pub mod calls;

use crate::job::Job;
use basis::Places;
use table::Workload;

// The slot machine of one board: each task's current job, with the slots left of it, at the start of a tick.
// It goes up to tick 100,000,000 and stands still there. The jobs are a list of their own, since the workload is what the plan is for.
#[derive(Clone, Copy)]
pub struct SlotMachine {
    workload: Workload,
    jobs: Places<Job, 16>,
    tick: u32,
    ghost one_number: { length jobs ≡ size (loads_in workload) },
    ghost early: { tick ≤ 100000000 },
    ghost dues: { (i : ℕ) → i < size (loads_in workload) → (slice_index_or jobs i no_job).due ≡ (job_at (loads_in workload) tick i).due },
    ghost releases: { (i : ℕ) → i < size (loads_in workload) → (slice_index_or jobs i no_job).release ≡ (job_at (loads_in workload) tick i).release },
    ghost own: { (i : ℕ) → i < size (loads_in workload) → (slice_index_or jobs i no_job).place ≡ i },
}
