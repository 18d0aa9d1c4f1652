ghost use Rattle.std.specs.Prelude.{◌≡◌, ℕ, ◌<◌, ◌≤◌, false, length, slice_index};
ghost use Rattle.theory.specs.Sums.{bit};
ghost use Rattle.theory.specs.Lates.{edl};
ghost use Rattle.table.specs.Workloads.{loads_in, turn_of};

pub mod calls;

use table::Workload;

// The plan that works as late as it can (earliest deadline late), one byte a tick in memory lent by the caller: 1 awake, 0 rest.
// `laid` bytes of the memory are the plan's; the blank plan has none and rests. The memory is the caller's, since nothing is
// allocated, and bytes, as the rules of the plan have it.
#[derive(Drop)]
pub struct EdlPlan<'a> {
    workload: Workload,
    memory: &'a mut [u8],
    laid: usize,
    ghost room: { laid ≤ length memory.now },
    ghost shown: { (t : ℕ) → t < laid → slice_index memory.now t ≡ bit (edl (loads_in workload) (turn_of workload) t) },
    ghost quiet: { (t : ℕ) → laid ≤ t → t < turn_of workload → edl (loads_in workload) (turn_of workload) t ≡ false },
}
