//! The calls of a workload.
ghost use Rattle.std.specs.Prelude.{◌≡◌, ◌≤◌, [], length};
ghost use Rattle.theory.specs.Loads.{Cycle, load};
ghost use Rattle.table.specs.Workloads.{loads_in, turn_of};

use crate::cycle::Turn;
use crate::workload::Workload;
use basis::Places;
use theory::Load;

impl Workload {
    // No task, in a cycle of one tick.
    pub fn blank() -> Workload
        ensures loads { loads_in result ≡ [] }
        ensures cycle { turn_of result ≡ 1 }
    {
        Workload::new(Places::new(), Turn { ticks: 1 })
    }

    // Works and periods with a cycle of them that has room for the work.
    pub(crate) fn new(loads: Places<Load, 16>, cycle: Turn) -> Workload
        requires few { length loads ≤ 16 }
        requires whole { Cycle loads cycle.ticks }
        requires fits { load loads cycle.ticks ≤ cycle.ticks }
        ensures loads { loads_in result ≡ loads }
        ensures cycle { turn_of result ≡ cycle.ticks }
    {
        Workload { loads, cycle }
    }

    // The works and periods, by place.
    pub fn loads(&self) -> &[Load]
        ensures { result.now ≡ loads_in self.now }
    {
        self.loads.entries()
    }

    // The ticks of the cycle.
    pub fn cycle(&self) -> u32
        ensures { result ≡ turn_of self.now }
    {
        self.cycle.ticks
    }
}
