//! Jobs: what becomes of one in a tick, and the order between them.
ghost use Rattle.std.specs.Prelude.{◌≡◌, ◌+◌, ◌^◌, ◌<◌, ◌≤◌, [], ◌∷◌, Some, nat_lt};
ghost use Rattle.theory.specs.Loads.{size};
ghost use Rattle.theory.specs.Orders.{earlier};
ghost use Rattle.table.specs.Workloads.{loads_in};
ghost use Rattle.wake.specs.Jobs.{key_of, released, renewed, spent};
ghost use Rattle.std.proofs.Common.{rules};

use basis::{Blank, Entry};
use table::Workload;
use theory::Load;

// The job that a task has in a tick: when it is due, when it was released, the place of its task, and the slots left of it.
#[derive(Clone, Copy, Debug, PartialEq)]
pub struct Job {
    pub due: u32,
    pub release: u32,
    pub place: u32,
    pub left: u32,
}

// What stands in a place that no task uses.
impl Blank for Job {
    ghost use Rattle.wake.specs.Jobs.{no_job};

    ghost BLANK = { no_job };

    const BLANK: Job = Job {
        due: 0,
        release: 0,
        place: 0,
        left: 0,
    };
}

impl Job {
    // The job of a task that is released at a tick.
    pub(crate) fn released(load: Load, tick: u32, place: usize) -> Job
        requires { (tick + load.period < 2 ^ 32) × (place < 16) }
        ensures { result ≡ released load tick place }
    {
        Job {
            due: tick + load.period,
            release: tick,
            // there is no `From` between these
            place: place as u32,
            left: load.work,
        }
    }

    // The job after a tick: one slot less, if its place is the tick's owner.
    fn spent(mut self, owner: Option<usize>) -> Job
        requires { owner ≡ Some self.place → 0 < self.left }
        ensures { result ≡ spent owner self.place self }
    {
        // there is no `From` between these
        if owner == Some(self.place as usize) {
            self.left -= 1;
        }
        self
    }

    // The job as a tick begins: if it is due then, it makes room for its successor, with fresh slots.
    fn renewed(self, workload: &Workload, tick: u32) -> Job
        requires task { self.place < size (loads_in workload.now) }
        requires early { tick ≤ 100000000 }
        ensures { result ≡ renewed (loads_in workload.now) tick self.place self }
    {
        if self.due != tick {
            return self;
        }
        // there is no `From` between these
        let place = self.place as usize;
        Job::released(workload.loads()[place], tick, place)
    }

    // What becomes of the job as a tick passes and tick `next` begins.
    pub(crate) fn passed(self, owner: Option<usize>, workload: &Workload, next: u32) -> Job
        requires task { self.place < size (loads_in workload.now) }
        requires waits { owner ≡ Some self.place → 0 < self.left }
        requires early { next ≤ 100000000 }
        ensures { result ≡ renewed (loads_in workload.now) next self.place (spent owner self.place self) }
    {
        self.spent(owner).renewed(workload, next)
    }
}

// The question which jobs have slots left.
#[derive(Clone, Copy, Debug, PartialEq)]
pub struct Waiting;

impl Entry<Waiting> for Job {
    ghost eligible = { λ _ j. nat_lt 0 j.left };

    ghost key = { λ j. j.due ∷ (j.place ∷ (j.release ∷ [])) };

    ghost before = { λ x y. earlier (key_of x) (key_of y) };

    ghost asymmetric = { Prim.search rules };

    ghost transitive = { Prim.search rules };

    ghost total = { Prim.search rules };

    ghost keyed = { Prim.search rules };

    fn is_eligible(&self, _question: &Waiting) -> bool {
        self.left > 0
    }

    // Due sooner; on equal due ticks the smaller place.
    fn comes_before(&self, other: &Job) -> bool {
        (self.due, self.place, self.release) < (other.due, other.place, other.release)
    }
}
