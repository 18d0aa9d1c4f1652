//! The plan that is always awake.
ghost use Rattle.std.specs.Prelude.{◌≡◌};
ghost use Rattle.wake.specs.Plans.{always_of};

use crate::plan::WakePlan;
use table::Workload;
use theory::Load;

// Awake in each tick, for any workload. The primary follows it, with allowances as works.
#[derive(Clone, Copy)]
pub struct Always {
    pub workload: Workload,
}

impl WakePlan for Always {
    ghost plan = { λ p. always_of p.workload };

    fn loads(&self) -> &[Load] {
        self.workload.loads()
    }

    fn cycle(&self) -> u32 {
        self.workload.cycle()
    }

    fn is_awake(&self, _tick: u32) -> bool {
        true
    }

    // It rests in no tick. At once, where the answer that plans share asks tick by tick.
    fn rest_ticks(&self, a: u32, b: u32) -> Option<u32> {
        if a <= b && b <= self.workload.cycle() {
            Some(0)
        } else {
            None
        }
    }
}
