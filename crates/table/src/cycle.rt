//! The cycle of a task set.
ghost use Rattle.std.specs.Prelude.{◌≡◌, ◌<◌, ◌≤◌, length, Some, None, MatchResult};
ghost use Rattle.table.specs.Cycles.{cycle_of, long_at, Least};

use crate::common::lcm;
use crate::tasks::TaskSet;

// The most ticks that a cycle may have.
const LONGEST: u32 = 30000;

// The ticks of a cycle, of which it has at most 30,000.
#[derive(Clone, Copy)]
pub(crate) struct Turn {
    pub(crate) ticks: u32,
    ghost short: { ticks ≤ 30000 },
}

impl TaskSet {
    // The least common multiple of the periods, or the first place at which it passes the most ticks of a cycle.
    pub(crate) fn cycle(&self) -> Result<Turn, usize>
        ensures { MatchResult result
            (λ turn. (cycle_of self.now.loads ≡ Some turn.ticks) × Least self.now.loads turn.ticks)
            (λ i. (cycle_of self.now.loads ≡ None) × (long_at self.now.loads (length self.now.loads) ≡ Some i) × (i < length self.now.loads)) }
    {
        let mut ticks = 1;
        for (place, load) in self.loads.entries().iter().enumerate() {
            let longer = lcm(ticks, load.period);
            if longer > LONGEST {
                return Err(place);
            }
            ticks = longer;
        }
        Ok(Turn { ticks })
    }
}
