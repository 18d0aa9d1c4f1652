//! The theory of one board that serves one slot of work in a tick and sleeps in some ticks.
#![tactic(auto)]

ghost use Rattle.theory.specs.Laws.{AlwaysKeepsLaw};
ghost use Rattle.theory.specs.Lates.{LateKeepsLaw};

use basis::Blank;

// What a periodic task asks of a board: `work` slots in each span of `period` ticks.
#[derive(Clone, Copy, Debug, PartialEq)]
pub struct Load {
    pub work: u32,
    pub period: u32,
}

// What stands in a place that no task uses.
impl Blank for Load {
    ghost use Rattle.theory.specs.Loads.{no_load};

    ghost BLANK = { no_load };

    const BLANK: Load = Load { work: 0, period: 0 };
}

// A theorem: always awake keeps the law wherever the load fits the cycle.
pub fn always_keeps_law()
    ensures { AlwaysKeepsLaw }
{}

// A theorem: so does the plan that works as late as it can, and it leaves no work over.
pub fn late_keeps_law()
    ensures { LateKeepsLaw }
{}
