//! Levels of speed, and what a work takes at one.
ghost use Rattle.std.specs.Prelude.{◌≡◌, ◌<◌, ◌≤◌};
ghost use Rattle.table.specs.Allowances.{allowance};

// A level in percent, from 1 to 100.
#[derive(Clone, Copy)]
pub(crate) struct Level {
    pub(crate) percent: u8,
    ghost some: { 0 < percent },
    ghost most: { percent ≤ 100 },
}

impl Level {
    // The level of some percent.
    pub(crate) fn new(percent: u8) -> Level
        requires { (0 < percent) × (percent ≤ 100) }
        ensures { result.percent ≡ percent }
    {
        Level { percent }
    }

    // The ticks that a work takes at this level, rounded up.
    pub(crate) fn allowance(self, work: u32) -> u32
        requires { work ≤ 30000 }
        ensures value { result ≡ allowance self.percent work }
        ensures small { result ≤ 3000099 }
    {
        (100 * work).div_ceil(u32::from(self.percent))
    }
}
