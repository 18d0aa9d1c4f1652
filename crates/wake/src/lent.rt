//! A plan that is lent is a plan.
ghost use Rattle.std.specs.Prelude.{◌≡◌};

use crate::plan::WakePlan;
use theory::Load;

impl<'b, W: WakePlan> WakePlan for &'b W {
    ghost plan = { λ p. W.WakePlan.plan p.now };

    fn loads(&self) -> &[Load] {
        (**self).loads()
    }

    fn cycle(&self) -> u32 {
        (**self).cycle()
    }

    fn is_awake(&self, tick: u32) -> bool {
        (**self).is_awake(tick)
    }

    fn rest_ticks(&self, a: u32, b: u32) -> Option<u32> {
        (**self).rest_ticks(a, b)
    }
}
