//! What a wake plan is.
ghost use Rattle.std.specs.Prelude.{◌≡◌};
ghost use Rattle.theory.specs.Laws.{cyclic};
ghost use Rattle.wake.specs.Plans.{Plan, rest_ticks};

use theory::Load;

// In which ticks of its cycle a board is awake. Its meaning, the member `plan`, holds the works and periods that it is for, their cycle
// and the awake ticks, together with the proof of the law: between any two ticks of the cycle there are at least as many awake ticks as
// the jobs released and due between them have work. No question changes a plan, and it refuses none.
pub trait WakePlan {
    ghost plan: { Self → Plan };

    // The works and periods that it is for, by place.
    fn loads(&self) -> &[Load]
        ensures { result.now ≡ (plan self.now).loads };

    // The ticks of its cycle.
    fn cycle(&self) -> u32
        ensures { result ≡ (plan self.now).cycle };

    // Whether the board is awake in a tick, cycle after cycle.
    fn is_awake(&self, tick: u32) -> bool
        ensures { result ≡ cyclic (plan self.now).cycle (plan self.now).awake tick };

    // In how many ticks from `a` up to but excluding `b` it rests; absent when a > b or b passes the cycle. A loop, since the proof of a
    // chain's `sum` did not close.
    fn rest_ticks(&self, a: u32, b: u32) -> Option<u32>
        ensures { result ≡ rest_ticks (plan self.now).cycle (plan self.now).awake a b }
    {
        if a > b || b > self.cycle() {
            return None;
        }
        let mut rests = 0;
        for tick in a..b {
            rests += u32::from(!self.is_awake(tick));
        }
        Some(rests)
    }
}
