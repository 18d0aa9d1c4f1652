//! Ticks in which a board is awake, and who owns them.
ghost use Rattle.std.specs.Prelude.{◌≡◌, ◌≤◌, map, length, IfOk};
ghost use Rattle.std.specs.List.{range_with_len};
ghost use Rattle.theory.specs.Laws.{cyclic};
ghost use Rattle.theory.specs.Slots.{is, owns};
ghost use Rattle.table.specs.Workloads.{loads_in, turn_of};
ghost use Rattle.wake.specs.Edls.{planned_of};
ghost use Rattle.console.specs.Pages.{rests_in};

use std::alloc::{AllocError, Global};
use table::Workload;
use wake::{EdlPlan, SlotMachine, WakePlan};

// Of each tick of its cycle, whether a board that follows a plan is awake in it.
pub(crate) fn awake_marks<W: WakePlan>(heap: Global, plan: &W) -> Result<Vec<bool>, AllocError>
    ensures { IfOk result (λ v. v.items ≡ map (cyclic (W.WakePlan.plan plan.now).cycle (W.WakePlan.plan plan.now).awake) (range_with_len 0 (W.WakePlan.plan plan.now).cycle)) }
{
    (0..plan.cycle()).map(|t| plan.is_awake(t)).collect(heap)
}

// In how many ticks of its cycle a board that follows a plan rests.
#[tactic(auto, using(crate::proofs::Rests::whole_cycle))]
pub(crate) fn cycle_rests<W: WakePlan>(plan: &W) -> u32
    ensures { result ≡ rests_in (W.WakePlan.plan plan.now).cycle (W.WakePlan.plan plan.now).awake }
{
    plan.rest_ticks(0, plan.cycle()).unwrap_or(0)
}

// The plan that works as late as it can, in memory with a byte for each tick of the cycle.
pub(crate) fn late_plan<'a>(memory: &'a mut [u8], workload: &Workload) -> EdlPlan<'a>
    requires { turn_of workload.now ≤ length memory.old }
    ensures { planned_of result ≡ workload.now }
{
    let mut plan = EdlPlan::blank(memory);
    let Ok(()) = plan.lay(workload) else {
        unreachable!()
    };
    plan
}

// Who owns each of the first `n` ticks of a board that serves a workload and follows a plan. A loop and no chain: the contract of a
// closure that steps the machine tells a chain nothing.
pub(crate) fn owners<W: WakePlan>(
    heap: Global,
    workload: &Workload,
    plan: &W,
    n: u32,
) -> Result<Vec<Option<usize>>, AllocError>
    requires { n ≤ 100000000 }
    ensures { IfOk result (λ v. v.items ≡ map (owns (loads_in workload.now) (cyclic (W.WakePlan.plan plan.now).cycle (W.WakePlan.plan plan.now).awake)) (range_with_len 0 n)) }
{
    let mut machine = SlotMachine::start(workload);
    let mut owners = Vec::new(heap);
    for t in 0..n {
        owners.push(machine.pass(plan.is_awake(t)))?;
    }
    Ok(owners)
}

// Of each tick with an owner, whether the place owns it.
#[tactic(auto, unfolding(theory::specs::Slots::is))]
pub(crate) fn owned_marks(
    heap: Global,
    owners: &[Option<usize>],
    place: usize,
) -> Result<Vec<bool>, AllocError>
    ensures { IfOk result (λ v. v.items ≡ map (is place) owners.now) }
{
    owners
        .iter()
        .map(
            |owner|
                ensures { result ≡ is place owner.now }
            { *owner == Some(place) },
        )
        .collect(heap)
}
