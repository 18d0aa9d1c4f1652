ghost use Rattle.std.specs.Prelude.{◌≡◌, ℕ, ◌<◌, ◌≤◌, true, length};
ghost use Rattle.grammar.specs.Tasks.{rising};
ghost use Rattle.theory.specs.Loads.{size, work, period};
ghost use Rattle.table.specs.Workloads.{loads_in, turn_of};
ghost use Rattle.table.specs.Allowances.{allowance, has};

pub mod calls;

use crate::level::Level;
use crate::workload::Workload;
use basis::Places;
use grammar::{Name, Power};

// A task set with the levels and the power of its boards, which fits its cycle at the base level. Only admission makes one, and the blank.
// Names, works and allowances are lists of their own, by place: each board serves one of the two, and its plan lends that one as it is.
#[derive(Clone, Copy)]
pub struct Table {
    names: Places<Name, 16>,
    works: Workload,
    // the ticks that the works take at the base level
    allowances: Workload,
    // in percent
    levels: Places<u8, 8>,
    base: Level,
    power: Power,
    ghost one_number: { length names ≡ size (loads_in works) },
    ghost one_cycle: { turn_of allowances ≡ turn_of works },
    ghost one_size: { size (loads_in allowances) ≡ size (loads_in works) },
    ghost one_period: { (i : ℕ) → i < size (loads_in works) → period (loads_in allowances) i ≡ period (loads_in works) i },
    ghost at_base: { (i : ℕ) → i < size (loads_in works) → work (loads_in allowances) i ≡ allowance base.percent (work (loads_in works) i) },
    ghost works_some: { (i : ℕ) → i < size (loads_in works) → 0 < work (loads_in works) i },
    ghost level_few: { length levels ≤ 8 },
    ghost level_order: { rising 0 levels ≡ true },
    ghost base_known: { has base.percent levels ≡ true },
}
