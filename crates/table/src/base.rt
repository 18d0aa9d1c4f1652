//! The base level: the lowest level at which a task set fits its cycle.
ghost use Rattle.std.specs.Prelude.{◌≡◌, [], ◌∷◌, map, nat_le, nat_lt, option_map};
ghost use Rattle.theory.specs.Loads.{load};
ghost use Rattle.table.specs.Allowances.{allowed, fits_at, base_of, Levels};
ghost use Rattle.table.specs.Rungs.{rung_at};
ghost use Rattle.std.proofs.Common.{rules};

use crate::cycle::Turn;
use crate::level::Level;
use crate::tasks::TaskSet;
use basis::{Blank, Entry, Places, pick};

// A level in percent, with the allowances at it that fall due in a cycle.
#[derive(Clone, Copy)]
pub(crate) struct Rung {
    level: u8,
    demand: u64,
}

// What stands in a place that no level uses.
impl Blank for Rung {
    ghost use Rattle.table.specs.Rungs.{no_rung};

    ghost BLANK = { no_rung };

    const BLANK: Rung = Rung {
        level: 0,
        demand: 0,
    };
}

// A level is eligible where its allowances fit the cycle, and the lower of two comes first.
impl Entry<Turn> for Rung {
    ghost eligible = { λ turn x. nat_le x.demand turn.ticks };

    ghost key = { λ x. x.level ∷ [] };

    ghost before = { λ x y. nat_lt x.level y.level };

    ghost asymmetric = { Prim.search rules };

    ghost transitive = { Prim.search rules };

    ghost total = { Prim.search rules };

    ghost keyed = { Prim.search rules };

    fn is_eligible(&self, turn: &Turn) -> bool {
        self.demand <= u64::from(turn.ticks)
    }

    fn comes_before(&self, other: &Rung) -> bool {
        self.level < other.level
    }
}

impl TaskSet {
    // The allowances at a level that fall due in a cycle. A loop, since the `sum` of a chain is no nearer to the sum over the places.
    fn demand(&self, level: Level, turn: Turn) -> u64
        ensures { result ≡ load (allowed level.percent self.now.loads) turn.ticks }
    {
        let mut sum = 0;
        for load in self.loads.entries() {
            let allowance = level.allowance(load.work);
            sum += u64::from(allowance) * u64::from(turn.ticks / load.period);
        }
        sum
    }

    // Each level with its demand.
    fn rungs(&self, levels: &[u8], turn: Turn) -> Places<Rung, 8>
        requires { Levels levels.now }
        ensures { result ≡ map (rung_at self.now.loads turn.ticks) levels.now }
    {
        Places::mapped(
            levels,
            |percent| Rung {
                level: percent,
                demand: self.demand(Level::new(percent), turn),
            },
        )
    }

    // The lowest level that fits, if one does.
    pub(crate) fn base(&self, levels: &[u8], turn: Turn) -> Option<Level>
        requires { Levels levels.now }
        ensures { option_map (λ level. level.percent) result ≡ base_of levels.now (fits_at self.now.loads turn.ticks) }
    {
        let rungs = self.rungs(levels, turn);
        let place = pick(rungs.entries(), &turn)?;
        Some(Level::new(levels[place]))
    }
}
