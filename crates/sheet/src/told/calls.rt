//! Nothing told yet.
ghost use Rattle.std.specs.Prelude.{◌≡◌};
ghost use Rattle.grammar.specs.Bodies.{untold};
ghost use Rattle.sheet.specs.Views.{told_by};

use crate::told::Told;
use basis::Places;
use grammar::task::NO_POWER;

impl Told {
    // What stands before the first body.
    pub(crate) fn nothing() -> Told
        ensures { told_by result ≡ untold }
    {
        Told {
            levels: Places::new(),
            levels_heading: 0,
            power: NO_POWER,
            tasks: Places::new(),
            tasks_heading: 0,
        }
    }
}
