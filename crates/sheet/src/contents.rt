ghost use Rattle.std.specs.Prelude.{◌≡◌};
ghost use Rattle.sheet.specs.Counts.{Counted};

pub mod calls;

use crate::part::Part;
use grammar::Entry;

// The three sections in the sequence of the file, and what stands after the contents.
#[derive(Clone, Copy, Debug)]
pub struct Contents<'a> {
    pub first: Entry,
    pub second: Entry,
    pub third: Entry,
    pub rest: Part<'a>,
    ghost first_counted: { Counted first },
    ghost second_counted: { Counted second },
    ghost third_counted: { Counted third },
    ghost line: { rest.line ≡ 6 },
}
