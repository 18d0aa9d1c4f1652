//! The contents: which sections follow in which sequence, and how many lines each has.
ghost use Rattle.std.specs.Prelude.{◌≡◌};
ghost use Rattle.grammar.specs.Texts.{lines};
ghost use Rattle.grammar.specs.Contents.{other_than, contents_of};
ghost use Rattle.sheet.specs.Views.{contents_in};

use crate::contents::Contents;
use crate::part::Part;
use basis::Fault;
use grammar::{Entry, Reason};

// Refuses line `at` where its section has a line before it.
fn check_other(before: Entry, entry: Entry, at: usize) -> Result<(), Fault>
    ensures { result ≡ other_than before entry at }
{
    if before.section == entry.section {
        return Err(Reason::Contents.at(at));
    }
    Ok(())
}

// The contents at the front of a file: their heading, a line for each section, and their end.
pub(crate) fn read_contents(text: &[u8]) -> Result<Contents<'_>, Fault>
    ensures { contents_in result ≡ contents_of (lines text.now) }
{
    let rest = Part { text, line: 1 }.fixed(b"contents", Reason::Contents)?;
    let (first, rest) = rest.item::<Entry>()?;
    let (second, rest) = rest.item::<Entry>()?;
    check_other(first, second, 3)?;
    let (third, rest) = rest.item::<Entry>()?;
    check_other(first, third, 4)?;
    check_other(second, third, 4)?;
    let rest = rest.fixed(b"end", Reason::Contents)?;
    Ok(Contents {
        first,
        second,
        third,
        rest,
    })
}
