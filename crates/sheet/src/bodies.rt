//! The bodies: the lines of each section, in the sequence of the contents.
ghost use Rattle.std.specs.Prelude.{◌≡◌, ◌+◌, ◌≤◌, [], IfOk};
ghost use Rattle.basis.specs.declared.fault.Reason.TheVariants.{Body};
ghost use Rattle.grammar.specs.Bodies.{items_from, untold, body_of, bodies_of};
ghost use Rattle.sheet.specs.Counts.{Counted};
ghost use Rattle.sheet.specs.Parts.{lines_of, left_with};
ghost use Rattle.sheet.specs.Views.{told_by, listed_in};

use crate::contents::Contents;
use crate::items::Item;
use crate::part::Part;
use crate::told::Told;
use basis::{Blank, Fault, Filling, Places};
use grammar::{Entry, Power, Reason, Section};

// Reads the first `count` lines of a part into places, and gives back the part after them. They are collected in a filling list, which
// takes entries of any kind and says when it is full.
fn read_items<'a, T: Item + Blank, const N: usize>(
    part: Part<'a>,
    count: usize,
    into: &mut Places<T, N>,
) -> Result<Part<'a>, Fault>
    requires few { count ≤ N }
    requires body { T.Item.MISSING ≡ Body }
    ensures line { IfOk result (λ p. p.line ≡ part.entry.line + count) }
    ensures value { left_with result into.new ≡ items_from T.Item.of part.entry.line count [] (lines_of part.entry) }
{
    let mut places = [T::BLANK; N];
    let mut items = Filling::new(&mut places);
    let rest = part.items(count, &mut items)?;
    *into = Places::of(items.entries());
    Ok(rest)
}

// Reads one body more from a part that starts with its heading. A `match` and no closures: each section fills a field of its own type.
fn read_body<'a>(entry: Entry, part: Part<'a>, told: &mut Told) -> Result<Part<'a>, Fault>
    requires counted { Counted entry }
    requires early { part.line ≤ 90 }
    ensures line { IfOk result (λ p. p.line ≡ part.entry.line + 1 + entry.count) }
    ensures value { left_with result (told_by told.new) ≡ body_of entry part.entry.line (told_by told.old) (lines_of part.entry) }
{
    let heading = part.line;
    let part = part.fixed(entry.section.heading(), Reason::Body)?;
    match entry.section {
        Section::Levels => {
            let rest = read_items(part, entry.count, &mut told.levels)?;
            told.levels_heading = heading;
            Ok(rest)
        }
        Section::Power => {
            let (power, rest) = part.item::<Power>()?;
            told.power = power;
            Ok(rest)
        }
        Section::Tasks => {
            let rest = read_items(part, entry.count, &mut told.tasks)?;
            told.tasks_heading = heading;
            Ok(rest)
        }
    }
}

// Reads the three bodies, and gives back what stands after them: the script.
pub(crate) fn read_bodies<'a>(contents: Contents<'a>, told: &mut Told) -> Result<Part<'a>, Fault>
    requires { told_by told.old ≡ untold }
    ensures { left_with result (told_by told.new) ≡ bodies_of (listed_in contents.entry) }
{
    let Contents {
        first,
        second,
        third,
        rest,
    } = contents;
    let rest = read_body(first, rest, told)?;
    let rest = read_body(second, rest, told)?;
    read_body(third, rest, told)
}
