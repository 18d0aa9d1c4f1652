//! A line of the contents.
ghost use Rattle.std.specs.Prelude.{◌≡◌, ◌≤◌, IfOk};
ghost use Rattle.grammar.specs.Contents.{most_lines, entry_of};

use crate::tail::Tail;
use crate::words::Word;
use basis::Fault;
use grammar::{Entry, Section};

// The section and the count on a line of the contents, or the fault that it is given.
pub fn read_entry(line: &[u8], fault: Fault) -> Result<Entry, Fault>
    ensures few { IfOk result (λ e. e.count ≤ most_lines e.section) }
    ensures value { result ≡ entry_of fault line.now }
{
    let Some((Word::Name { text, .. }, Some(rest))) = Tail::of(line).next_word() else {
        return Err(fault);
    };
    let Some(section) = Section::named(text) else {
        return Err(fault);
    };
    let Some((Word::Number { value: count, .. }, None)) = rest.next_word() else {
        return Err(fault);
    };
    if count < 1 || count > section.most_lines() {
        return Err(fault);
    }
    Ok(Entry {
        section,
        // there is no `From` between these
        count: count as usize,
    })
}
