//! The lines of the bodies, word by word: a level, the power figures, a task.
ghost use Rattle.std.specs.Prelude.{◌≡◌, ◌≤◌, length, IfOk};
ghost use Rattle.grammar.specs.Fields.{bad_line, word_in, next_name, next_number, last_number, level_of, power_of, task_of};
ghost use Rattle.lines.specs.Views.{seen_tail, name_in, number_in};

use crate::tail::Tail;
use crate::words::Word;
use basis::Fault;
use grammar::{Name, Power, Reason, TaskLine};

// The highest power figure, in milliwatts.
const MOST_POWER: u32 = 10_000;

// The longest work or period, in ticks.
const MOST_TICKS: u32 = 30_000;

// The words of a line of a body that are not read yet, and the fault of the line where they are not of its form.
#[derive(Clone, Copy)]
struct Fields<'a> {
    tail: Tail<'a>,
    fault: Fault,
}

impl<'a> Fields<'a> {
    // All words of line `at` of the file.
    fn of(line: &'a [u8], at: usize) -> Fields<'a>
        ensures left { seen_tail result.tail ≡ (0, line.now) }
        ensures fault { result.fault ≡ bad_line at }
    {
        Fields {
            tail: Tail::of(line),
            fault: Reason::Body.at(at),
        }
    }

    // A name with more words after it.
    fn name(self) -> Result<(&'a [u8], Fields<'a>), Fault>
        ensures short { IfOk result (λ x. length x.0.now ≤ 8) }
        ensures fault { IfOk result (λ x. x.1.fault ≡ self.entry.fault) }
        ensures value { name_in result ≡ next_name self.entry.fault (word_in (seen_tail self.entry.tail)) }
    {
        let Some((Word::Name { text, .. }, Some(tail))) = self.tail.next_word() else {
            return Err(self.fault);
        };
        Ok((text, Fields { tail, ..self }))
    }

    // A number from `low` to `high` with more words after it.
    fn number(self, low: u32, high: u32) -> Result<(u32, Fields<'a>), Fault>
        ensures fault { IfOk result (λ x. x.1.fault ≡ self.entry.fault) }
        ensures value { number_in result ≡ next_number self.entry.fault low high (word_in (seen_tail self.entry.tail)) }
    {
        let Some((Word::Number { value, .. }, Some(tail))) = self.tail.next_word() else {
            return Err(self.fault);
        };
        if value < low || value > high {
            return Err(self.fault);
        }
        Ok((value, Fields { tail, ..self }))
    }

    // A number from `low` to `high` as the last word. (The two stay apart: one gives words that are left, the other must have none.)
    fn last_number(self, low: u32, high: u32) -> Result<u32, Fault>
        ensures within { IfOk result (λ v. (low ≤ v) × (v ≤ high)) }
        ensures value { result ≡ last_number self.entry.fault low high (word_in (seen_tail self.entry.tail)) }
    {
        let Some((Word::Number { value, .. }, None)) = self.tail.next_word() else {
            return Err(self.fault);
        };
        if value < low || value > high {
            return Err(self.fault);
        }
        Ok(value)
    }
}

// The level on line `at` of the file, in percent.
pub fn read_level(line: &[u8], at: usize) -> Result<u8, Fault>
    ensures { result ≡ level_of at line.now }
{
    let level = Fields::of(line, at).last_number(1, 100)?;
    // it fits, and `u8::try_from` would add a refusal that cannot be
    Ok(level as u8)
}

// The power figures on line `at` of the file.
pub fn read_power(line: &[u8], at: usize) -> Result<Power, Fault>
    ensures { result ≡ power_of at line.now }
{
    let (static_mw, rest) = Fields::of(line, at).number(0, MOST_POWER)?;
    let (steady_mw, rest) = rest.number(0, MOST_POWER)?;
    let switching_mw = rest.last_number(0, MOST_POWER)?;
    Ok(Power {
        static_mw,
        steady_mw,
        switching_mw,
    })
}

// The task on line `at` of the file. (Like the power figures, but other fields of other types.)
pub fn read_task(line: &[u8], at: usize) -> Result<TaskLine, Fault>
    ensures { result ≡ task_of at line.now }
{
    let (text, rest) = Fields::of(line, at).name()?;
    let (work, rest) = rest.number(1, MOST_TICKS)?;
    let period = rest.last_number(1, MOST_TICKS)?;
    Ok(TaskLine {
        name: Name::of(text),
        work,
        period,
    })
}
