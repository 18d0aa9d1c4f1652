//! Items: what a line is read to.
ghost use Rattle.std.specs.Prelude.{◌≡◌, ℕ, ◌+◌, ◌≤◌, List, length, drop, Result, IfOk, OnOk};
ghost use Rattle.basis.specs.declared.fault.Fault.{Fault};
ghost use Rattle.basis.specs.declared.fault.Reason.{Reason};
ghost use Rattle.basis.specs.declared.fault.Reason.TheVariants.{Body, Contents};
ghost use Rattle.basis.specs.Faults.{fault_at};
ghost use Rattle.basis.specs.Fillings.{entries_of, free_of, lent_of};
ghost use Rattle.grammar.specs.Bodies.{items_from};
ghost use Rattle.grammar.specs.Contents.{bad_contents, entry_of};
ghost use Rattle.grammar.specs.Fields.{level_of, power_of, task_of};
ghost use Rattle.grammar.specs.Texts.{first_of};
ghost use Rattle.sheet.specs.Parts.{lines_of, taken_in, left_with};

use crate::part::Part;
use basis::{Fault, Filling};
use grammar::{Entry, Power, Reason, TaskLine};
use lines::{read_entry, read_level, read_power, read_task};

// What a line is read to: a line of the contents, a level, the power figures or a task. An impl names the reader of its kind of line, a
// public call of `lines`.
pub(crate) trait Item: Copy + Sized {
    // Why a missing line is refused.
    ghost MISSING: { Reason };

    ghost of: { ℕ → List ℕ → Result Self Fault };

    const MISSING: Reason;

    // What a line says. A line and its number go no further than this call, and so are no type.
    fn read(line: &[u8], at: usize) -> Result<Self, Fault>
        ensures { result ≡ of at line.now };
}

impl Item for Entry {
    ghost MISSING = { Contents };

    ghost of = { λ at. entry_of (bad_contents at) };

    const MISSING: Reason = Reason::Contents;

    fn read(line: &[u8], at: usize) -> Result<Entry, Fault> {
        read_entry(line, Reason::Contents.at(at))
    }
}

impl Item for u8 {
    ghost MISSING = { Body };

    ghost of = { level_of };

    const MISSING: Reason = Reason::Body;

    fn read(line: &[u8], at: usize) -> Result<u8, Fault> {
        read_level(line, at)
    }
}

impl Item for Power {
    ghost MISSING = { Body };

    ghost of = { power_of };

    const MISSING: Reason = Reason::Body;

    fn read(line: &[u8], at: usize) -> Result<Power, Fault> {
        read_power(line, at)
    }
}

impl Item for TaskLine {
    ghost MISSING = { Body };

    ghost of = { task_of };

    const MISSING: Reason = Reason::Body;

    fn read(line: &[u8], at: usize) -> Result<TaskLine, Fault> {
        read_task(line, at)
    }
}

impl<'a> Part<'a> {
    // What its first line is read to, and the part after that.
    pub(crate) fn item<T: Item>(self) -> Result<(T, Part<'a>), Fault>
        ensures line { IfOk result (λ x. x.1.line ≡ self.entry.line + 1) }
        ensures value { taken_in result ≡ first_of (fault_at T.Item.MISSING self.entry.line) (T.Item.of self.entry.line) (lines_of self.entry) }
    {
        let Some((bytes, after)) = self.cut() else {
            return Err(T::MISSING.at(self.line));
        };
        let item = T::read(bytes, self.line)?;
        Ok((item, after))
    }

    // The part after its first `count` lines, which are read into a list.
    pub(crate) fn items<T: Item>(
        self,
        count: usize,
        items: &mut Filling<'_, T>,
    ) -> Result<Part<'a>, Fault>
        requires room { count ≤ length (free_of items.old) }
        requires body { T.Item.MISSING ≡ Body }
        ensures lent { lent_of items.new ≡ lent_of items.old }
        ensures free { OnOk result (free_of items.new ≡ drop count (free_of items.old)) }
        ensures line { IfOk result (λ p. p.line ≡ self.entry.line + count) }
        ensures value { left_with result (entries_of items.new) ≡ items_from T.Item.of self.entry.line count (entries_of items.old) (lines_of self.entry) }
    {
        let mut rest = self;
        // so many lines, and no index
        for _ in 0..count {
            let (item, after) = rest.item::<T>()?;
            match items.push(item) {
                Ok(()) => {}
                Err(_) => return Err(Reason::Body.at(rest.line)),
            }
            rest = after;
        }
        Ok(rest)
    }
}
