//! What the program `spare` prints.
ghost use Rattle.std.specs.Prelude.{◌≡◌, ◌++◌, map, length, is_ok, IfOk, Ok, Err, MatchResult, OnOk};
ghost use Rattle.std.specs.List.{range_with_len};
ghost use Rattle.table.specs.Tables.{admitted};
ghost use Rattle.theory.specs.Slots.{is};
ghost use Rattle.console.specs.Pages.{refusal_text, task_line, task_text, joined, awake_lines, awake_text, owned_line, first_text, primary_owner, spare_owner, plan_text, page_text, table_in, text_of, is_plan};

use crate::text::Text;
use crate::ticks::{awake_marks, cycle_rests, late_plan, owned_marks, owners};
use basis::Fault;
use grammar::Name;
use sheet::Sheet;
use std::alloc::{AllocError, Global};
use table::Table;
use theory::Load;
use wake::{Always, WakePlan};

// Adds a refusal as a line: `refused NUMBER LAYER line LINE`. Stays beside `Display`: other programs may call it.
pub fn put_refusal(out: &mut Vec<u8>, heap: Global, fault: Fault) -> Result<(), AllocError>
    ensures { OnOk result (out.new.items ≡ out.old.items ++ refusal_text fault) }
{
    let line = format!(in heap; "{fault}\n")?;
    out.extend_from_slice(line.as_bytes())
}

impl Text {
    // Adds the line of a task.
    fn put_task(&mut self, name: Name, load: Load, allowance: u32) -> Result<(), AllocError>
        ensures { OnOk result (self.new ≡ self.old ++ task_line name load allowance) }
    {
        let Load { work, period } = load;
        self.put(name.text())?;
        write!(self, " work {work} period {period} allowance {allowance}\n")?;
        Ok(())
    }

    // Adds the lines of all tasks.
    #[tactic(auto, using(crate::proofs::Joins::joined_more), unfolding(crate::specs::Pages::task_text))]
    fn put_tasks(&mut self, table: &Table) -> Result<(), AllocError>
        ensures { OnOk result (self.new ≡ self.old ++ joined (task_text (admitted table.now)) (length (admitted table.now).names)) }
    {
        let loads = table.works().loads();
        let allowances = table.allowances().loads();
        for ((name, load), allowance) in table.names().iter().zip(loads).zip(allowances) {
            self.put_task(*name, *load, allowance.work)?;
        }
        Ok(())
    }

    // Adds a plan's awake ticks as spans, and the numbers of awake and of rest ticks.
    fn put_awake<W: WakePlan>(&mut self, plan: &W) -> Result<(), AllocError>
        ensures { OnOk result (self.new ≡ self.old ++ awake_lines (W.WakePlan.plan plan.now).cycle (W.WakePlan.plan plan.now).awake) }
    {
        let marks = awake_marks(self.heap(), plan)?;
        let rests = cycle_rests(plan);
        let awake = plan.cycle().saturating_sub(rests);
        self.put(b"awake")?;
        self.put_spans(marks.as_slice())?;
        write!(self, "\nawake ticks {awake} rest ticks {rests}\n")?;
        Ok(())
    }

    // Adds the line of a task's first job, from the owners of the ticks of both boards up to its deadline.
    fn put_first(
        &mut self,
        name: Name,
        place: usize,
        primary: &[Option<usize>],
        spare: &[Option<usize>],
    ) -> Result<(), AllocError>
        ensures { OnOk result (self.new ≡ self.old ++ owned_line name (map (is place) primary.now) (map (is place) spare.now)) }
    {
        let main_marks = owned_marks(self.heap(), primary, place)?;
        let backup_marks = owned_marks(self.heap(), spare, place)?;
        self.put(name.text())?;
        self.put(b" primary")?;
        self.put_spans(main_marks.as_slice())?;
        self.put(b" spare")?;
        self.put_spans(backup_marks.as_slice())?;
        self.put(b"\n")?;
        Ok(())
    }

    // Adds the lines of all first jobs, from the owners of the ticks of one cycle on both boards. The loads are read by place: zipped
    // and counted at once, the proof did not close.
    fn put_firsts(
        &mut self,
        table: &Table,
        primary: &[Option<usize>],
        spare: &[Option<usize>],
    ) -> Result<(), AllocError>
        requires primary { primary.now ≡ map (primary_owner (admitted table.now)) (range_with_len 0 (admitted table.now).cycle) }
        requires spare { spare.now ≡ map (spare_owner (admitted table.now)) (range_with_len 0 (admitted table.now).cycle) }
        ensures { OnOk result (self.new ≡ self.old ++ joined (first_text (admitted table.now)) (length (admitted table.now).names)) }
    {
        let loads = table.works().loads();
        for (place, name) in table.names().iter().enumerate() {
            // there is no `From` between these
            let period = loads[place].period as usize;
            self.put_first(*name, place, &primary[..period], &spare[..period])?;
        }
        Ok(())
    }

    // Adds the plan of the spare, and the first jobs on both boards.
    fn put_boards(&mut self, table: &Table) -> Result<(), AllocError>
        ensures { OnOk result (self.new ≡ self.old ++ (awake_text (admitted table.now) ++ joined (first_text (admitted table.now)) (length (admitted table.now).names))) }
    {
        let works = table.works();
        let cycle = works.cycle();
        // there is no `From` between these
        let mut memory = vec![in self.heap(); 0u8; cycle as usize]?;
        let plan = late_plan(&mut memory, works);
        self.put_awake(&plan)?;
        let always = Always {
            workload: *table.allowances(),
        };
        let primary = owners(self.heap(), table.allowances(), &always, cycle)?;
        let spare = owners(self.heap(), works, &plan, cycle)?;
        self.put_firsts(table, primary.as_slice(), spare.as_slice())?;
        Ok(())
    }

    // Adds all that is said of an admitted table.
    #[tactic(auto, unfolding(crate::specs::Pages::plan_text))]
    fn put_plan(&mut self, table: &Table) -> Result<(), AllocError>
        ensures { OnOk result (self.new ≡ self.old ++ plan_text (admitted table.now)) }
    {
        let cycle = table.works().cycle();
        let base = table.base();
        write!(self, "cycle {cycle}\nbase {base}\n")?;
        self.put_tasks(table)?;
        self.put_boards(table)?;
        Ok(())
    }
}

// Reads a machine file and admits its table. A refusal leaves the table what it was.
#[tactic(auto, using(crate::proofs::Tables::table_refused, crate::proofs::Tables::table_done))]
fn admit(text: &[u8], table: &mut Table) -> Result<(), Fault>
    ensures { MatchResult result (λ _. table_in text.now ≡ Ok (admitted table.new)) (λ fault. table_in text.now ≡ Err fault) }
{
    let mut sheet = Sheet::blank();
    sheet.read(text)?;
    table.admit(&sheet)?;
    Ok(())
}

// What the program prints: the plan of an admitted table, or why the file is refused.
#[derive(Drop)]
pub enum Page {
    Plan(Vec<u8>),
    Refusal(Vec<u8>),
}

impl Page {
    // Its bytes.
    pub fn text(&self) -> &[u8]
        ensures { result.now ≡ text_of self.now }
    {
        match self {
            Page::Plan(text) | Page::Refusal(text) => text.as_slice(),
        }
    }

    // Whether it is a plan and no refusal.
    pub fn is_plan(&self) -> bool
        ensures { result ≡ is_plan self.now }
    {
        matches!(self, Page::Plan(_))
    }
}

// The page for a machine file: the plan of its table, or why it is refused.
pub fn spare_page(heap: Global, text: &[u8]) -> Result<Page, AllocError>
    ensures text { IfOk result (λ p. text_of p ≡ page_text (table_in text.now)) }
    ensures plan { IfOk result (λ p. is_plan p ≡ is_ok (table_in text.now)) }
{
    let mut table = Table::blank();
    match admit(text, &mut table) {
        Ok(()) => {
            let mut plan = Text::new(heap);
            plan.put_plan(&table)?;
            Ok(Page::Plan(plan.into_bytes()))
        }
        Err(fault) => {
            let mut refusal = Vec::new(heap);
            put_refusal(&mut refusal, heap, fault)?;
            Ok(Page::Refusal(refusal))
        }
    }
}
