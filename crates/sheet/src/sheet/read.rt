//! The reader of machine files.
ghost use Rattle.std.specs.Prelude.{◌≡◌, OnErr};
ghost use Rattle.grammar.specs.Files.{read_of, answer_of, filled_by, file_of, unread_of, content_after};
ghost use Rattle.grammar.specs.Refusals.{ReadAs};
ghost use Rattle.grammar.specs.Sheets.{blank_content};
ghost use Rattle.sheet.specs.Parts.{left_with};
ghost use Rattle.sheet.specs.Sheets.{content};
ghost use Rattle.sheet.specs.Views.{unread_in};

use crate::bodies::read_bodies;
use crate::contents::calls::read_contents;
use crate::part::Part;
use crate::passes::{check_levels, check_tasks};
use crate::script::ScriptText;
use crate::sheet::Sheet;
use crate::told::Told;
use basis::Fault;
use lines::check_bytes;

// Fills the sheet in once every pass has let the text through, and gives back what stands after its bodies. A refusal leaves the sheet
// blank.
fn read_passes<'a>(text: &'a [u8], sheet: &mut Sheet) -> Result<Part<'a>, Fault>
    ensures value { left_with result (content sheet.new) ≡ file_of text.now }
    ensures blank { OnErr result (content sheet.new ≡ blank_content) }
{
    *sheet = Sheet::blank();
    check_bytes(text)?;
    let contents = read_contents(text)?;
    let mut told = Told::nothing();
    let script = read_bodies(contents, &mut told)?;
    check_levels(told.levels.entries(), told.levels_heading)?;
    check_tasks(told.tasks.entries(), told.tasks_heading + 1)?;
    *sheet = Sheet {
        levels: told.levels,
        power: told.power,
        tasks: told.tasks,
        first_task: told.tasks_heading + 1,
    };
    Ok(script)
}

impl Sheet {
    // Fills the sheet in from a machine file. A text that is none leaves it blank, and the fault says why and on which line.
    pub fn read(&mut self, text: &[u8]) -> Result<(), Fault>
        ensures answer { result ≡ answer_of (read_of text.now) }
        ensures filled { content self.new ≡ filled_by (read_of text.now) }
    {
        read_passes(text, self)?;
        Ok(())
    }

    // Fills the sheet in, pass by pass. A refusal leaves it blank. Apart from `read_file`, whose clause `grammar` is proved of its answer.
    fn fill<'a>(&mut self, text: &'a [u8]) -> Result<ScriptText<'a>, Fault>
        ensures answer { unread_in result ≡ unread_of (file_of text.now) }
        ensures filled { content self.new ≡ content_after (file_of text.now) }
    {
        let script = read_passes(text, self)?;
        let items = self.levels().len() + self.tasks().len();
        let part = Part {
            text: script.text,
            line: 10 + items,
        };
        Ok(ScriptText { part })
    }

    // Fills the sheet in from a machine file, and answers what stands after its bodies. A text that is none leaves the sheet blank, and the
    // fault says why and on which line.
    pub fn read_file<'a>(&mut self, text: &'a [u8]) -> Result<ScriptText<'a>, Fault>
        ensures answer { unread_in result ≡ unread_of (file_of text.now) }
        ensures filled { content self.new ≡ content_after (file_of text.now) }
        ensures grammar { ReadAs text.now (unread_in result) (content self.new) }
    {
        self.fill(text)
    }
}
