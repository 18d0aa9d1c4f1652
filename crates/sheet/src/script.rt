//! The script: the lines after the bodies of a machine file.
ghost use Rattle.std.specs.Prelude.{◌≡◌, [], ◌∷◌, MatchOption};
ghost use Rattle.std.specs.Iterator.{item_count};
ghost use Rattle.grammar.specs.Refusals.{ScriptReadAs};
ghost use Rattle.grammar.specs.Scripts.{script_from};
ghost use Rattle.sheet.specs.Parts.{lines_of};
ghost use Rattle.sheet.specs.Views.{start_in, lines_in, passed_by, letters_in, script_in};

use crate::part::Part;
use basis::Fault;
pub use grammar::Letters;
use lines::next_line;
pub use lines::script_line;

// What stands after the bodies of a machine file, unread as yet. Only the reader of sheets makes one.
#[derive(Clone, Copy)]
pub struct ScriptText<'a> {
    pub(crate) part: Part<'a>,
}

// The lines of a script that are not taken yet, each of two letters. Only reading makes one.
#[derive(Clone, Copy)]
pub struct Script<'a> {
    text: &'a [u8],
}

// Names the first line of a part that is not of the script's form.
fn check_script(part: Part<'_>) -> Result<(), Fault>
    ensures { result ≡ passed_by (script_from part.entry.line (lines_of part.entry)) }
{
    let mut rest = part;
    while let Some((bytes, after)) = rest.cut() {
        script_line(bytes, rest.line)?;
        rest = after;
    }
    Ok(())
}

impl<'a> ScriptText<'a> {
    // The line of the file on which it starts.
    pub fn first_line(&self) -> usize
        ensures { result ≡ start_in self.now }
    {
        self.part.line
    }
}

impl<'a> Script<'a> {
    // The script whose lines have passed. Apart from `read`, whose clause `grammar` is proved of its answer.
    fn checked(text: ScriptText<'a>) -> Result<Script<'a>, Fault>
        ensures { script_in result ≡ script_from (start_in text.entry) (lines_in text.entry) }
    {
        check_script(text.part)?;
        Ok(Script {
            text: text.part.text,
        })
    }

    // Reads the script after a sheet, or names the first line that is not of its form.
    pub fn read(text: ScriptText<'a>) -> Result<Script<'a>, Fault>
        ensures answer { script_in result ≡ script_from (start_in text.entry) (lines_in text.entry) }
        ensures grammar { ScriptReadAs (start_in text.entry) (lines_in text.entry) (script_in result) }
    {
        Script::checked(text)
    }
}

// Its letters, line by line.
impl<'a> Iterator for Script<'a> {
    type Item = Letters;

    ghost next_gives = { λ s r t. MatchOption r ((letters_in s ≡ []) × (t ≡ s)) (λ x. letters_in s ≡ x ∷ letters_in t) };

    ghost remaining = { item_count letters_in };

    // Takes the letters of the next line, or none at the end.
    fn next(&mut self) -> Option<Letters> {
        let (line, after) = next_line(self.text)?;
        let letters = script_line(line, 0).ok()?;
        self.text = after;
        Some(letters)
    }
}
