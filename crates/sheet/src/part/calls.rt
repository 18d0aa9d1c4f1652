//! The lines of a part.
ghost use Rattle.std.specs.Prelude.{◌≡◌, ◌+◌, ◌<◌, [], ◌∷◌, length, IfOk, IfSome, MatchOption};
ghost use Rattle.basis.specs.Faults.{fault_at};
ghost use Rattle.grammar.specs.Contents.{fixed_line_of};
ghost use Rattle.grammar.specs.Texts.{lines};
ghost use Rattle.sheet.specs.Parts.{rest_in};

use crate::part::Part;
use basis::Fault;
use grammar::{Reason, same};
use lines::next_line;

impl<'a> Part<'a> {
    // Its first line, and the part after that.
    pub(crate) fn cut(self) -> Option<(&'a [u8], Part<'a>)>
        ensures cut { MatchOption result (lines self.entry.text.now ≡ [])
            (λ x. (lines self.entry.text.now ≡ x.0.now ∷ lines x.1.text.now) × (x.1.line ≡ self.entry.line + 1)) }
        ensures shorter { IfSome result (λ x. length x.1.text.now < length self.entry.text.now) }
    {
        let (bytes, text) = next_line(self.text)?;
        let after = Part {
            text,
            line: self.line + 1,
        };
        Some((bytes, after))
    }

    // The part after its first line, which has to be the line `want`.
    pub(crate) fn fixed(self, want: &[u8], reason: Reason) -> Result<Part<'a>, Fault>
        ensures line { IfOk result (λ p. p.line ≡ self.entry.line + 1) }
        ensures value { rest_in result ≡ fixed_line_of (fault_at reason self.entry.line) want.now (lines self.entry.text.now) }
    {
        let Some((bytes, after)) = self.cut() else {
            return Err(reason.at(self.line));
        };
        if !same(bytes, want) {
            return Err(reason.at(self.line));
        }
        Ok(after)
    }
}
