//! Names of tasks.
ghost use Rattle.std.specs.Prelude.{◌≡◌, ◌≤◌, length};
ghost use Rattle.grammar.specs.Tasks.{name_for};
ghost use Rattle.grammar.specs.Names.{spelled, name_of};

use crate::bytes::length_before;
use basis::Blank;

// The most letters that a name may have.
const LONGEST: usize = 8;

// A task's name: 1 to 8 letters, then zeros. The blank name is all zeros. Two names are the same exactly when their bytes are.
// Eight bytes in a fixed place, since nothing is allocated, and no `str`, since any bytes make a name.
#[derive(Clone, Copy, Debug, PartialEq, Eq)]
pub struct Name {
    bytes: [u8; 8],
}

// The name of no task.
pub const NO_NAME: Name = Name { bytes: [0; 8] };

impl Blank for Name {
    ghost use Rattle.std.specs.Prelude.{[]};
    ghost use Rattle.grammar.specs.Tasks.{name_for};

    ghost BLANK = { name_for [] };

    const BLANK: Name = NO_NAME;
}

impl Name {
    // The name that `text` spells, with zeros after its letters: for the reader of words, which knows that no name is longer.
    pub fn of(text: &[u8]) -> Name
        requires { length text.now ≤ 8 }
        ensures { result ≡ name_for text.now }
    {
        let mut bytes = [0; 8];
        bytes[0..text.len()].copy_from_slice(text);
        Name { bytes }
    }

    // The name that `text` spells; none where it is longer than a name may be.
    pub fn checked(text: &[u8]) -> Option<Name>
        ensures { result ≡ name_of text.now }
    {
        if text.len() > LONGEST {
            return None;
        }
        Some(Name::of(text))
    }

    // Its letters, which end before the first zero.
    pub fn text(&self) -> &[u8]
        ensures { result.now ≡ spelled self.now }
    {
        let bytes = &self.bytes[..];
        let letters = length_before(bytes, 0);
        &bytes[0..letters]
    }
}
