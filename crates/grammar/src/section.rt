//! The sections of a machine file.
ghost use Rattle.std.specs.Prelude.{◌≡◌};
ghost use Rattle.grammar.specs.Contents.{heading_of, section_of, most_lines};

use crate::bytes::same;

// A section of the file.
#[derive(Clone, Copy, Debug, PartialEq, Eq)]
pub enum Section {
    Levels,
    Power,
    Tasks,
}

// A line of the contents: a section, and how many lines its body has after its heading.
#[derive(Clone, Copy, Debug)]
pub struct Entry {
    pub section: Section,
    pub count: usize,
}

impl Section {
    // The section of this name. Compared one by one: of a `match` on byte strings a proof learns only their lengths.
    pub fn named(text: &[u8]) -> Option<Section>
        ensures { result ≡ section_of text.now }
    {
        if same(text, b"levels") {
            Some(Section::Levels)
        } else if same(text, b"power") {
            Some(Section::Power)
        } else if same(text, b"tasks") {
            Some(Section::Tasks)
        } else {
            None
        }
    }

    // Its name, which is the line above its body.
    pub fn heading(self) -> &'static [u8]
        ensures { result.now ≡ heading_of self }
    {
        match self {
            Section::Levels => b"levels",
            Section::Power => b"power",
            Section::Tasks => b"tasks",
        }
    }

    // How many lines its body has at most. (By section as the heading, but another fact of the rules.)
    pub fn most_lines(self) -> u32
        ensures { result ≡ most_lines self }
    {
        match self {
            Section::Levels => 8,
            Section::Power => 1,
            Section::Tasks => 16,
        }
    }
}
