//! Why something is turned away.
ghost use Rattle.std.specs.Prelude.{◌≡◌, Some};
ghost use Rattle.basis.specs.Faults.{number_of, layer_of, fault_at, fault_of, layer_text, fault_text};

use std::fmt;

// The layer that turns something away.
#[derive(Clone, Copy, Debug, PartialEq, Eq)]
pub enum Layer {
    Bytes,
    Sheet,
    Plan,
    Script,
    // of refusals of the run, a layer still to come
    Run,
}

// Why something is turned away.
#[derive(Clone, Copy, Debug, PartialEq, Eq)]
pub enum Reason {
    // a line has a byte that a line may not have, too many bytes, or no line feed
    Bytes,
    // a line is not of the form of the contents, or is missing there
    Contents,
    // a heading or a line of a body is missing, not of its form or out of range
    Body,
    // a level is not above the one before, or is the last and not 100
    Level,
    // a task has a name that is used or is `rest`, or more work than its period
    Task,
    // the cycle has more ticks than it may, first with the task of this line
    LongCycle,
    // no level fits the cycle
    Overfull,
    // the memory has fewer bytes than the cycle has ticks
    ShortMemory,
    // a line of the script is not two of its letters
    Script,
    // any other refusal, told by its number and its layer: one of the run, a layer still to come, or a caller's own
    Other { number: u8, layer: Layer },
}

// A refusal: why, and the line of the file that it names, from 1, where it names one.
#[derive(Clone, Copy, Debug, PartialEq, Eq)]
pub struct Fault {
    pub reason: Reason,
    pub line: Option<usize>,
}

impl Reason {
    // The number by which refusals are told apart in what is printed.
    pub fn number(self) -> u8
        ensures { result ≡ number_of self }
    {
        match self {
            Reason::Bytes => 1,
            Reason::Contents => 2,
            Reason::Body => 3,
            Reason::Level => 4,
            Reason::Task => 5,
            Reason::LongCycle => 6,
            Reason::Overfull => 7,
            Reason::ShortMemory => 8,
            Reason::Script => 9,
            Reason::Other { number, .. } => number,
        }
    }

    // The layer that refuses for this reason.
    pub fn layer(self) -> Layer
        ensures { result ≡ layer_of self }
    {
        match self {
            Reason::Bytes => Layer::Bytes,
            Reason::Contents | Reason::Body | Reason::Level | Reason::Task => Layer::Sheet,
            Reason::LongCycle | Reason::Overfull | Reason::ShortMemory => Layer::Plan,
            Reason::Script => Layer::Script,
            Reason::Other { layer, .. } => layer,
        }
    }

    // The fault of a line that is refused for this reason.
    pub fn at(self, line: usize) -> Fault
        ensures { result ≡ fault_at self line }
    {
        Fault {
            reason: self,
            line: Some(line),
        }
    }
}

// A fault that names no line.
impl From<Reason> for Fault {
    ghost from_gives = { λ reason fault. fault ≡ fault_of reason };

    fn from(reason: Reason) -> Fault {
        Fault { reason, line: None }
    }
}

impl fmt::Display for Layer {
    ghost output = { λ layer. Some (layer_text layer) };

    fn fmt<W: fmt::Write>(&self, f: &mut fmt::Formatter<W>) -> fmt::Result {
        f.write_str(match self {
            Layer::Bytes => "bytes",
            Layer::Sheet => "sheet",
            Layer::Plan => "plan",
            Layer::Script => "script",
            Layer::Run => "run",
        })
    }
}

// `refused NUMBER LAYER line LINE`, with line 0 where it names none.
impl fmt::Display for Fault {
    ghost output = { λ fault. Some (fault_text fault) };

    fn fmt<W: fmt::Write>(&self, f: &mut fmt::Formatter<W>) -> fmt::Result {
        let number = self.reason.number();
        let layer = self.reason.layer();
        let line = self.line.unwrap_or(0);
        write!(f, "refused {number} {layer} line {line}")
    }
}
