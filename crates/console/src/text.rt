//! Text that grows at its end.
ghost use Rattle.std.specs.Prelude.{◌≡◌, ℕ, ◌+◌, Bool, List, [], ◌∷◌, ◌++◌, IfOk, IfSome, None, OnOk};
ghost use Rattle.console.specs.Spans.{span_text, spans_from};

use std::alloc::{AllocError, Global};
use std::fmt::Display;
use std::marker::Model;

// A text in the making. Names of tasks are bytes, so it is bytes and no `String`.
#[derive(Drop)]
pub(crate) struct Text {
    bytes: Vec<u8>,
}

impl Model for Text {
    ghost Value = { List ℕ };

    ghost view = { λ t. t.bytes.items };
}

impl Text {
    // The empty text.
    pub(crate) fn new(heap: Global) -> Text
        ensures { result ≡ [] }
    {
        Text {
            bytes: Vec::new(heap),
        }
    }

    // Its bytes.
    pub(crate) fn into_bytes(self) -> Vec<u8>
        ensures { result.items ≡ self }
    {
        self.bytes
    }

    // Where its memory comes from.
    pub(crate) fn heap(&self) -> Global {
        *self.bytes.allocator()
    }

    // Adds bytes.
    pub(crate) fn put(&mut self, bytes: &[u8]) -> Result<(), AllocError>
        ensures { OnOk result (self.new ≡ self.old ++ bytes.now) }
    {
        self.bytes.extend_from_slice(bytes)
    }

    // Adds what a value prints: `write!` calls it.
    pub(crate) fn write_fmt<D: Display + Drop>(&mut self, value: D) -> Result<(), AllocError>
        ensures { OnOk result (IfSome (D.output value) (λ printed. self.new ≡ self.old ++ printed)) }
    {
        let printed = String::format(self.heap(), value)?;
        self.put(printed.as_bytes())
    }

    // Adds one span of ticks, its end excluded.
    fn put_span(&mut self, start: usize, end: usize) -> Result<(), AllocError>
        ensures { OnOk result (self.new ≡ self.old ++ span_text start end) }
    {
        write!(self, " {start}..{end}")
    }

    // One tick more: a span that ends before it is added. Answers where the span that is then open began.
    fn put_turn(
        &mut self,
        start: Option<usize>,
        t: usize,
        marked: bool,
    ) -> Result<Option<usize>, AllocError>
        ensures { IfOk result (λ s. (ms : List Bool) → self.new ++ spans_from (t + 1) s ms ≡ self.old ++ spans_from t start (marked ∷ ms)) }
    {
        match start {
            Some(first) if !marked => {
                self.put_span(first, t)?;
                Ok(None)
            }
            None if marked => Ok(Some(t)),
            open => Ok(open),
        }
    }

    // Adds the spans of the marked ticks, each as long as it can be.
    pub(crate) fn put_spans(&mut self, marks: &[bool]) -> Result<(), AllocError>
        ensures { OnOk result (self.new ≡ self.old ++ spans_from 0 None marks.now) }
    {
        let mut start = None;
        for (t, marked) in marks.iter().enumerate() {
            start = self.put_turn(start, t, *marked)?;
        }
        if let Some(first) = start {
            self.put_span(first, marks.len())?;
        }
        Ok(())
    }
}
