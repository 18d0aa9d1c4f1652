ghost use Rattle.std.specs.Prelude.{◌+◌, ◌^◌, ◌<◌, length};

pub mod calls;

// A part of a machine file that starts with a line of it, and the number of that line.
#[derive(Clone, Copy, Debug)]
pub struct Part<'a> {
    pub text: &'a [u8],
    pub line: usize,
    ghost within: { line + length text.now < 2 ^ 64 },
}
