//! The unread end of a line.
ghost use Rattle.std.specs.Prelude.{◌≡◌, ◌+◌, ◌^◌, ◌<◌, length};

// What is left of a line, from its byte `at` on.
#[derive(Clone, Copy, Debug)]
pub struct Tail<'a> {
    pub bytes: &'a [u8],
    pub at: usize,
    ghost within: { at + length bytes.now < 2 ^ 64 },
}

impl<'a> Tail<'a> {
    // The whole of a line.
    pub(crate) fn of(line: &'a [u8]) -> Tail<'a>
        ensures bytes { result.bytes.now ≡ line.now }
        ensures at { result.at ≡ 0 }
    {
        Tail { bytes: line, at: 0 }
    }
}
