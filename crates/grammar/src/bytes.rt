//! Strings of bytes.
ghost use Rattle.std.specs.Prelude.{◌≡◌, ◌≤◌, length, Decides};
ghost use Rattle.std.specs.Str.{bytes_eq};
ghost use Rattle.grammar.specs.Texts.{length_before};

// How many bytes stand before the first `end`, or in all where there is none: lines, words and names are cut by it.
pub fn length_before(bytes: &[u8], end: u8) -> usize
    ensures within { result ≤ length bytes.now }
    ensures value { result ≡ length_before end bytes.now }
{
    bytes.iter().take_while(|b| **b != end).count()
}

// Whether two strings of bytes are the same: every fixed word of the format is compared by it, in the format's own words, which a bare
// `==` does not promise.
pub fn same(a: &[u8], b: &[u8]) -> bool
    ensures decides { Decides result (a.now ≡ b.now) }
    ensures test { result ≡ bytes_eq a.now b.now }
{
    a == b
}
