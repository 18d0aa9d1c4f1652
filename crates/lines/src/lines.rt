//! The lines of a text: which bytes they may have, how long they are, and how a text is cut into them.
ghost use Rattle.std.specs.Prelude.{◌≡◌, ◌<◌, [], ◌∷◌, length, IfSome, MatchOption};
ghost use Rattle.grammar.specs.Texts.{allowed, bytes_from, lines};

use basis::Fault;
use grammar::{Reason, length_before};

// The most bytes that a line may have before its line feed.
const LONGEST: usize = 40;

// Whether a line may have this byte: a letter, a digit or a space.
fn is_allowed(b: u8) -> bool
    ensures { result ≡ allowed b }
{
    matches!(b, b'a'..=b'z' | b'0'..=b'9' | b' ')
}

// Names the first line with a byte that it may not have, with too many bytes, or without its line feed.
// It counts lines and columns itself: cut at its feeds, a text gives a last piece that is no line and would need a rule of its own.
pub fn check_bytes(text: &[u8]) -> Result<(), Fault>
    ensures { result ≡ bytes_from 0 0 text.now }
{
    let mut before = 0;
    let mut column = 0;
    for b in text {
        if *b == b'\n' {
            before += 1;
            column = 0;
        } else if is_allowed(*b) && column < LONGEST {
            column += 1;
        } else {
            return Err(Reason::Bytes.at(before + 1));
        }
    }
    if column > 0 {
        return Err(Reason::Bytes.at(before + 1));
    }
    Ok(())
}

// The first line of a text, and what stands after its line feed.
pub fn next_line(text: &[u8]) -> Option<(&[u8], &[u8])>
    ensures cut { MatchOption result (lines text.now ≡ []) (λ x. lines text.now ≡ x.0.now ∷ lines x.1.now) }
    ensures shorter { IfSome result (λ x. length x.1.now < length text.now) }
{
    let n = length_before(text, b'\n');
    if n < text.len() {
        Some((&text[0..n], &text[n + 1..]))
    } else {
        None
    }
}
