//! The words of a line: names and numbers, parted by one space each.
ghost use Rattle.std.specs.Prelude.{◌≡◌, ◌<◌, IfSome};
ghost use Rattle.std.specs.Option.{option_map};
ghost use Rattle.grammar.specs.Bytes.{letter, digit, spells_name, number_of};
ghost use Rattle.grammar.specs.Words.{word_of, next_word};
ghost use Rattle.lines.specs.Views.{seen_word, seen_next, Short};

use crate::tail::Tail;
use grammar::length_before;

// A word of a line, with the place of its first byte.
#[derive(Clone, Copy, Debug)]
pub enum Word<'a> {
    Name { text: &'a [u8], at: usize },
    Number { value: u32, at: usize },
}

// Whether a name may have this byte.
fn is_letter(b: u8) -> bool
    ensures { result ≡ letter b }
{
    matches!(b, b'a'..=b'z')
}

// Whether a number may have this byte.
fn is_digit(b: u8) -> bool
    ensures { result ≡ digit b }
{
    matches!(b, b'0'..=b'9')
}

// Whether a piece of a line is a name: 1 to 8 letters. A loop, since the proof of `all` did not close.
fn is_name(piece: &[u8]) -> bool
    ensures { result ≡ spells_name piece.now }
{
    if piece.len() < 1 || piece.len() > 8 {
        return false;
    }
    for b in piece {
        if !is_letter(*b) {
            return false;
        }
    }
    true
}

// The number that a piece of a line spells: 1 to 6 digits, with no zero in front of another digit.
fn number(piece: &[u8]) -> Option<u32>
    ensures value { result ≡ number_of piece.now }
    ensures small { IfSome result (λ v. v < 1000000) }
{
    if piece.len() < 1 || piece.len() > 6 || (piece.len() > 1 && piece[0] == b'0') {
        return None;
    }
    let mut value = 0;
    for b in piece {
        if !is_digit(*b) {
            return None;
        }
        value = value * 10 + u32::from(*b - b'0');
    }
    Some(value)
}

// The word that a piece of a line is.
fn word_of(piece: &[u8], at: usize) -> Option<Word<'_>>
    ensures value { option_map seen_word result ≡ word_of at piece.now }
    ensures short { IfSome result Short }
{
    if is_name(piece) {
        return Some(Word::Name { text: piece, at });
    }
    number(piece).map(|value| Word::Number { value, at })
}

impl<'a> Tail<'a> {
    // The first word, and what is left after its space where it has one.
    pub(crate) fn next_word(self) -> Option<(Word<'a>, Option<Tail<'a>>)>
        ensures short { IfSome result (λ x. Short x.0) }
        ensures value { option_map seen_next result ≡ next_word self.entry.at self.entry.bytes.now }
    {
        let n = length_before(self.bytes, b' ');
        let word = word_of(&self.bytes[0..n], self.at)?;
        if n < self.bytes.len() {
            let rest = Tail {
                bytes: &self.bytes[n + 1..],
                at: self.at + n + 1,
            };
            Some((word, Some(rest)))
        } else {
            Some((word, None))
        }
    }
}
