//! A line of the script.
ghost use Rattle.std.specs.Prelude.{◌≡◌};
ghost use Rattle.grammar.specs.Scripts.{mark, script_line_of};

use basis::Fault;
use grammar::{Letters, Reason};

// Whether a script line may have this letter.
fn is_mark(letter: u8) -> bool
    ensures { result ≡ mark letter }
{
    matches!(letter, b'm' | b'g' | b'b' | b'x' | b'r')
}

// The letters on a line of the script, which is line `at` of the file.
pub fn script_line(line: &[u8], at: usize) -> Result<Letters, Fault>
    ensures { result ≡ script_line_of at line.now }
{
    let fault = Reason::Script.at(at);
    let [primary, spare] = line else {
        return Err(fault);
    };
    if !is_mark(*primary) || !is_mark(*spare) {
        return Err(fault);
    }
    Ok(Letters {
        primary: *primary,
        spare: *spare,
    })
}
