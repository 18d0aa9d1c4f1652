//! What a program reads.
ghost use Rattle.std.specs.Prelude.{◌≡◌, ◌≤◌, take, length, IfOk, IfSome};

use std::alloc::Global;
use std::io;
use std::io::Read;

// A machine file has no more bytes than this; what follows is not read.
const LONGEST_FILE: usize = 32_768;

// Fills memory from an input until it is full or the input ends, and answers how many bytes were read. What does not fit is not read.
pub fn read_up_to<R: Read>(input: &mut R, memory: &mut [u8]) -> io::Result<usize>
    ensures within { IfOk result (λ n. n ≤ length memory.new) }
    ensures bytes { IfOk result (λ n. IfSome (R.remaining input.old) (λ all. take n memory.new ≡ take (length memory.new) all)) }
{
    let mut len = 0;
    while len < memory.len() {
        let n = input.read(&mut memory[len..])?;
        if n == 0 {
            break;
        }
        len += n;
    }
    Ok(len)
}

// The bytes of a machine file, up to the most that it may have.
pub fn read_file<R: Read>(input: &mut R, heap: Global) -> io::Result<Vec<u8>>
    ensures within { IfOk result (λ file. length file.items ≤ 32768) }
    ensures bytes { IfOk result (λ file. IfSome (R.remaining input.old) (λ all. file.items ≡ take 32768 all)) }
{
    let mut file = vec![in heap; 0u8; LONGEST_FILE]?;
    let len = read_up_to(input, &mut file)?;
    file.truncate(len);
    Ok(file)
}
