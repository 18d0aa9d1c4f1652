//! Reads the sheet of one machine file many times over, so that what reading costs can be measured.
#![tactic(auto)]

use anyhow::bail;
use console::read_file;
use sheet::Sheet;
use std::env;

// The number that the only argument gives.
fn count_given(rt: &HostRuntime) -> anyhow::Result<u32> {
    let mut words = env::args(rt)?.skip(1);
    let (Some(word), None) = (words.next(), words.next()) else {
        bail!("usage: read_many COUNT < FILE");
    };
    Ok(word.parse::<u32>()?)
}

// How many of `count` readings of a text are accepted. A loop that repeats, since each reading changes the sheet.
fn accepted(text: &[u8], count: u32) -> u32 {
    let mut sheet = Sheet::blank();
    let mut accepted = 0u32;
    for _ in 0..count {
        if sheet.read(text).is_ok() {
            accepted = accepted.saturating_add(1);
        }
    }
    accepted
}

fn main(rt: HostRuntime) -> anyhow::Result<()> {
    let count = count_given(&rt)?;
    let file = read_file(&mut rt.stdin(), rt.alloc())?;
    let accepted = accepted(file.as_slice(), count);
    println!(rt; "accepted {accepted} of {count}")?;
    Ok(())
}
