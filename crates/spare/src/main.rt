//! Reads a machine file from standard input and prints the plan of the spare, or why the file is refused.
#![tactic(auto)]

use anyhow::ensure;
use console::{read_file, spare_page};
use std::io::Write;

fn main(rt: HostRuntime) -> anyhow::Result<()> {
    let file = read_file(&mut rt.stdin(), rt.alloc())?;
    let page = spare_page(rt.alloc(), file.as_slice())?;
    rt.stdout().write_all(page.text())?;
    ensure!(page.is_plan(), "refused");
    Ok(())
}
