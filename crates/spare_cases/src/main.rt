//! Prints what `spare` would print for each of its files.
#![tactic(auto)]

use console::spare_page;
use std::fs;
use std::io::Write;

const CASES: [&str; 18] = [
    "two_tasks",
    "equal_halves",
    "half_and_third",
    "overfull",
    "three_tasks",
    "longest_period",
    "cycle_too_long",
    "empty",
    "other_sequence",
    "with_script",
    "sixteen_tasks",
    "one_level",
    "work_is_period",
    "no_last_feed",
    "levels_fall",
    "name_rest",
    "work_above_period",
    "missing_task",
];

fn show(rt: &HostRuntime, name: &str) -> anyhow::Result<()> {
    let text = fs::read(rt, name)?;
    let page = spare_page(rt.alloc(), text.as_slice())?;
    println!(rt; "== {name}")?;
    rt.stdout().write_all(page.text())?;
    Ok(())
}

fn main(rt: HostRuntime) -> anyhow::Result<()> {
    for name in CASES {
        show(&rt, name)?;
    }
    Ok(())
}
