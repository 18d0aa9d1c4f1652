//! Prints what reading each of its files yields: the sheet and its script, or why either is refused.
#![tactic(auto)]

use basis::Fault;
use console::read_file;
use sheet::{Letters, Power, Script, Sheet, TaskLine};
use std::io::Write;
use std::{env, fs};

// A script of more lines is shown by their number alone.
const MOST_SHOWN: usize = 40;

fn show_fault(rt: &HostRuntime, fault: Fault) -> anyhow::Result<()> {
    println!(rt; "{fault}")?;
    Ok(())
}

fn show_sheet(rt: &HostRuntime, sheet: &Sheet) -> anyhow::Result<()> {
    print!(rt; "levels")?;
    for level in sheet.levels() {
        print!(rt; " {level}")?;
    }
    let Power {
        static_mw,
        steady_mw,
        switching_mw,
    } = sheet.power();
    println!(rt; "\npower {static_mw} {steady_mw} {switching_mw}")?;
    for task in sheet.tasks() {
        let TaskLine { name, work, period } = task;
        print!(rt; "task ")?;
        rt.stdout().write_all(name.text())?;
        println!(rt; " {work} {period}")?;
    }
    let line = sheet.first_task();
    println!(rt; "first task on line {line}")?;
    Ok(())
}

// Written at once: standard output gathers nothing.
fn show_letters(rt: &HostRuntime, all: &[Letters]) -> anyhow::Result<()> {
    let mut shown = Vec::new(rt.alloc());
    for letters in all {
        shown.extend_from_slice(&[b' ', letters.primary, letters.spare])?;
    }
    rt.stdout().write_all(shown.as_slice())?;
    Ok(())
}

fn show_script(rt: &HostRuntime, line: usize, script: Script<'_>) -> anyhow::Result<()> {
    let all: Vec<Letters> = script.collect(rt.alloc())?;
    print!(rt; "script from line {line}:")?;
    let count = all.len();
    if count > MOST_SHOWN {
        print!(rt; " {count} lines")?;
    } else {
        show_letters(rt, all.as_slice())?;
    }
    println!(rt; "")?;
    Ok(())
}

fn show(rt: &HostRuntime, name: &str) -> anyhow::Result<()> {
    let file = read_file(&mut fs::open(rt, name)?, rt.alloc())?;
    println!(rt; "== {name}")?;
    let mut sheet = Sheet::blank();
    match sheet.read_file(file.as_slice()) {
        Ok(rest) => {
            show_sheet(rt, &sheet)?;
            match Script::read(rest) {
                Ok(script) => show_script(rt, rest.first_line(), script),
                Err(fault) => show_fault(rt, fault),
            }
        }
        Err(fault) => show_fault(rt, fault),
    }
}

fn main(rt: HostRuntime) -> anyhow::Result<()> {
    for name in env::args(&rt)?.skip(1) {
        show(&rt, name.as_str())?;
    }
    Ok(())
}
