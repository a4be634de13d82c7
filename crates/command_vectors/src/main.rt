//! Runs the command lines of recorded cases, over files, devices and an output in memory, and compares what each writes, its
//! status and what is told beside with what is recorded.
#![tactic(auto)]

mod bad;
mod case;
mod devices;
mod pieces;
mod running;

use case::Case;
use std::process::ExitCode;
use std::rt::Files;
use std::{fs, io};

// The files of cases, in their order: the programs of the first are there for all.
const NAMES: [&'static str; 13] = [
    "programs",
    "tools",
    "endings",
    "paging",
    "processes",
    "questions",
    "kernels",
    "devices",
    "orders",
    "edges",
    "transfers",
    "hands",
    "swapper",
];

// Takes the lines of a text, and prints what differs in its runs, and how many are as recorded.
fn take_lines<R: Print>(rt: &R, case: &mut Case, name: &str, text: &str) -> io::Result<()> {
    let mut runs: usize = 0;
    let mut good: usize = 0;
    let mut number: usize = 0;
    for line in text.lines() {
        number = number.saturating_add(1);
        match case.take(line) {
            Ok(None) => {}
            Ok(Some(difference)) => {
                runs = runs.saturating_add(1);
                if difference.is_empty() {
                    good = good.saturating_add(1);
                } else {
                    println!(rt; "{name}, line {number}: {difference}")?;
                }
            }
            Err(bad) => println!(rt; "{name}, line {number}: {bad:?}")?,
        }
    }
    if runs > 0 {
        println!(rt; "{name}: {good} of {runs} runs are as recorded")?;
    }
    Ok(())
}

fn run<R: Files + Print + AllocGlobal>(rt: &R) -> io::Result<()> {
    let mut case = Case::new(rt.alloc());
    for name in NAMES {
        let text = fs::read_to_string(rt, name)?;
        take_lines(rt, &mut case, name, text.as_str())?;
    }
    Ok(())
}

fn main(rt: HostRuntime) -> ExitCode {
    match run(&rt) {
        Ok(()) => ExitCode::SUCCESS,
        Err(error) => {
            let _told = println!(rt; "{error}");
            ExitCode::FAILURE
        }
    }
}
