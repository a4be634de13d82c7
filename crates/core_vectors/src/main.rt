//! Runs the core over recorded cases, and compares its journals and its swap with those of an independent implementation.
#![tactic(auto)]

mod cases;
mod devices;
mod faults;
mod opening;
mod outcome;
mod running;
mod setup;
mod sums;
mod verdict;

use cases::Reader;
use std::process::ExitCode;
use std::rt::Files;
use std::{fs, io};
use verdict::verdict;

/// Runs each case of the file, and prints its name and the verdict, and how many went well.
fn run<R: Files + Print + AllocGlobal>(rt: &R) -> io::Result<()> {
    let text = fs::read_to_string(rt, "cases")?;
    let mut reader = Reader::new(rt.alloc());
    let mut cases: usize = 0;
    let mut good: usize = 0;
    for line in text.lines() {
        if !reader.take(line)? {
            continue;
        }
        let verdict = verdict(rt.alloc(), &reader)?;
        println!(rt; "{verdict}")?;
        cases = cases.saturating_add(1);
        if verdict.starts_with("ok ") {
            good = good.saturating_add(1);
        }
        reader.clear();
    }
    println!(rt; "{good} of {cases} cases agree")
}

fn main(rt: HostRuntime) -> ExitCode {
    match run(&rt) {
        Ok(()) => ExitCode::SUCCESS,
        Err(error) => {
            let _told = println!(rt; "{error}");
            ExitCode::FAILURE
        }
    }
}
