//! Runs single instructions that were recorded from a VAX, and tells how many come out as recorded.
#![tactic(auto)]

mod bytes;
mod case;
mod text;

use std::process::ExitCode;
use std::rt::Files;
use std::{fs, io};

/// Runs each instruction of the file, prints the lines that come out otherwise, and then the counts.
fn run<R: Files + Print + AllocGlobal>(rt: &R) -> io::Result<()> {
    let text = fs::read_to_string(rt, "vectors")?;
    let mut agree = 0u32;
    let mut differ = 0u32;
    for line in text.lines() {
        if line.starts_with('#') {
            continue;
        }
        if case::agrees(rt.alloc(), line)? {
            agree = agree.saturating_add(1);
        } else {
            differ = differ.saturating_add(1);
            println!(rt; "{line}")?;
        }
    }
    println!(rt; "{agree} agree, {differ} differ")?;
    Ok(())
}

fn main(rt: HostRuntime) -> ExitCode {
    match run(&rt) {
        Ok(()) => ExitCode::SUCCESS,
        Err(_) => ExitCode::FAILURE,
    }
}
