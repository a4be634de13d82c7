//! Replays transcripts that an independent implementation wrote, as they are and with one change each, and
//! tells the verdict on each.
#![tactic(auto)]

mod case;

use std::process::ExitCode;
use std::rt::Files;
use std::{fs, io};

/// Judges each transcript of the file, and prints its name and the verdict.
fn run<R: Files + Print + AllocGlobal>(rt: &R) -> io::Result<()> {
    let text = fs::read_to_string(rt, "transcripts")?;
    let mut head = String::new(rt.alloc());
    let mut body = String::new(rt.alloc());
    for line in text.lines() {
        if line == "end" {
            let verdict = case::verdict(rt, head.as_str(), body.as_str())?;
            println!(rt; "{verdict}")?;
            body.clear();
        } else if line.starts_with("case ") || line.starts_with("touches ") {
            head.clear();
            head.push_str(line)?;
        } else if !line.starts_with('#') {
            body.push_str(line)?;
            body.push('\n')?;
        }
    }
    Ok(())
}

fn main(rt: HostRuntime) -> ExitCode {
    match run(&rt) {
        Ok(()) => ExitCode::SUCCESS,
        Err(error) => {
            let _told = println!(rt; "{error}");
            ExitCode::FAILURE
        }
    }
}
