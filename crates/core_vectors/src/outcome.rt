//! How a recorded run ended, and the line that tells it.
use std::alloc::{AllocError, Global};
use vm_facts::Stop;

/// How a run ended.
#[derive(Clone, Copy, Debug, PartialEq, Eq, Drop)]
pub enum Outcome {
    /// By its limit, or as no process can step.
    Ended,
    /// The pieces of this first process find no place.
    NoSpace(u32),
    /// The run stopped.
    Stopped(Stop),
}

/// The line of it; a device is named where one failed.
pub fn outcome_line(
    alloc: Global,
    outcome: Outcome,
    device: Option<u32>,
) -> Result<String, AllocError> {
    let device = device.unwrap_or(0);
    match outcome {
        Outcome::Ended => format!(in alloc; "ended\n"),
        Outcome::NoSpace(pid) => format!(in alloc; "no swap for process {pid}\n"),
        Outcome::Stopped(Stop::NoMemory) => format!(in alloc; "no memory\n"),
        Outcome::Stopped(Stop::JournalFull) => format!(in alloc; "journal full\n"),
        Outcome::Stopped(Stop::FileFault) => format!(in alloc; "file fault\n"),
        Outcome::Stopped(Stop::SwapReadFault) => {
            format!(in alloc; "swap read fault on device {device}\n")
        }
        Outcome::Stopped(Stop::SwapWriteFault) => {
            format!(in alloc; "swap write fault on device {device}\n")
        }
    }
}
