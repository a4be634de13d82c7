//! What is told of how a run ended, beside its output: whose refusal, after which status.
ghost use Rattle.std.specs.Prelude.{◌≡◌, ◌≢◌, ◌⊎◌, ◌↔◌, IsSome, IsTrue};
ghost use Rattle.std.specs.Process.{exit_status};

use std::process::ExitCode;

// Who was refused something where a run ended with a status.
#[derive(Clone, Copy, Drop)]
pub(crate) enum Refuser {
    // The files that it read.
    Files,
    // Its swap devices.
    Devices,
    // Its output.
    Output,
    Nobody,
}

// Whose refusal is told after this status.
pub(crate) fn refuser_of(status: u8) -> Refuser
    ensures files { (result ≡ Refuser.Files) ↔ (status ≡ 5) }
    ensures devices { (result ≡ Refuser.Devices) ↔ ((status ≡ 6) ⊎ (status ≡ 7)) }
    ensures output { (result ≡ Refuser.Output) ↔ (status ≡ 8) }
{
    match status {
        5 => Refuser::Files,
        6 | 7 => Refuser::Devices,
        8 => Refuser::Output,
        _ => Refuser::Nobody,
    }
}

// Whether the output ends with the line of a fault after this status: all have one but success, and an output
// that failed.
pub(crate) fn has_line(status: u8) -> bool
    ensures { IsTrue result ↔ ((status ≢ 0) × (status ≢ 8)) }
{
    status != 0 && status != 8
}

// The first of two, where there is one, else the second.
pub(crate) fn first_of<T: Drop>(zero: Option<T>, one: Option<T>) -> Option<T>
    ensures zero { IsSome zero → result ≡ zero }
    ensures one { zero ≡ None → result ≡ one }
{
    match zero {
        Some(refusal) => Some(refusal),
        None => one,
    }
}

// What the process ends with: the status itself.
pub(crate) fn exit_code(status: u8) -> ExitCode
    ensures { exit_status result ≡ status }
{
    ExitCode::from(status)
}
