//! How often each process ended, and with which status, in one walk of a journal.
ghost use Rattle.std.specs.Prelude.{◌≡◌, ◌<◌, ◌^◌, ℕ, ◌==◌, if◌then◌else◌, length, IfOk, OnOk};
ghost use Rattle.run_stats.specs.Ends.{once_more, ending_after, ending_at, IsEnding};

use std::alloc::{AllocError, Global};
use vm_facts::Entry;

/// How often a process ended. In the journal of a run none ends twice.
#[derive(Clone, Copy, Debug, PartialEq, Eq, Drop)]
pub enum Ending {
    /// It didn't end.
    Never,
    /// It ended with this status.
    Once(u32),
    /// It ended more than once.
    Often,
}

// Makes a table long enough for a place.
fn make_room(endings: &mut Vec<Ending>, place: usize) -> Result<(), AllocError>
    requires { place < 2 ^ 32 }
    ensures room { OnOk result (place < length endings.new.items) }
    ensures same { OnOk result ((pid : ℕ) → ending_at endings.new.items pid ≡ ending_at endings.old.items pid) }
{
    if place < endings.len() {
        return Ok(());
    }
    endings.resize(place + 1, Ending::Never)?;
    Ok(())
}

fn once_more(ending: Ending, status: u32) -> Ending
    ensures { result ≡ once_more ending status }
{
    match ending {
        Ending::Never => Ending::Once(status),
        Ending::Once(_) | Ending::Often => Ending::Often,
    }
}

// Notes what an entry says of a process's end.
fn note_end(endings: &mut Vec<Ending>, entry: &Entry) -> Result<(), AllocError>
    ensures { OnOk result ((pid : ℕ) → ending_at endings.new.items pid ≡ ending_after pid (ending_at endings.old.items pid) entry.now) }
{
    match entry {
        Entry::Ended { pid, status } => end_at(endings, *pid, *status),
        _ => Ok(()),
    }
}

// The process of this number ends.
fn end_at(endings: &mut Vec<Ending>, pid: u32, status: u32) -> Result<(), AllocError>
    ensures { OnOk result ((other : ℕ) → ending_at endings.new.items other
        ≡ (if pid == other then once_more (ending_at endings.old.items other) status else ending_at endings.old.items other)) }
{
    let place = pid as usize;
    make_room(endings, place)?;
    endings[place] = once_more(endings[place], status);
    Ok(())
}

/// How often each process ended in this journal. The one error is that no memory is left.
pub(crate) fn endings_of(alloc: Global, journal: &[Entry]) -> Result<Vec<Ending>, AllocError>
    ensures { IfOk result (λ endings. (pid : ℕ) → IsEnding pid (ending_at endings.items pid) journal.now) }
{
    let mut endings = Vec::new(alloc);
    for entry in journal {
        note_end(&mut endings, entry)?;
    }
    Ok(endings)
}

/// The ending of the process of this number.
pub(crate) fn ending_at(endings: &[Ending], pid: u32) -> Ending
    ensures { result ≡ ending_at endings.now pid }
{
    match endings.get(pid as usize) {
        Some(ending) => *ending,
        None => Ending::Never,
    }
}
