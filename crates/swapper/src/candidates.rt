//! Which processes may go out or come in, and which of two has been so longer. Of equals the lower pid is meant.
//! Nothing may be moved here.
ghost use Rattle.std.specs.Prelude.{◌≡◌, ◌<◌, ◌≤◌, Some};
ghost use Rattle.proc_table.specs.Records.{find};
ghost use Rattle.page_model.specs.Placement.{Placement};
ghost use Rattle.page_model.specs.Swapper.{is_longer, longest};
ghost use Rattle.machine_state.specs.Alike.{AreRecords};
ghost use Rattle.machine_state.specs.Machine.{proc_of_record, processes_of};
ghost use Rattle.swapper.specs.Runners.{runners_in, runner_seen, runner_of, runner_from, IsPlaced, HasResidents, passes, kept, longer_of, longer_with};
ghost use Rattle.std.specs.List.{filter};

use proc_table::{Life, ProcTable};

/// What is seen of a process that holds a space.
#[derive(Clone, Copy, Drop)]
pub(crate) struct Seen {
    pub(crate) pid: u32,
    pub(crate) sid: u32,
    /// Another process lends it its space.
    pub(crate) borrowed: bool,
    pub(crate) asleep: bool,
    pub(crate) out: bool,
    /// The place in the journal since which it is in or out.
    pub(crate) since: u32,
}

/// Which processes are candidates.
#[derive(Clone, Copy, Drop)]
pub(crate) enum Kind {
    /// Those that are out and don't sleep.
    ComesIn,
    /// Those that are in and hold a space of their own.
    GoesOut,
    /// Those of the latter that sleep in wait.
    Sleeper,
}

// What is seen of the process with this number; None where none holds a space.
fn look_at(processes: &ProcTable, _next: u32, pid: u32) -> Option<Seen>
    requires records { AreRecords processes.now _next }
    requires low { 1 ≤ pid }
    requires high { pid < _next }
    ensures runner { runner_of result ≡ runner_from (processes_of processes.now _next) (proc_of_record (find pid processes.now)) }
    ensures placed { (p : Placement) → HasResidents p processes.now _next → IsPlaced p result }
{
    let process = processes.get(pid)?;
    let Life::Holds(sid) = process.state else {
        return None;
    };
    Some(Seen {
        pid: process.pid,
        sid,
        borrowed: process.borrowed,
        asleep: process.asleep,
        out: process.out,
        since: process.since,
    })
}

// Whether a process is a candidate of this kind.
fn passes(seen: &Seen, kind: Kind) -> bool
    ensures { (p : Placement) → IsPlaced p (Some seen.now) → result ≡ passes p kind (runner_seen seen.now) }
{
    match kind {
        Kind::ComesIn => seen.out && !seen.asleep,
        Kind::GoesOut => !seen.out && !seen.borrowed,
        Kind::Sleeper => !seen.out && !seen.borrowed && seen.asleep,
    }
}

// The process with this number, where it is a candidate.
pub(crate) fn candidate(processes: &ProcTable, next: u32, kind: Kind, pid: u32) -> Option<Seen>
    requires records { AreRecords processes.now next }
    requires low { 1 ≤ pid }
    requires high { pid < next }
    ensures runner { (p : Placement) → HasResidents p processes.now next
        → runner_of result ≡ kept (passes p kind) (runner_from (processes_of processes.now next) (proc_of_record (find pid processes.now))) }
    ensures placed { (p : Placement) → HasResidents p processes.now next → IsPlaced p result }
{
    let seen = look_at(processes, next, pid)?;
    if passes(&seen, kind) {
        Some(seen)
    } else {
        None
    }
}

// In or out longer; of two that are so equally long, the one of the lower pid.
fn is_longer(one: &Seen, other: &Seen) -> bool
    ensures { (p : Placement) → IsPlaced p (Some one.now) → IsPlaced p (Some other.now)
        → result ≡ is_longer p (runner_seen one.now) (runner_seen other.now) }
{
    one.since < other.since || (one.since == other.since && one.pid < other.pid)
}

// The one of the two that is in or out longer.
pub(crate) fn longer(best: Option<Seen>, one: Seen) -> Seen
    ensures runner { (p : Placement) → IsPlaced p best → IsPlaced p (Some one) → runner_seen result ≡ longer_of p (runner_of best) (runner_seen one) }
    ensures placed { (p : Placement) → IsPlaced p best → IsPlaced p (Some one) → IsPlaced p (Some result) }
{
    match best {
        Some(best) => { if is_longer(&one, &best) { one } else { best } }
        None => one,
    }
}

// The best so far and one more process, where it is a candidate.
fn longer_with(best: Option<Seen>, one: Option<Seen>) -> Option<Seen>
    ensures runner { (p : Placement) → IsPlaced p best → IsPlaced p one → runner_of result ≡ longer_with p (runner_of best) (runner_of one) }
    ensures placed { (p : Placement) → IsPlaced p best → IsPlaced p one → IsPlaced p result }
{
    match one {
        Some(one) => Some(longer(best, one)),
        None => best,
    }
}

/// The candidate that is in or out longest.
pub(crate) fn longest(processes: &ProcTable, next: u32, kind: Kind) -> Option<Seen>
    requires { AreRecords processes.now next }
    ensures { (p : Placement) → HasResidents p processes.now next
        → runner_of result ≡ longest p (filter (passes p kind) (runners_in (processes_of processes.now next))) }
{
    let mut best: Option<Seen> = None;
    let mut last = 0;
    while let Some(pid) = processes.next_after(last) {
        best = longer_with(best, candidate(processes, next, kind, pid));
        last = pid;
    }
    best
}
