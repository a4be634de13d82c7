//! Of the four processes with the most pages in frames, the one that is in longest. Pages are counted, and may not be
//! moved.
ghost use Rattle.std.specs.Prelude.{◌≡◌, ◌<◌, ◌≤◌, Some, take};
ghost use Rattle.std.specs.List.{filter};
ghost use Rattle.proc_table.specs.Records.{find};
ghost use Rattle.page_model.specs.Placement.{Placement};
ghost use Rattle.page_model.specs.Place.{pages_of_space};
ghost use Rattle.page_model.specs.Swapper.{is_larger, longest, ranked, seated_count};
ghost use Rattle.machine_state.specs.Going.{IsRunning};
ghost use Rattle.machine_state.specs.Alike.{AreRecords};
ghost use Rattle.machine_state.specs.Machine.{proc_of_record, processes_of, residents_of};
ghost use Rattle.swapper.specs.declared.candidates.Kind.TheVariants as kinds;
ghost use Rattle.swapper.specs.Runners.{
  runners_in,
  runner_seen,
  runner_of,
  runner_from,
  runners_above,
  passes,
  kept,
  IsMeasured,
  AreMeasured,
  stands_before,
  options_of,
  listed_in,
  placed_in,
  placed_with,
  runner_measured,
};

use crate::candidates::{Kind, Seen, candidate, longer};
use crate::seats::seated_count;
use machine_state::Machine;
use proc_table::ProcTable;

/// A process that could go out, and how many pages of its data and stack are in frames off the free list.
#[derive(Clone, Copy, Drop)]
pub(crate) struct Measured {
    pub(crate) seen: Seen,
    pub(crate) size: u32,
}

/// The four that are largest, the largest first.
#[derive(Clone, Copy, Drop)]
pub(crate) struct Largest {
    first: Option<Measured>,
    second: Option<Measured>,
    third: Option<Measured>,
    fourth: Option<Measured>,
}

// How many pages of a space are in frames off the free list; none, where there is no such space.
fn size_of(m: &Machine, sid: u32) -> u32
    requires { IsRunning m.now }
    ensures { result ≡ seated_count m.now.kernel.place (pages_of_space m.now.kernel.place sid) }
{
    match m.space(sid) {
        Some(space) => seated_count(m.core(), space),
        None => 0,
    }
}

// The process with this number, where it could go out.
fn measure(m: &Machine, processes: &ProcTable, next: u32, pid: u32) -> Option<Measured>
    requires running { IsRunning m.now }
    requires residents { m.now.kernel.place.residents ≡ residents_of processes.now next }
    requires records { AreRecords processes.now next }
    requires low { 1 ≤ pid }
    requires high { pid < next }
    ensures runner { runner_measured result
        ≡ kept (passes m.now.kernel.place kinds.GoesOut) (runner_from (processes_of processes.now next) (proc_of_record (find pid processes.now))) }
    ensures measured { IsMeasured m.now.kernel.place result }
{
    let seen = candidate(processes, next, Kind::GoesOut, pid)?;
    Some(Measured {
        seen,
        size: size_of(m, seen.sid),
    })
}

// More pages in frames; of two of one size, the one of the lower pid.
fn is_larger(one: &Measured, other: &Measured) -> bool
    ensures { (p : Placement) → IsMeasured p (Some one.now) → IsMeasured p (Some other.now)
        → result ≡ is_larger p (runner_seen one.now.seen) (runner_seen other.now.seen) }
{
    one.size > other.size || (one.size == other.size && one.seen.pid < other.seen.pid)
}

// Whether one of the largest stands before another.
fn stands_before(old: Option<Measured>, new: &Measured) -> bool
    ensures { (p : Placement) → IsMeasured p old → IsMeasured p (Some new.now) → result ≡ stands_before p old new.now }
{
    match old {
        Some(old) => is_larger(&old, new),
        None => false,
    }
}

// Puts a candidate in its place among the largest; the last may drop out.
fn place(largest: Largest, new: Measured) -> Largest
    ensures list { (p : Placement) → AreMeasured p (options_of largest) → IsMeasured p (Some new)
        → options_of result ≡ placed_in p new (options_of largest) }
    ensures measured { (p : Placement) → AreMeasured p (options_of largest) → IsMeasured p (Some new) → AreMeasured p (options_of result) }
{
    let Largest {
        first,
        second,
        third,
        fourth,
    } = largest;
    if !stands_before(first, &new) {
        return Largest {
            first: Some(new),
            second: first,
            third: second,
            fourth: third,
        };
    }
    if !stands_before(second, &new) {
        return Largest {
            first,
            second: Some(new),
            third: second,
            fourth: third,
        };
    }
    if !stands_before(third, &new) {
        return Largest {
            first,
            second,
            third: Some(new),
            fourth: third,
        };
    }
    if !stands_before(fourth, &new) {
        return Largest {
            first,
            second,
            third,
            fourth: Some(new),
        };
    }
    largest
}

// Puts a candidate in its place, where there is one.
fn place_with(largest: Largest, new: Option<Measured>) -> Largest
    ensures list { (p : Placement) → AreMeasured p (options_of largest) → IsMeasured p new
        → options_of result ≡ placed_with p new (options_of largest) }
    ensures measured { (p : Placement) → AreMeasured p (options_of largest) → IsMeasured p new → AreMeasured p (options_of result) }
{
    match new {
        Some(new) => place(largest, new),
        None => largest,
    }
}

// The four largest of those above a pid that could go out.
fn four_largest(m: &Machine, processes: &ProcTable, next: u32, last: u32) -> Largest
    requires running { IsRunning m.now }
    requires residents { m.now.kernel.place.residents ≡ residents_of processes.now next }
    requires records { AreRecords processes.now next }
    ensures list { listed_in (options_of result)
        ≡ take 4 (ranked m.now.kernel.place (runners_above (passes m.now.kernel.place kinds.GoesOut) processes.now next last)) }
    ensures measured { AreMeasured m.now.kernel.place (options_of result) }
{
    let Some(pid) = processes.next_after(last) else {
        return Largest {
            first: None,
            second: None,
            third: None,
            fourth: None,
        };
    };
    place_with(
        four_largest(m, processes, next, pid),
        measure(m, processes, next, pid),
    )
}

// Of the largest, the one that is resident longest.
fn longest_of_four(largest: Largest) -> Option<Seen>
    ensures { (p : Placement) → AreMeasured p (options_of largest) → runner_of result ≡ longest p (listed_in (options_of largest)) }
{
    let best = largest.first?.seen;
    let Some(second) = largest.second else {
        return Some(best);
    };
    let best = longer(Some(best), second.seen);
    let Some(third) = largest.third else {
        return Some(best);
    };
    let best = longer(Some(best), third.seen);
    let Some(fourth) = largest.fourth else {
        return Some(best);
    };
    Some(longer(Some(best), fourth.seen))
}

/// Of the four largest of those that could go out, the one that is resident longest.
pub(crate) fn longest_of_largest(m: &Machine, processes: &ProcTable, next: u32) -> Option<Seen>
    requires running { IsRunning m.now }
    requires residents { m.now.kernel.place.residents ≡ residents_of processes.now next }
    requires records { AreRecords processes.now next }
    ensures { runner_of result
        ≡ longest m.now.kernel.place
        (take 4 (ranked m.now.kernel.place (filter (passes m.now.kernel.place kinds.GoesOut) (runners_in (processes_of processes.now next))))) }
{
    longest_of_four(four_largest(m, processes, next, 0))
}
