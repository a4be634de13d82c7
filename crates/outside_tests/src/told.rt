//! A swap file over a system in memory, whose calls fail by their numbers: what it holds after a failed call, which files it refuses,
//! and what a device that is checked tells.
use crate::calls::{Answer, Call, answers};
use crate::checks::is;
use crate::folder::told;
use io_edge::SwapDev;
use std::alloc::Global;
use std::process::Abort;
use system_edge::{CheckedSwap, FileSwap};
use system_memory::{Faults, MemSystem};

// These calls are to fail.
fn faults(rt: &impl Abort, alloc: Global, fail: &[u64]) -> Faults {
    Faults::new(fail.to_vec(alloc).expect(rt, "memory for numbers"), 0)
}

// A system without files to be read.
fn system<'m>(alloc: Global, faults: &'m Faults) -> MemSystem<'m> {
    MemSystem::new(alloc, Vec::new(alloc), faults)
}

// The file is made by three calls.
static APART: [(Call, Answer); 10] = [
    (Call::Write(2, 5), Answer::Written),
    (Call::Read(6), Answer::Filled(0)),
    (Call::Read(2), Answer::Filled(5)),
    (Call::Write(6, 3), Answer::Written),
    (Call::WriteThree(0, [1, 2, 4]), Answer::Pages(3)),
    (Call::Read(0), Answer::Filled(1)),
    (Call::Read(2), Answer::Filled(2)),
    (Call::Read(4), Answer::Filled(4)),
    (Call::Read(6), Answer::Filled(3)),
    (Call::Write(6, 9), Answer::Written),
];

#[test]
fn a_swap_file_in_memory_holds_each_page_apart(rt: HostRuntime) {
    let faults = faults(&rt, rt.alloc(), &[]);
    let system = system(rt.alloc(), &faults);
    let mut swap = FileSwap::new(&system, "some.swap", 8);
    answers(&rt, &mut swap, &APART);
}

// The fourth call is the first write. The file ends within its page then.
static HALF_WRITTEN: [(Call, Answer); 6] = [
    (Call::Write(2, 5), Answer::Failed),
    (Call::Read(2), Answer::Failed),
    (Call::Read(0), Answer::Filled(0)),
    (Call::Read(4), Answer::Filled(0)),
    (Call::Write(2, 6), Answer::Written),
    (Call::Read(2), Answer::Filled(6)),
];

#[test]
fn a_failed_write_spoils_its_page_alone(rt: HostRuntime) {
    let faults = faults(&rt, rt.alloc(), &[4]);
    let system = system(rt.alloc(), &faults);
    let mut swap = FileSwap::new(&system, "half.swap", 8);
    answers(&rt, &mut swap, &HALF_WRITTEN);
}

static OPENED_LATER: [(Call, Answer); 3] = [
    (Call::Read(0), Answer::Failed),
    (Call::Write(2, 5), Answer::Failed),
    (Call::Read(2), Answer::Filled(0)),
];

#[test]
fn a_swap_file_that_could_not_be_opened_is_opened_by_a_later_call(rt: HostRuntime) {
    let faults = faults(&rt, rt.alloc(), &[1, 3]);
    let system = system(rt.alloc(), &faults);
    let mut swap = FileSwap::new(&system, "later.swap", 8);
    answers(&rt, &mut swap, &OPENED_LATER);
}

// A file of another kind under the name of a swap file.
#[derive(Clone, Copy, Debug)]
enum Kind {
    Own,
    Link,
    Folder,
    Other,
    TwoNames,
    Foreign,
    ForeignUntold,
    Locked,
}

// A system in which such a file is there.
fn system_of<'m>(alloc: Global, faults: &'m Faults, kind: Kind) -> MemSystem<'m> {
    let mut system = system(alloc, faults);
    system.is_there = true;
    match kind {
        Kind::Own => {}
        Kind::Link => system.named.is_link = true,
        Kind::Folder => system.named.is_plain = false,
        Kind::Other => system.opened.number = 2,
        Kind::TwoNames => system.opened.names = 2,
        Kind::Foreign => system.opened.owner = 2,
        Kind::ForeignUntold => {
            system.opened.owner = 2;
            system.user = None;
        }
        Kind::Locked => system.is_locked = true,
    }
    system
}

// What is told where a page is written to such a file; nothing where it was written.
fn refusal_of(alloc: Global, faults: &Faults, kind: Kind) -> String {
    let system = system_of(alloc, faults, kind);
    let mut swap = FileSwap::new(&system, "s", 8);
    let _ = swap.write(0, &[5; 1024]);
    told(alloc, swap.last_refusal())
}

static REFUSED: [(Kind, &str); 8] = [
    (Kind::Own, ""),
    (Kind::Link, "s: is a link, and no plain file"),
    (Kind::Folder, "s: is no plain file"),
    (Kind::Other, "s: became another file"),
    (Kind::TwoNames, "s: is a file that has another name too"),
    (Kind::Foreign, "s: belongs to another user"),
    (Kind::ForeignUntold, ""),
    (
        Kind::Locked,
        "s: in use by another run in this folder, or as a file of this run",
    ),
];

#[test]
fn a_file_that_is_not_the_runs_own_is_refused(rt: HostRuntime) {
    let faults = faults(&rt, rt.alloc(), &[]);
    for (kind, wanted) in &REFUSED {
        let refusal = refusal_of(rt.alloc(), &faults, *kind);
        is(&rt, &refusal.as_str(), wanted);
    }
}

// The sixth call is the last write: half of the page is there.
static CHANGED: [(Call, Answer); 5] = [
    (Call::Write(0, 1), Answer::Written),
    (Call::Write(2, 5), Answer::Written),
    (Call::Write(0, 7), Answer::Failed),
    (Call::Read(2), Answer::Filled(5)),
    (Call::Read(0), Answer::Failed),
];

#[test]
fn another_page_than_was_written_is_told_where_a_device_is_checked(rt: HostRuntime) {
    let faults = faults(&rt, rt.alloc(), &[6]);
    let system = system(rt.alloc(), &faults);
    let swap = FileSwap::new(&system, "s", 8);
    let mut checked = CheckedSwap::new(rt.alloc(), swap).expect(&rt, "memory for a copy");
    answers(&rt, &mut checked, &CHANGED);
    let refusal = told(rt.alloc(), checked.last_refusal());
    is(
        &rt,
        &refusal.as_str(),
        &"s: other bytes came than were written",
    );
}

static CHECKED: [(Call, Answer); 6] = [
    (Call::Read(0), Answer::Filled(0)),
    (Call::Write(6, 3), Answer::Written),
    (Call::WriteThree(0, [1, 2, 4]), Answer::Pages(3)),
    (Call::Read(2), Answer::Filled(2)),
    (Call::Read(4), Answer::Filled(4)),
    (Call::Read(6), Answer::Filled(3)),
];

#[test]
fn a_device_that_is_checked_holds_each_page_apart(rt: HostRuntime) {
    let faults = faults(&rt, rt.alloc(), &[]);
    let system = system(rt.alloc(), &faults);
    let swap = FileSwap::new(&system, "s", 8);
    let mut checked = CheckedSwap::new(rt.alloc(), swap).expect(&rt, "memory for a copy");
    answers(&rt, &mut checked, &CHECKED);
}
