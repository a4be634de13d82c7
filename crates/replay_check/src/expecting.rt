//! What the flat machine gives in place of a transcript's first bad entry. It is asked only once the transcript was
//! refused.
ghost use Rattle.std.specs.Prelude.{◌≡◌, ℕ, ◌+◌, ◌-◌, ◌^◌, ◌<◌, ◌++◌, ◌∷◌, [], List, nat_le, length, is_some, Bool, true, Some, None, IfOk, OnOk};
ghost use Rattle.flat_state.specs.Flat.{Inputs, process_of};
ghost use Rattle.flat_state.specs.Journal.{counted, instructions_of};
ghost use Rattle.vm_facts.specs.declared.entry.Entry.TheVariants.{Ran};
ghost use Rattle.flat_model.specs.Step.{call_entry};
ghost use Rattle.flat_model.specs.Run.{Point, first_if, flat_entry, is_outcome_of, process_of_entry};
ghost use Rattle.flat_machine.specs.Machine.{entries_of};
ghost use Rattle.flat_process.specs.Images.{AreImageFiles, AreNumbers, images_of};
ghost use Rattle.replay_check.specs.Judging.{refused_in, IsAt, IsVerdict, HasTaken};
ghost use Rattle.replay_check.specs.Verdicts.{first_bad, instruction_limit};
ghost use Rattle.replay_check.specs.Expecting.{follows_if, comes_if, comes_or, run_length, missing, is_one, expected_of, IsExpected, IsExpectedAt, IsExpectedBehind, IsExplained};

use crate::replaying::{Judge, Last, Verdict, replay};
use flat_machine::{Did, Machine};
use flat_model::SystemCall;
use flat_process::{Flat, load_all};
use std::alloc::Global;
use vm_facts::{Entry, NoMemory, Regs};

/// What the flat machine gives where an entry is none of its run.
#[derive(Debug, Drop)]
pub enum Expected {
    /// This entry comes next.
    Comes(Entry),
    /// This entry comes next, and no `Refused` can stand before it, as it does: it is no call that asks for pieces of
    /// swap space.
    Unrefused(Entry),
    /// The process of this number is there and can't step: it sleeps, lent its space, or ended.
    CannotStep(u32),
    /// There is no process of this number.
    NoProcess(u32),
    /// The run would have more instructions than may be.
    TooMany,
}

/// The first entry that is none of a run.
#[derive(Debug, Drop)]
pub struct Misfit {
    /// Its number, from 1 on.
    pub number: u32,
    /// What the flat machine gives in its place.
    pub expected: Expected,
}

// The process of a flat entry.
fn process_of_entry(entry: &Entry) -> Option<u32>
    ensures { result ≡ process_of_entry entry.now }
{
    match entry {
        Entry::Ran { pid, .. }
        | Entry::Out { pid, .. }
        | Entry::Grew { pid, .. }
        | Entry::Call { pid, .. }
        | Entry::Refused { pid }
        | Entry::Sleeps { pid }
        | Entry::Ended { pid, .. } => Some(*pid),
        _ => None,
    }
}

// The entry of a call that left these registers.
fn call_entry(pid: u32, call: SystemCall, regs: &Regs) -> Entry
    ensures { result ≡ call_entry pid call regs.now }
{
    Entry::Call {
        pid,
        number: call.number(),
        carry: regs.c,
        r0: regs.r[0],
        r1: regs.r[1],
    }
}

// The first entry of what a process did.
fn first_entry(pid: u32, did: Did) -> Option<Entry>
    ensures { result ≡ first_if true (entries_of pid did) }
{
    match did {
        Did::Nothing => None,
        Did::Ran => Some(Entry::Ran { pid, count: 1 }),
        Did::Grew(pages) => Some(Entry::Grew { pid, pages }),
        Did::Replied(call, regs) => Some(call_entry(pid, call, &regs)),
        Did::Wrote(call, bytes, regs) => {
            if bytes.as_slice().is_empty() {
                Some(call_entry(pid, call, &regs))
            } else {
                Some(Entry::Out { pid, bytes })
            }
        }
        Did::Slept => Some(Entry::Sleeps { pid }),
        Did::Ended(status) => Some(Entry::Ended { pid, status }),
    }
}

// Whether an entry is the reply or the end of this process.
fn is_outcome(pid: u32, entry: &Entry) -> bool
    ensures { result ≡ is_outcome_of pid entry.now }
{
    match entry {
        Entry::Call { pid: of, .. } | Entry::Ended { pid: of, .. } => *of == pid,
        _ => false,
    }
}

// Whether an entry follows where the pieces of a process found no place or not.
fn follows_if(refused: bool, pid: u32, entry: &Entry) -> bool
    ensures { result ≡ follows_if refused pid entry.now }
{
    if refused {
        is_outcome(pid, entry)
    } else {
        true
    }
}

fn comes_if(follows: bool, entry: Entry) -> Expected
    ensures { result ≡ comes_if follows entry }
{
    if follows {
        Expected::Comes(entry)
    } else {
        Expected::Unrefused(entry)
    }
}

// This entry comes next, where there is one.
fn comes_or(refused: bool, pid: u32, next: Option<Entry>, absent: Expected) -> Expected
    ensures { result ≡ comes_or refused pid next absent }
{
    match next {
        Some(entry) => comes_if(follows_if(refused, pid, &entry), entry),
        None => absent,
    }
}

// The instructions of a `Ran`.
fn run_length(entry: &Entry) -> u32
    ensures { result ≡ run_length entry.now }
{
    match entry {
        Entry::Ran { count, .. } => *count,
        _ => 0,
    }
}

// Whether one instruction comes next.
fn is_one(expected: &Expected) -> bool
    ensures { result ≡ is_one expected.now }
{
    match expected {
        Expected::Comes(Entry::Ran { .. }) => true,
        _ => false,
    }
}

impl<'a> Judge<'a> {
    // Why a process has no next entry.
    #[tactic(auto, using(crate::proofs::Misfits::there, crate::proofs::Misfits::not_there))]
    fn missing(&self, pid: u32) -> Expected
        ensures { result ≡ missing pid (process_of self.now.machine pid) }
    {
        match self.machine.place_of(pid) {
            Some(_) => Expected::CannotStep(pid),
            None => Expected::NoProcess(pid),
        }
    }

    // The next entry of a process, whose pieces found no place or not, or why it has none.
    fn next_of(&mut self, pid: u32, refused: bool) -> Result<Expected, NoMemory>
        ensures expected { (A : Inputs) (point : Point) → A.images ≡ self.old.programs.now → refused_in pid self.old.last ≡ Some refused
            → IsAt A self.old.machine self.old.last point → IfOk result (λ expected. expected ≡ expected_of A point pid) }
        ensures verdict { (A : Inputs) (point : Point) → A.images ≡ self.old.programs.now → refused_in pid self.old.last ≡ Some refused
            → self.old.last ≡ Last.Other
            → IsAt A self.old.machine self.old.last point
            → IfOk result (λ expected. IsVerdict A (is_one expected) self.new.machine self.new.last (flat_entry A point (Ran pid 1))) }
        ensures programs { self.new.programs ≡ self.old.programs }
    {
        let absent = self.missing(pid);
        let did = self.step(pid, refused)?;
        Ok(comes_or(refused, pid, first_entry(pid, did), absent))
    }

    // The instructions that run of so many, and else the next entry of the process, where no step has begun.
    fn expected_free(&mut self, pid: u32, count: u32) -> Result<Expected, NoMemory>
        ensures { (A : Inputs) (point : Point) → A.images ≡ self.old.programs.now → self.old.last ≡ Last.Other
            → IsAt A self.old.machine self.old.last point → IfOk result (IsExpected A point pid count) }
    {
        let expected = self.next_of(pid, false)?;
        if count == 0 {
            return Ok(expected);
        }
        if !is_one(&expected) {
            return Ok(expected);
        }
        let more = self.runs(pid, count - 1);
        Ok(Expected::Comes(Entry::Ran {
            pid,
            count: more + 1,
        }))
    }

    // What the process that is due gives in place of an entry.
    fn expected(&mut self, entry: &Entry) -> Result<Option<Expected>, NoMemory>
        ensures { (A : Inputs) (point : Point) → A.images ≡ self.old.programs.now → IsAt A self.old.machine self.old.last point
            → IfOk result (IsExpectedAt A point entry.now) }
    {
        match self.last {
            Last::Other => match process_of_entry(entry) {
                Some(pid) => Ok(Some(self.expected_free(pid, run_length(entry))?)),
                None => Ok(None),
            },
            Last::Refused(pid) => Ok(Some(self.next_of(pid, true)?)),
            Last::Wrote(pid, call, regs) => Ok(Some(Expected::Comes(call_entry(pid, call, &regs)))),
        }
    }

    // Takes these entries, which are the first and a run.
    fn follow(&mut self, entries: &[Entry]) -> Result<(), NoMemory>
        ensures taken { (A : Inputs) → A.images ≡ self.old.programs.now → HasTaken A self.old.machine self.old.last self.old.count []
            → first_bad A entries.now ≡ None
            → OnOk result (HasTaken A self.new.machine self.new.last self.new.count entries.now) }
        ensures programs { self.new.programs ≡ self.old.programs }
    {
        for index in 0..entries.len() {
            self.accepts(&entries[index])?;
        }
        Ok(())
    }

    // What is expected in place of an entry after these, which are the first and a run.
    fn expected_behind(&mut self, good: &[Entry], bad: &Entry) -> Result<Option<Expected>, NoMemory>
        ensures { (A : Inputs) → A.images ≡ self.old.programs.now → HasTaken A self.old.machine self.old.last self.old.count []
            → first_bad A good.now ≡ None → IfOk result (IsExpectedBehind A good.now bad.now) }
    {
        self.follow(good)?;
        match self.counted(bad) {
            Some(_) => self.expected(bad),
            None => Ok(Some(Expected::TooMany)),
        }
    }
}

// What is expected in place of the entry of this number, which is the first bad one.
fn misfit_at(
    alloc: Global,
    images: &[Flat],
    first: &[u32],
    entries: &[Entry],
    number: u32,
) -> Result<Option<Misfit>, NoMemory>
    requires images { AreImageFiles images.now }
    requires first { AreNumbers (length images.now) first.now }
    ensures { (A : Inputs) → A.images ≡ images_of images.now → A.first ≡ first.now → first_bad A entries.now ≡ Some number
        → IfOk result (IsExplained A entries.now) }
{
    let Some(index) = number.checked_sub(1) else {
        return Ok(None);
    };
    let index = index as usize;
    if index >= entries.len() {
        return Ok(None);
    }
    let programs = load_all(alloc, images)?;
    let machine = Machine::started(alloc, programs.as_slice(), first)?;
    let mut judge = Judge {
        alloc,
        programs: programs.as_slice(),
        machine,
        last: Last::Other,
        count: 0,
    };
    match judge.expected_behind(&entries[..index], &entries[index])? {
        Some(expected) => Ok(Some(Misfit { number, expected })),
        None => Ok(None),
    }
}

/// The first entry of a journal that is none of a run of the flat machine, as `replay` judges, and what the flat
/// machine gives in its place: of the process of that entry, or of the one before whose step isn't complete. None
/// where the entries are a run.
pub fn explain(
    alloc: Global,
    images: &[Flat],
    first: &[u32],
    entries: &[Entry],
) -> Result<Option<Misfit>, NoMemory>
    requires images { AreImageFiles images.now }
    requires first { AreNumbers (length images.now) first.now }
    requires entries { length entries.now < 2 ^ 32 }
    ensures { (A : Inputs) → A.images ≡ images_of images.now → A.first ≡ first.now → IfOk result (IsExplained A entries.now) }
{
    match replay(alloc, images, first, entries)? {
        Verdict::Run => Ok(None),
        Verdict::BadEntry(number) => misfit_at(alloc, images, first, entries, number),
    }
}
