//! Judges the entries of a transcript by the flat machine, one step after another. Paging entries are passed over.
ghost use Rattle.std.specs.Prelude.{◌≡◌, ℕ, ◌+◌, ◌^◌, ◌<◌, ◌≤◌, ◌==◌, ◌&&◌, ◌++◌, ◌∷◌, [], List, length, true, Some, IfOk, IfSome, OnOk, MatchOption};
ghost use Rattle.flat_process.specs.Images.{AreImageFiles, AreNumbers, images_of};
ghost use Rattle.flat_state.specs.Flat.{Inputs, can_step};
ghost use Rattle.user_vax.specs.Operands.{register};
ghost use Rattle.flat_model.specs.Step.{flat_step, call_entry};
ghost use Rattle.flat_machine.specs.Machine.{entries_of, state_if, entries_if};
ghost use Rattle.replay_check.specs.Judging.{is_other, refused_in, last_behind, begins, IsAt, IsVerdict, HasTaken, HasJudged};
ghost use Rattle.replay_check.specs.Verdicts.{instruction_limit, first_bad, verdict_of};
ghost use Rattle.replay_check.specs.Expecting.{RunsOnly};
ghost use Rattle.flat_state.specs.Journal.{units_with, counted};
ghost use Rattle.flat_model.specs.Run.{Point, flat_entry, flat_units, same_entry, same_carry};
ghost use Rattle.vm_facts.specs.declared.entry.Entry.TheVariants.{Ran, Out, Grew, Call, Sleeps, Refused, Ended};

use flat_machine::{Did, Machine};
use flat_model::SystemCall;
use flat_process::{Flat, Program, load_all};
use std::alloc::Global;
use vm_facts::{Entry, NoMemory, Regs};

/// Instructions that a transcript may have.
pub const INSTRUCTION_LIMIT: u32 = 1_000_000;

/// A run that is judged has at most the number of instructions that FORMATS has.
pub fn instructions_are_documented()
    ensures { instruction_limit ≡ 1000000 }
{}

/// What `replay` answers.
#[derive(Clone, Copy, Debug, PartialEq, Eq, Drop)]
pub enum Verdict {
    /// The entries are a run of the flat machine.
    Run,
    /// The first so many entries are none, and fewer are one.
    BadEntry(u32),
}

// The last flat entry, as far as it matters.
#[derive(Clone, Copy, Debug, Drop)]
pub enum Last {
    Other,
    // The pieces of this process found no place.
    Refused(u32),
    // This process wrote bytes by this call, and these are the registers of its reply.
    Wrote(u32, SystemCall, Regs),
}

#[derive(Drop)]
pub struct Judge<'a> {
    pub alloc: Global,
    pub programs: &'a [Program],
    pub machine: Machine,
    pub last: Last,
    pub count: u32,
    ghost few: { length programs.now < 2 ^ 31 },
}

// Whether registers say this carry and these results.
fn is_reply(regs: &Regs, carry: bool, r0: u32, r1: u32) -> bool
    ensures { result ≡ (same_carry regs.now.c carry && (register regs.now 0 == r0 && register regs.now 1 == r1)) }
{
    regs.c == carry && regs.r[0] == r0 && regs.r[1] == r1
}

// Whether a call that left these registers has this number and says this.
#[tactic(auto, using(crate::proofs::JudgingOutcomes::answer_same))]
fn is_answer(call: SystemCall, regs: &Regs, number: u32, carry: bool, r0: u32, r1: u32) -> bool
    ensures { (pid : ℕ) → result ≡ same_entry (call_entry pid call regs.now) (Call pid number carry r0 r1) }
{
    call.number() == number && is_reply(regs, carry, r0, r1)
}

// Whether the call wrote no byte and answers this.
fn is_replied(did: Did, number: u32, carry: bool, r0: u32, r1: u32) -> bool
    ensures { (pid : ℕ) → result ≡ begins pid did (Call pid number carry r0 r1) }
{
    match did {
        Did::Replied(call, regs) => is_answer(call, &regs, number, carry, r0, r1),
        Did::Wrote(call, bytes, regs) => {
            bytes.as_slice().is_empty() && is_answer(call, &regs, number, carry, r0, r1)
        }
        _ => false,
    }
}

// The instructions that an entry counts.
fn counted(entry: &Entry) -> u32
    ensures { result ≡ counted entry.now }
{
    match entry {
        Entry::Ran { count, .. } => *count,
        Entry::Call { .. } | Entry::Ended { .. } => 1,
        _ => 0,
    }
}

// Whether the stack has so many pages.
#[tactic(auto, using(crate::proofs::JudgingGrowth::grown_begins))]
fn is_grown(did: Did, pages: u32) -> bool
    ensures { (pid : ℕ) → result ≡ begins pid did (Grew pid pages) }
{
    match did {
        Did::Grew(grown) => grown == pages,
        _ => false,
    }
}

// Whether the process waits.
#[tactic(auto, using(crate::proofs::JudgingGrowth::slept_begins))]
fn is_slept(did: Did) -> bool
    ensures { (pid : ℕ) → result ≡ begins pid did (Sleeps pid) }
{
    match did {
        Did::Slept => true,
        _ => false,
    }
}

// Whether the process ended with this status.
#[tactic(auto, using(crate::proofs::JudgingOutcomes::ended_begins))]
fn is_ended(did: Did, status: u32) -> bool
    ensures { (pid : ℕ) → result ≡ begins pid did (Ended pid status) }
{
    match did {
        Did::Ended(ended) => ended == status,
        _ => false,
    }
}

// Whether the call wrote these bytes, one or more.
fn is_written(did: &Did, bytes: &[u8]) -> bool
    ensures { (pid : ℕ) → result ≡ begins pid did.now (Out pid bytes.now) }
{
    match did {
        Did::Wrote(_, written, _) => written.as_slice() == bytes && !bytes.is_empty(),
        _ => false,
    }
}

// What is to come after the first entry of a step: the reply, where bytes were written.
fn last_behind(pid: u32, did: Did) -> Last
    ensures { result ≡ last_behind pid did }
{
    match did {
        Did::Wrote(call, _, regs) => Last::Wrote(pid, call, regs),
        _ => Last::Other,
    }
}

impl<'a> Judge<'a> {
    // One step of a process; nothing where it can't step.
    pub fn step(&mut self, pid: u32, refused: bool) -> Result<Did, NoMemory>
        ensures after { (A : Inputs) → A.images ≡ self.old.programs.now
            → OnOk result (self.new.machine ≡ state_if (can_step self.old.machine pid) self.old.machine (flat_step A self.old.machine pid refused)) }
        ensures entries { (A : Inputs) → A.images ≡ self.old.programs.now
            → IfOk result (λ did. entries_of pid did ≡ entries_if (can_step self.old.machine pid) (flat_step A self.old.machine pid refused)) }
        ensures programs { self.new.programs ≡ self.old.programs }
        ensures last { self.new.last ≡ self.old.last }
    {
        self.machine.step(self.alloc, self.programs, pid, refused)
    }

    // How many of so many instructions of a process run.
    pub fn runs(&mut self, pid: u32, count: u32) -> u32
        ensures few { result ≤ count }
        ensures runs { (A : Inputs) (point : Point) → IsAt A self.old.machine self.old.last point → RunsOnly A point pid count result }
        ensures all { (A : Inputs) (point : Point) → IsAt A self.old.machine self.old.last point → result ≡ count
            → IsVerdict A true self.new.machine self.new.last (flat_units A (Some point) (units_with (Ran pid count) [])) }
        ensures programs { self.new.programs ≡ self.old.programs }
    {
        if !self.is_free() {
            return 0;
        }
        self.machine.run_on(pid, count)
    }

    // Whether so many instructions of a process are the next of a run.
    fn ran(&mut self, pid: u32, count: u32) -> bool
        ensures verdict { (A : Inputs) (point : Point) → IsAt A self.old.machine self.old.last point
            → IsVerdict A result self.new.machine self.new.last (flat_units A (Some point) (units_with (Ran pid count) [])) }
        ensures programs { self.new.programs ≡ self.old.programs }
    {
        self.runs(pid, count) == count
    }

    // Whether no step is begun.
    fn is_free(&self) -> bool
        ensures { result ≡ is_other self.now.last }
    {
        match self.last {
            Last::Other => true,
            Last::Refused(_) | Last::Wrote(..) => false,
        }
    }

    #[tactic(auto, using(crate::proofs::JudgingGrowth::grown_busy))]
    fn grew(&mut self, pid: u32, pages: u32) -> Result<bool, NoMemory>
        ensures verdict { (A : Inputs) (point : Point) → A.images ≡ self.old.programs.now → IsAt A self.old.machine self.old.last point
            → IfOk result (λ ok. IsVerdict A ok self.new.machine self.new.last (flat_entry A point (Grew pid pages))) }
        ensures programs { self.new.programs ≡ self.old.programs }
    {
        if !self.is_free() {
            return Ok(false);
        }
        let did = self.step(pid, false)?;
        Ok(is_grown(did, pages))
    }

    #[tactic(auto, using(crate::proofs::JudgingGrowth::slept_busy))]
    fn slept(&mut self, pid: u32) -> Result<bool, NoMemory>
        ensures verdict { (A : Inputs) (point : Point) → A.images ≡ self.old.programs.now → IsAt A self.old.machine self.old.last point
            → IfOk result (λ ok. IsVerdict A ok self.new.machine self.new.last (flat_entry A point (Sleeps pid))) }
        ensures programs { self.new.programs ≡ self.old.programs }
    {
        if !self.is_free() {
            return Ok(false);
        }
        let did = self.step(pid, false)?;
        Ok(is_slept(did))
    }

    #[tactic(auto, using(crate::proofs::JudgingWrites::wrote_busy))]
    fn wrote(&mut self, pid: u32, bytes: &[u8]) -> Result<bool, NoMemory>
        ensures verdict { (A : Inputs) (point : Point) → A.images ≡ self.old.programs.now → IsAt A self.old.machine self.old.last point
            → IfOk result (λ ok. IsVerdict A ok self.new.machine self.new.last (flat_entry A point (Out pid bytes.now))) }
        ensures programs { self.new.programs ≡ self.old.programs }
    {
        if !self.is_free() {
            return Ok(false);
        }
        let did = self.step(pid, false)?;
        let same = is_written(&did, bytes);
        self.last = last_behind(pid, did);
        Ok(same)
    }

    #[tactic(auto, using(crate::proofs::JudgingGrowth::refused_at, crate::proofs::JudgingGrowth::refused_busy))]
    fn refused(&mut self, pid: u32) -> bool
        ensures verdict { (A : Inputs) (point : Point) → IsAt A self.old.machine self.old.last point
            → IsVerdict A result self.new.machine self.new.last (flat_entry A point (Refused pid)) }
        ensures programs { self.new.programs ≡ self.old.programs }
    {
        if !self.is_free() {
            return false;
        }
        self.last = Last::Refused(pid);
        self.machine.ready_place(pid).is_some()
    }

    // Whether the pieces of this process found no place; None after bytes, or where another's found none.
    fn take_refused(&mut self, pid: u32) -> Option<bool>
        ensures refused { result ≡ refused_in pid self.old.last }
        ensures other { IfSome result (λ refused. self.new.last ≡ Last.Other) }
        ensures machine { self.new.machine ≡ self.old.machine }
        ensures programs { self.new.programs ≡ self.old.programs }
    {
        match self.last {
            Last::Other => Some(false),
            Last::Refused(of) if of == pid => {
                self.last = Last::Other;
                Some(true)
            }
            Last::Refused(_) | Last::Wrote(..) => None,
        }
    }

    #[tactic(auto, using(crate::proofs::JudgingOutcomes::ended_shut))]
    fn ended(&mut self, pid: u32, status: u32) -> Result<bool, NoMemory>
        ensures verdict { (A : Inputs) (point : Point) → A.images ≡ self.old.programs.now → IsAt A self.old.machine self.old.last point
            → IfOk result (λ ok. IsVerdict A ok self.new.machine self.new.last (flat_entry A point (Ended pid status))) }
        ensures programs { self.new.programs ≡ self.old.programs }
    {
        let Some(refused) = self.take_refused(pid) else {
            return Ok(false);
        };
        let did = self.step(pid, refused)?;
        Ok(is_ended(did, status))
    }

    fn called(
        &mut self,
        pid: u32,
        number: u32,
        carry: bool,
        r0: u32,
        r1: u32,
    ) -> Result<bool, NoMemory>
        ensures verdict { (A : Inputs) (point : Point) → A.images ≡ self.old.programs.now → IsAt A self.old.machine self.old.last point
            → IfOk result (λ ok. IsVerdict A ok self.new.machine self.new.last (flat_entry A point (Call pid number carry r0 r1))) }
        ensures programs { self.new.programs ≡ self.old.programs }
    {
        if let Last::Wrote(of, call, regs) = self.last {
            self.last = Last::Other;
            return Ok(of == pid && is_answer(call, &regs, number, carry, r0, r1));
        }
        let Some(refused) = self.take_refused(pid) else {
            return Ok(false);
        };
        let did = self.step(pid, refused)?;
        Ok(is_replied(did, number, carry, r0, r1))
    }

    // Whether an entry is the next of a run.
    fn judge(&mut self, entry: &Entry) -> Result<bool, NoMemory>
        ensures verdict { (A : Inputs) (point : Point) → A.images ≡ self.old.programs.now → IsAt A self.old.machine self.old.last point
            → IfOk result (λ ok. IsVerdict A ok self.new.machine self.new.last (flat_units A (Some point) (units_with entry.now []))) }
        ensures programs { self.new.programs ≡ self.old.programs }
    {
        match entry {
            Entry::Ran { pid, count } => Ok(self.ran(*pid, *count)),
            Entry::Out { pid, bytes } => self.wrote(*pid, bytes.as_slice()),
            Entry::Grew { pid, pages } => self.grew(*pid, *pages),
            Entry::Call {
                pid,
                number,
                carry,
                r0,
                r1,
            } => self.called(*pid, *number, *carry, *r0, *r1),
            Entry::Refused { pid } => Ok(self.refused(*pid)),
            Entry::Sleeps { pid } => self.slept(*pid),
            Entry::Ended { pid, status } => self.ended(*pid, *status),
            _ => Ok(true),
        }
    }

    // The instructions counted with those of an entry; None where they are too many.
    pub fn counted(&self, entry: &Entry) -> Option<u32>
        ensures { MatchOption result (instruction_limit < self.now.count + counted entry.now)
            (λ count. (count ≡ self.now.count + counted entry.now) × (count ≤ instruction_limit)) }
    {
        let count = u64::from(self.count) + u64::from(counted(entry));
        if count > u64::from(INSTRUCTION_LIMIT) {
            return None;
        }
        Some(count as u32)
    }

    // Whether an entry is the next of a run that may have its instructions.
    pub fn accepts(&mut self, entry: &Entry) -> Result<bool, NoMemory>
        ensures judged { (A : Inputs) (journal : List Entry) → A.images ≡ self.old.programs.now
            → HasTaken A self.old.machine self.old.last self.old.count journal
            → IfOk result (λ ok. HasJudged A ok self.new.machine self.new.last self.new.count (journal ++ entry.now ∷ [])) }
        ensures programs { self.new.programs ≡ self.old.programs }
    {
        let Some(count) = self.counted(entry) else {
            return Ok(false);
        };
        let accepted = self.judge(entry)?;
        self.count = count;
        Ok(accepted)
    }

    // The verdict on these entries, which are the first.
    fn judge_all(&mut self, entries: &[Entry]) -> Result<Verdict, NoMemory>
        requires few { length entries.now < 2 ^ 32 }
        ensures { (A : Inputs) → A.images ≡ self.old.programs.now → HasTaken A self.old.machine self.old.last self.old.count []
            → IfOk result (λ verdict. verdict ≡ verdict_of (first_bad A entries.now)) }
    {
        for index in 0..entries.len() {
            if !self.accepts(&entries[index])? {
                return Ok(Verdict::BadEntry(index as u32 + 1));
            }
        }
        Ok(Verdict::Run)
    }
}

/// Judges the entries of a journal by the flat machine, over these images, whose processes `first` are started.
pub fn replay(
    alloc: Global,
    images: &[Flat],
    first: &[u32],
    entries: &[Entry],
) -> Result<Verdict, NoMemory>
    requires images { AreImageFiles images.now }
    requires first { AreNumbers (length images.now) first.now }
    requires entries { length entries.now < 2 ^ 32 }
    ensures { (A : Inputs) → A.images ≡ images_of images.now → A.first ≡ first.now → IfOk result (λ verdict. verdict ≡ verdict_of (first_bad A entries.now)) }
{
    let programs = load_all(alloc, images)?;
    let machine = Machine::started(alloc, programs.as_slice(), first)?;
    let mut judge = Judge {
        alloc,
        programs: programs.as_slice(),
        machine,
        last: Last::Other,
        count: 0,
    };
    judge.judge_all(entries)
}
