//! One attempt at a process's next instruction, with its call or the page that it misses. The journal must have room
//! before anything is written.
ghost use Rattle.io_edge.specs.WithFiles.{stores};
ghost use Rattle.std.specs.Prelude.{◌≡◌, ◌⊎◌, ◌+◌, ◌^◌, ◌<◌, false, Some, IfOk, OnOk, IfErr, OnErr, IfSome, Err};
ghost use Rattle.vm_facts.specs.declared.entry.Entry.TheVariants.{Ran};
ghost use Rattle.user_vax.specs.Program.{run};
ghost use Rattle.user_vax.specs.Instruction.{instruction, answer_of};
ghost use Rattle.flat_state.specs.Journal.{instructions_of};
ghost use Rattle.machine_state.specs.Going.{CanGoOn};
ghost use Rattle.machine_state.specs.Conditions.{HasStopped};
ghost use Rattle.machine_state.specs.Joined.{IsFullFor};
ghost use Rattle.machine_state.specs.UserMemory.{CanLend};
ghost use Rattle.machine_state.specs.Outside.{IsBacked, stop_of, TransfersPages};
ghost use Rattle.step_units.specs.Callers.{regs_of};
ghost use Rattle.step_units.specs.Ready.{Continues};
ghost use Rattle.step_units.specs.Sizes.{KeptAtStop};
ghost use Rattle.step_units.specs.Stepped.{LeadsFrom, StopsFrom};
ghost use Rattle.proc_run.specs.Calls.{own_answers};
ghost use Rattle.proc_run.specs.Runs.{IsSteady, is_now, counts, HasRunner, AdvancesTo};
ghost use Rattle.proc_run.specs.Stretch.{MissesByte};

use crate::attempting::{attempt_cached, completes, has_room};
use crate::calling::call;
use crate::serving::serve_access;
use crate::stretch::Missed;
use io_edge::{Files, SwapDev};
use machine_state::{Machine, or_stop};
use std::alloc::Global;
use step_units::proc_calls::kill;
use user_step::DecodeCache;
use user_vax::Stepped;
use vm_facts::{Regs, Stop};

/// How long a process runs.
#[derive(Clone, Copy, Debug, PartialEq, Eq, Drop)]
pub enum Patience {
    /// Until it would have to wait for a page: a dispatch.
    Stops,
    /// On, once its page has come in: a turn of the closing phase.
    Waits,
}

/// What one attempt at the next instruction of a process comes to.
#[derive(Clone, Copy, Debug, PartialEq, Eq, Drop)]
pub enum Advance {
    /// The instruction is complete, and counts.
    Counted,
    /// A page that it waits for was served.
    Served,
    /// The process sleeps, or would have to wait for a page.
    Stuck,
}

// Makes room in the journal for the next instruction of a process. Where the journal is full the instruction is tried first over
// a memory that keeps what is written to itself: one that has to wait for a page needs no entry, and where it is carried out the
// run stops before anything is written.
fn make_room(alloc: Global, m: &mut Machine, pid: u32, before: &Regs) -> Result<(), Stop>
    requires ready { CanGoOn m.old }
    requires lends { CanLend m.old.kernel pid }
    ensures only { OnOk result (m.new ≡ record m.old { room = m.new.room }) }
    ensures room { OnOk result (answer_of (run (own_answers m.old pid) (instruction before.now)) ≡ Stepped.Done → m.new.room ≡ Some pid) }
    ensures stop { OnErr result (HasStopped m.old m.new) }
    ensures cause { OnErr result ((result ≡ Err Stop.JournalFull) ⊎ (result ≡ Err Stop.NoMemory)) }
    ensures full { result ≡ Err Stop.JournalFull → IsFullFor m.old.kernel.journal m.old.params.journal (Ran pid 1) }
    ensures done { result ≡ Err Stop.JournalFull → answer_of (run (own_answers m.old pid) (instruction before.now)) ≡ Stepped.Done }
    ensures goes_on { OnOk result (CanGoOn m.new) }
{
    if !has_room(m, pid) {
        let completes = completes(alloc, m, pid, before);
        if !or_stop(completes)? {
            return Ok(());
        }
    }
    m.room(pid)
}

/// The next instruction of a process, whose registers these are, or a page that it touches. Where the journal is full the
/// instruction is tried all the same, since a process that has to wait for a page needs no entry; where it would be carried out the
/// run stops, and nothing was written.
pub fn next_step<F: Files, D: SwapDev>(
    alloc: Global,
    cache: &mut DecodeCache,
    m: &mut Machine,
    files: &mut F,
    swap: &mut D,
    pid: u32,
    before: &Regs,
    patience: Patience,
) -> Result<Advance, Stop>
    requires steady { IsSteady m.old }
    requires lends { CanLend m.old.kernel pid }
    requires backed { IsBacked m.old (F.holds files.old) (D.blocks swap.old) }
    requires registers { before.now ≡ regs_of m.old.kernel pid }
    requires fits { instructions_of m.old.kernel.journal + 1 < 2 ^ 32 }
    ensures advances { IfOk result (λ advance. LeadsFrom
        (HasRunner m.old (F.holds files.old) (stores F.Files D.SwapDev files.old swap.old) pid (is_now patience))
        (AdvancesTo m.old.kernel m.new.kernel (stores F.Files D.SwapDev files.new swap.new) advance)) }
    ensures stops { IfErr result (StopsFrom (HasRunner m.old (F.holds files.old) (stores F.Files D.SwapDev files.old swap.old) pid (is_now patience)) m.old
        m.new (stores F.Files D.SwapDev files.new swap.new)) }
    ensures continues { IfOk result (λ advance. Continues m.old m.new (counts advance)) }
    ensures goes_on { OnOk result (CanGoOn m.new) }
    ensures kept { IfErr result (KeptAtStop m.old m.new) }
    ensures outside { TransfersPages F.Files D.SwapDev (stop_of result) files.old files.new swap.old swap.new }
{
    make_room(alloc, m, pid, before)?;
    let mut regs = *before;
    match attempt_cached(cache, m, pid, &mut regs) {
        Stepped::Done => {
            m.ran(pid, &regs);
            Ok(Advance::Counted)
        }
        Stepped::Call(number) => call(alloc, m, files, swap, pid, number, before, &regs, patience),
        Stepped::Miss { address, write } => {
            serve_access(alloc, m, files, swap, pid, before, address, write, patience)
        }
        Stepped::Below { address } => {
            serve_access(alloc, m, files, swap, pid, before, address, false, patience)
        }
        Stepped::Signal(signal) => {
            kill(m, files, swap, pid, signal)?;
            Ok(Advance::Counted)
        }
    }
}

/// The next instruction of a process, as `next_step` has it, or the page of a byte that it is known to miss.
pub fn advance_from<F: Files, D: SwapDev>(
    alloc: Global,
    cache: &mut DecodeCache,
    m: &mut Machine,
    files: &mut F,
    swap: &mut D,
    pid: u32,
    before: &Regs,
    missed: Option<Missed>,
    patience: Patience,
) -> Result<Advance, Stop>
    requires steady { IsSteady m.old }
    requires lends { CanLend m.old.kernel pid }
    requires backed { IsBacked m.old (F.holds files.old) (D.blocks swap.old) }
    requires registers { before.now ≡ regs_of m.old.kernel pid }
    requires fits { instructions_of m.old.kernel.journal + 1 < 2 ^ 32 }
    requires known { IfSome missed (MissesByte (own_answers m.old pid) before.now) }
    ensures advances { IfOk result (λ advance. LeadsFrom
        (HasRunner m.old (F.holds files.old) (stores F.Files D.SwapDev files.old swap.old) pid (is_now patience))
        (AdvancesTo m.old.kernel m.new.kernel (stores F.Files D.SwapDev files.new swap.new) advance)) }
    ensures stops { IfErr result (StopsFrom (HasRunner m.old (F.holds files.old) (stores F.Files D.SwapDev files.old swap.old) pid (is_now patience)) m.old
        m.new (stores F.Files D.SwapDev files.new swap.new)) }
    ensures continues { IfOk result (λ advance. Continues m.old m.new (counts advance)) }
    ensures goes_on { OnOk result (CanGoOn m.new) }
    ensures kept { IfErr result (KeptAtStop m.old m.new) }
    ensures outside { TransfersPages F.Files D.SwapDev (stop_of result) files.old files.new swap.old swap.new }
{
    match missed {
        Some(byte) => serve_access(
            alloc,
            m,
            files,
            swap,
            pid,
            before,
            byte.address,
            byte.write,
            patience,
        ),
        None => next_step(alloc, cache, m, files, swap, pid, before, patience),
    }
}
