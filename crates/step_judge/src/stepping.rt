//! Judges a line of a process: what comes next is made, then compared with it. After a reason the machine may have
//! gone another way, and may not be used again.
ghost use Rattle.io_edge.specs.WithFiles.{stores};
ghost use Rattle.std.specs.Prelude.{◌≡◌, ◌≢◌, ◌↔◌, ◌+◌, ◌≤◌, true, false, length, Some, None, IfOk, OnOk};
ghost use Rattle.vm_facts.specs.declared.entry.Entry.TheVariants as entries;
ghost use Rattle.user_vax.specs.Program.{run};
ghost use Rattle.user_vax.specs.Instruction.{instruction, answer_of};
ghost use Rattle.flat_state.specs.Journal.{instructions_of, IsUnit};
ghost use Rattle.flat_model.specs.Run.{process_of_entry};
ghost use Rattle.page_model.specs.Placement.{state_of};
ghost use Rattle.machine_state.specs.Going.{CanGoOn, IsRunning};
ghost use Rattle.machine_state.specs.Outside.{Asks};
ghost use Rattle.proc_run.specs.Callers.{regs_of};
ghost use Rattle.proc_run.specs.LastMoves.{last_moves};
ghost use Rattle.proc_run.specs.Stepped.{AtSome, LeadsFrom};
ghost use Rattle.paged_model.specs.declared.reason.Reason.TheVariants as reasons;
ghost use Rattle.proc_run.specs.Calls.{own_answers};
ghost use Rattle.step_judge.specs.At.{JudgedAt, SoonAt, ReadyAt, ActsAt};
ghost use Rattle.step_judge.specs.Told.{is_ran, ActTold, LeftTold, InTold, StepTold, GoesOnWith};

use crate::making::{make_act, make_rest};
use crate::ready::not_ready;
use crate::telling::told_by;
use io_edge::{Files, SwapDev};
use machine_state::Machine;
use move_judge::looking::state;
use paged_model::Reason;
use proc_run::{Begun, DecodeCache, attempt_cached, completes, ready_regs, touched_and_wanted};
use std::alloc::Global;
use user_vax::Stepped;
use vm_facts::{Entry, NoMemory, Page, Regs};

// Room for one more instruction of a process.
fn ask_room(m: &mut Machine, pid: u32) -> Result<(), NoMemory>
    requires { CanGoOn m.old }
    ensures only { OnOk result (m.new ≡ record m.old { room = Some pid }) }
    ensures goes_on { OnOk result (CanGoOn m.new) }
{
    match m.room(pid) {
        Ok(()) => Ok(()),
        Err(_) => Err(NoMemory),
    }
}

fn is_done(stepped: Stepped) -> bool
    ensures { (result ≡ true) ↔ (stepped ≡ Stepped.Done) }
{
    matches!(stepped, Stepped::Done)
}

fn is_ran(e: &Entry) -> bool
    ensures { result ≡ is_ran e.now }
{
    matches!(e, Entry::Ran { .. })
}

fn in_state(m: &Machine, page: Page) -> Reason
    requires { IsRunning m.now }
    ensures { result ≡ reasons.InState page (state_of m.now.kernel.place page) }
{
    Reason::InState(page, state(m, page))
}

// What the process does next is made, and compared with the line.
fn act_told<F: Files, D: SwapDev>(
    alloc: Global,
    cache: &mut DecodeCache,
    m: &mut Machine,
    files: &mut F,
    swap: &mut D,
    counted: u32,
    pid: u32,
    e: &Entry,
) -> Result<Option<Reason>, NoMemory>
    requires asks { Asks m.old (F.holds files.old) (D.blocks swap.old) }
    requires low { last_moves m.old.kernel.journal ≤ 1000000 }
    requires bound { m.old.params.journal ≡ length m.old.kernel.journal + 1 }
    requires counted { instructions_of m.old.kernel.journal ≡ counted }
    requires acts { AtSome (ActsAt m.old counted None (F.holds files.old) (stores F.Files D.SwapDev files.old swap.old) pid) }
    ensures told { IfOk result (λ reason. LeadsFrom (ActsAt m.old counted None (F.holds files.old) (stores F.Files D.SwapDev files.old swap.old) pid)
        (ActTold reason e.now pid m.old.kernel m.new.kernel (stores F.Files D.SwapDev files.new swap.new))) }
    ensures on { IfOk result (λ reason. reason ≡ None → GoesOnWith m.old m.new) }
    ensures holds { F.holds files.new ≡ F.holds files.old }
    ensures blocks { D.blocks swap.new ≡ D.blocks swap.old }
{
    make_act(alloc, cache, m, files, swap, counted, pid)?;
    told_by(alloc, m.journal(), pid, e)
}

// The same of what is left of a step that is begun so.
fn rest_told<F: Files, D: SwapDev>(
    alloc: Global,
    m: &mut Machine,
    files: &mut F,
    swap: &mut D,
    counted: u32,
    begun: Begun,
    pid: u32,
    e: &Entry,
) -> Result<Option<Reason>, NoMemory>
    requires asks { Asks m.old (F.holds files.old) (D.blocks swap.old) }
    requires low { last_moves m.old.kernel.journal ≤ 1000000 }
    requires bound { m.old.params.journal ≡ length m.old.kernel.journal + 1 }
    requires acts { AtSome (ActsAt m.old counted (Some begun) (F.holds files.old) (stores F.Files D.SwapDev files.old swap.old) pid) }
    ensures told { IfOk result (λ reason. LeadsFrom (ActsAt m.old counted (Some begun) (F.holds files.old) (stores F.Files D.SwapDev files.old swap.old) pid)
        (ActTold reason e.now pid m.old.kernel m.new.kernel (stores F.Files D.SwapDev files.new swap.new))) }
    ensures on { IfOk result (λ reason. reason ≡ None → GoesOnWith m.old m.new) }
    ensures holds { F.holds files.new ≡ F.holds files.old }
    ensures blocks { D.blocks swap.new ≡ D.blocks swap.old }
{
    make_rest(m, files, swap, counted, begun, pid)?;
    told_by(alloc, m.journal(), pid, e)
}

// A step whose instruction isn't carried out alone: its page that isn't valid, or what the process does next.
fn step_else<F: Files, D: SwapDev>(
    alloc: Global,
    cache: &mut DecodeCache,
    m: &mut Machine,
    files: &mut F,
    swap: &mut D,
    counted: u32,
    pid: u32,
    regs: &Regs,
    e: &Entry,
) -> Result<Option<Reason>, NoMemory>
    requires asks { Asks m.old (F.holds files.old) (D.blocks swap.old) }
    requires low { last_moves m.old.kernel.journal ≤ 1000000 }
    requires bound { m.old.params.journal ≡ length m.old.kernel.journal + 1 }
    requires counted { instructions_of m.old.kernel.journal ≡ counted }
    requires may { AtSome (ReadyAt m.old counted None (F.holds files.old) (stores F.Files D.SwapDev files.old swap.old) pid) }
    requires registers { regs.now ≡ regs_of m.old.kernel pid }
    requires other { answer_of (run (own_answers m.old pid) (instruction regs.now)) ≢ Stepped.Done }
    ensures told { IfOk result (λ reason. LeadsFrom (ReadyAt m.old counted None (F.holds files.old) (stores F.Files D.SwapDev files.old swap.old) pid)
        (LeftTold reason e.now pid m.old.kernel m.new.kernel (stores F.Files D.SwapDev files.new swap.new))) }
    ensures on { IfOk result (λ reason. reason ≡ None → GoesOnWith m.old m.new) }
    ensures holds { F.holds files.new ≡ F.holds files.old }
    ensures blocks { D.blocks swap.new ≡ D.blocks swap.old }
{
    let found = touched_and_wanted(alloc, m, pid, regs)?;
    match found.wanted {
        Some(page) => Ok(Some(in_state(m, page))),
        None => act_told(alloc, cache, m, files, swap, counted, pid, e),
    }
}

// The line of an instruction alone.
fn step_ran<F: Files, D: SwapDev>(
    alloc: Global,
    cache: &mut DecodeCache,
    m: &mut Machine,
    files: &mut F,
    swap: &mut D,
    counted: u32,
    pid: u32,
    regs: &Regs,
    e: &Entry,
) -> Result<Option<Reason>, NoMemory>
    requires asks { Asks m.old (F.holds files.old) (D.blocks swap.old) }
    requires low { last_moves m.old.kernel.journal ≤ 1000000 }
    requires bound { m.old.params.journal ≡ length m.old.kernel.journal + 1 }
    requires counted { instructions_of m.old.kernel.journal ≡ counted }
    requires may { AtSome (ReadyAt m.old counted None (F.holds files.old) (stores F.Files D.SwapDev files.old swap.old) pid) }
    requires registers { regs.now ≡ regs_of m.old.kernel pid }
    requires ran { e.now ≡ entries.Ran pid 1 }
    ensures told { IfOk result (λ reason. LeadsFrom (ReadyAt m.old counted None (F.holds files.old) (stores F.Files D.SwapDev files.old swap.old) pid)
        (LeftTold reason e.now pid m.old.kernel m.new.kernel (stores F.Files D.SwapDev files.new swap.new))) }
    ensures on { IfOk result (λ reason. reason ≡ None → GoesOnWith m.old m.new) }
    ensures holds { F.holds files.new ≡ F.holds files.old }
    ensures blocks { D.blocks swap.new ≡ D.blocks swap.old }
{
    ask_room(m, pid)?;
    let mut after = *regs;
    let stepped = attempt_cached(cache, m, pid, &mut after);
    if is_done(stepped) {
        m.ran(pid, &after);
        Ok(None)
    } else {
        step_else(alloc, cache, m, files, swap, counted, pid, regs, e)
    }
}

// Another line of a process, where no step is begun.
fn step_other<F: Files, D: SwapDev>(
    alloc: Global,
    cache: &mut DecodeCache,
    m: &mut Machine,
    files: &mut F,
    swap: &mut D,
    counted: u32,
    pid: u32,
    regs: &Regs,
    e: &Entry,
) -> Result<Option<Reason>, NoMemory>
    requires asks { Asks m.old (F.holds files.old) (D.blocks swap.old) }
    requires low { last_moves m.old.kernel.journal ≤ 1000000 }
    requires bound { m.old.params.journal ≡ length m.old.kernel.journal + 1 }
    requires counted { instructions_of m.old.kernel.journal ≡ counted }
    requires may { AtSome (ReadyAt m.old counted None (F.holds files.old) (stores F.Files D.SwapDev files.old swap.old) pid) }
    requires registers { regs.now ≡ regs_of m.old.kernel pid }
    requires other { is_ran e.now ≡ false }
    ensures told { IfOk result (λ reason. LeadsFrom (ReadyAt m.old counted None (F.holds files.old) (stores F.Files D.SwapDev files.old swap.old) pid)
        (LeftTold reason e.now pid m.old.kernel m.new.kernel (stores F.Files D.SwapDev files.new swap.new))) }
    ensures on { IfOk result (λ reason. reason ≡ None → GoesOnWith m.old m.new) }
    ensures holds { F.holds files.new ≡ F.holds files.old }
    ensures blocks { D.blocks swap.new ≡ D.blocks swap.old }
{
    if completes(alloc, m, pid, regs)? {
        Ok(Some(Reason::Comes(Entry::Ran { pid, count: 1 })))
    } else {
        step_else(alloc, cache, m, files, swap, counted, pid, regs, e)
    }
}

// A line of a process, where no step is begun.
fn step_anew<F: Files, D: SwapDev>(
    alloc: Global,
    cache: &mut DecodeCache,
    m: &mut Machine,
    files: &mut F,
    swap: &mut D,
    counted: u32,
    pid: u32,
    regs: &Regs,
    e: &Entry,
) -> Result<Option<Reason>, NoMemory>
    requires asks { Asks m.old (F.holds files.old) (D.blocks swap.old) }
    requires low { last_moves m.old.kernel.journal ≤ 1000000 }
    requires bound { m.old.params.journal ≡ length m.old.kernel.journal + 1 }
    requires counted { instructions_of m.old.kernel.journal ≡ counted }
    requires may { AtSome (ReadyAt m.old counted None (F.holds files.old) (stores F.Files D.SwapDev files.old swap.old) pid) }
    requires registers { regs.now ≡ regs_of m.old.kernel pid }
    requires own { process_of_entry e.now ≡ Some pid }
    requires unit { IsUnit e.now }
    ensures told { IfOk result (λ reason. LeadsFrom (ReadyAt m.old counted None (F.holds files.old) (stores F.Files D.SwapDev files.old swap.old) pid)
        (LeftTold reason e.now pid m.old.kernel m.new.kernel (stores F.Files D.SwapDev files.new swap.new))) }
    ensures on { IfOk result (λ reason. reason ≡ None → GoesOnWith m.old m.new) }
    ensures holds { F.holds files.new ≡ F.holds files.old }
    ensures blocks { D.blocks swap.new ≡ D.blocks swap.old }
{
    if is_ran(e) {
        step_ran(alloc, cache, m, files, swap, counted, pid, regs, e)
    } else {
        step_other(alloc, cache, m, files, swap, counted, pid, regs, e)
    }
}

// A line of a process whose step is begun so.
fn step_on<F: Files, D: SwapDev>(
    alloc: Global,
    m: &mut Machine,
    files: &mut F,
    swap: &mut D,
    counted: u32,
    begun: Begun,
    pid: u32,
    e: &Entry,
) -> Result<Option<Reason>, NoMemory>
    requires asks { Asks m.old (F.holds files.old) (D.blocks swap.old) }
    requires low { last_moves m.old.kernel.journal ≤ 1000000 }
    requires bound { m.old.params.journal ≡ length m.old.kernel.journal + 1 }
    requires may { AtSome (ReadyAt m.old counted (Some begun) (F.holds files.old) (stores F.Files D.SwapDev files.old swap.old) pid) }
    ensures told { IfOk result (λ reason. LeadsFrom (ReadyAt m.old counted (Some begun) (F.holds files.old) (stores F.Files D.SwapDev files.old swap.old) pid)
        (LeftTold reason e.now pid m.old.kernel m.new.kernel (stores F.Files D.SwapDev files.new swap.new))) }
    ensures on { IfOk result (λ reason. reason ≡ None → GoesOnWith m.old m.new) }
    ensures holds { F.holds files.new ≡ F.holds files.old }
    ensures blocks { D.blocks swap.new ≡ D.blocks swap.old }
{
    rest_told(alloc, m, files, swap, counted, begun, pid, e)
}

// A line of a process that is in.
fn step_in<F: Files, D: SwapDev>(
    alloc: Global,
    cache: &mut DecodeCache,
    m: &mut Machine,
    files: &mut F,
    swap: &mut D,
    counted: u32,
    begun: Option<Begun>,
    pid: u32,
    regs: &Regs,
    e: &Entry,
) -> Result<Option<Reason>, NoMemory>
    requires asks { Asks m.old (F.holds files.old) (D.blocks swap.old) }
    requires low { last_moves m.old.kernel.journal ≤ 1000000 }
    requires bound { m.old.params.journal ≡ length m.old.kernel.journal + 1 }
    requires counted { instructions_of m.old.kernel.journal ≡ counted }
    requires may { AtSome (ReadyAt m.old counted begun (F.holds files.old) (stores F.Files D.SwapDev files.old swap.old) pid) }
    requires registers { regs.now ≡ regs_of m.old.kernel pid }
    requires own { process_of_entry e.now ≡ Some pid }
    requires unit { IsUnit e.now }
    ensures told { IfOk result (λ reason. LeadsFrom (ReadyAt m.old counted begun (F.holds files.old) (stores F.Files D.SwapDev files.old swap.old) pid)
        (LeftTold reason e.now pid m.old.kernel m.new.kernel (stores F.Files D.SwapDev files.new swap.new))) }
    ensures on { IfOk result (λ reason. reason ≡ None → GoesOnWith m.old m.new) }
    ensures holds { F.holds files.new ≡ F.holds files.old }
    ensures blocks { D.blocks swap.new ≡ D.blocks swap.old }
{
    match begun {
        Some(begun) => step_on(alloc, m, files, swap, counted, begun, pid, e),
        None => step_anew(alloc, cache, m, files, swap, counted, pid, regs, e),
    }
}

// A line of a process that can step, where it is in.
fn step_ready<F: Files, D: SwapDev>(
    alloc: Global,
    cache: &mut DecodeCache,
    m: &mut Machine,
    files: &mut F,
    swap: &mut D,
    counted: u32,
    begun: Option<Begun>,
    pid: u32,
    e: &Entry,
) -> Result<Option<Reason>, NoMemory>
    requires asks { Asks m.old (F.holds files.old) (D.blocks swap.old) }
    requires low { last_moves m.old.kernel.journal ≤ 1000000 }
    requires bound { m.old.params.journal ≡ length m.old.kernel.journal + 1 }
    requires counted { instructions_of m.old.kernel.journal ≡ counted }
    requires soon { AtSome (SoonAt m.old counted begun (F.holds files.old) (stores F.Files D.SwapDev files.old swap.old) pid) }
    requires own { process_of_entry e.now ≡ Some pid }
    requires unit { IsUnit e.now }
    ensures told { IfOk result (λ reason. LeadsFrom (SoonAt m.old counted begun (F.holds files.old) (stores F.Files D.SwapDev files.old swap.old) pid)
        (InTold reason e.now pid m.old.kernel m.new.kernel (stores F.Files D.SwapDev files.new swap.new))) }
    ensures on { IfOk result (λ reason. reason ≡ None → GoesOnWith m.old m.new) }
    ensures holds { F.holds files.new ≡ F.holds files.old }
    ensures blocks { D.blocks swap.new ≡ D.blocks swap.old }
{
    match ready_regs(m, pid) {
        Some(regs) => step_in(alloc, cache, m, files, swap, counted, begun, pid, &regs, e),
        None => Ok(Some(Reason::IsOut(pid))),
    }
}

/// A line of a process: where it may come it was made, and else the first reason is told for which it can't. With a reason the machine may
/// have gone another way. So many instructions are counted before, and a step is begun so, or none.
pub fn judge_step<F: Files, D: SwapDev>(
    alloc: Global,
    cache: &mut DecodeCache,
    m: &mut Machine,
    files: &mut F,
    swap: &mut D,
    counted: u32,
    begun: Option<Begun>,
    pid: u32,
    e: &Entry,
) -> Result<Option<Reason>, NoMemory>
    requires asks { Asks m.old (F.holds files.old) (D.blocks swap.old) }
    requires low { last_moves m.old.kernel.journal ≤ 1000000 }
    requires bound { m.old.params.journal ≡ length m.old.kernel.journal + 1 }
    requires counted { instructions_of m.old.kernel.journal ≡ counted }
    requires at { AtSome (JudgedAt m.old counted begun (F.holds files.old) (stores F.Files D.SwapDev files.old swap.old)) }
    requires own { process_of_entry e.now ≡ Some pid }
    requires unit { IsUnit e.now }
    ensures told { IfOk result (λ reason. LeadsFrom (JudgedAt m.old counted begun (F.holds files.old) (stores F.Files D.SwapDev files.old swap.old))
        (StepTold reason e.now pid m.old.kernel m.new.kernel (stores F.Files D.SwapDev files.new swap.new))) }
    ensures on { IfOk result (λ reason. reason ≡ None → GoesOnWith m.old m.new) }
    ensures holds { F.holds files.new ≡ F.holds files.old }
    ensures blocks { D.blocks swap.new ≡ D.blocks swap.old }
{
    match not_ready(m, counted, begun, pid) {
        Some(reason) => Ok(Some(reason)),
        None => step_ready(alloc, cache, m, files, swap, counted, begun, pid, e),
    }
}
