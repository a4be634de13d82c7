//! The closing phase: processes have turns until none can step, or the count is full. It may begin only once every
//! line was taken.
ghost use Rattle.io_edge.specs.WithFiles.{stores};
ghost use Rattle.std.specs.Prelude.{◌≡◌, ◌+◌, ◌<◌, ◌≤◌, ℕ, true, false, Some, None, OnOk, IfOk, IfErr, IfSome};
ghost use Rattle.flat_state.specs.Journal.{instructions_of};
ghost use Rattle.page_model.specs.Swapper.{is_out};
ghost use Rattle.kernel_model.specs.Kernel.{HoldsSpace};
ghost use Rattle.machine_state.specs.Going.{IsRunning};
ghost use Rattle.machine_state.specs.Calls.{life_in};
ghost use Rattle.machine_state.specs.Outside.{IsBacked, stop_of, TransfersPages};
ghost use Rattle.proc_run.specs.Sizes.{KeptAtStop};
ghost use Rattle.proc_run.specs.Stepped.{LeadsFrom, StopsFrom};
ghost use Rattle.proc_run.specs.Choosing.{turn_after};
ghost use Rattle.proc_run.specs.Runs.{IsSteady};
ghost use Rattle.proc_run.specs.Running.{CountsTo};
ghost use Rattle.vm_core.specs.Steady.{StaysSteady};
ghost use Rattle.vm_core.specs.Cores.{StandsUnderway};
ghost use Rattle.vm_core.specs.Closing.{EndsPhase, CountsTurn, DueTurn, AllTaken, TurnAt, InTurn, TurnHad, LinesAre, Closed};
ghost use Rattle.vm_core.specs.Accounts.{StopsAccountedFrom};

use crate::lines::note;
use crate::run::Core;
use crate::running::finish;
use io_edge::{Files, SwapDev};
use machine_state::Machine;
use proc_run::step_units::swapper::swap_in;
use proc_run::{DecodeCache, next_turned};
use proc_table::Life;
use std::alloc::Global;
use vm_facts::{Entry, Stop};

/// No more turns in a row count no instruction: there are no more processes.
const MOST_IDLE: u32 = 64;

// Whether a process that holds a space is out.
fn is_out(m: &Machine, pid: u32) -> bool
    requires { IsRunning m.now }
    ensures out { result ≡ true → is_out m.now.kernel.place pid ≡ true }
    ensures resident { result ≡ false → (sid : ℕ) → life_in m.now.kernel pid ≡ HoldsSpace sid → is_out m.now.kernel.place pid ≡ false }
{
    let Some(process) = m.processes().get(pid) else {
        return false;
    };
    let Life::Holds(_) = process.state else {
        return false;
    };
    process.out
}

/// A process whose turn it is comes in where it is out.
pub fn come_in<F: Files, D: SwapDev>(
    m: &mut Machine,
    files: &mut F,
    swap: &mut D,
    pid: u32,
) -> Result<(), Stop>
    requires steady { IsSteady m.old }
    requires backed { IsBacked m.old (F.holds files.old) (D.blocks swap.old) }
    ensures comes { OnOk result ((counted since : ℕ) → LeadsFrom
        (TurnAt m.old (F.holds files.old) (stores F.Files D.SwapDev files.old swap.old) counted since pid)
        (InTurn m.old m.new (F.holds files.old) (stores F.Files D.SwapDev files.new swap.new) counted since pid)) }
    ensures stops { IfErr result
        (λ stop. (counted since : ℕ) → StopsFrom (TurnAt m.old (F.holds files.old) (stores F.Files D.SwapDev files.old swap.old) counted since pid) m.old
        m.new (stores F.Files D.SwapDev files.new swap.new) stop) }
    ensures steady { OnOk result (StaysSteady m.old m.new 0) }
    ensures kept { IfErr result (KeptAtStop m.old m.new) }
    ensures outside { TransfersPages F.Files D.SwapDev (stop_of result) files.old files.new swap.old swap.new }
{
    if !is_out(m, pid) {
        return Ok(());
    }
    swap_in(m, swap, pid)?;
    Ok(())
}

// A turn of a process, which comes in first where it is out. The answer is how many instructions are counted then.
fn turn<F: Files, D: SwapDev>(
    alloc: Global,
    cache: &mut DecodeCache,
    m: &mut Machine,
    files: &mut F,
    swap: &mut D,
    pid: u32,
    counted: u32,
) -> Result<u32, Stop>
    requires steady { IsSteady m.old }
    requires backed { IsBacked m.old (F.holds files.old) (D.blocks swap.old) }
    requires counted { instructions_of m.old.kernel.journal ≡ counted }
    ensures had { IfOk result (λ count. LeadsFrom (DueTurn m.old (F.holds files.old) (stores F.Files D.SwapDev files.old swap.old) counted pid)
        (TurnHad m.old m.new (F.holds files.old) (stores F.Files D.SwapDev files.new swap.new) pid count)) }
    ensures stops { IfErr result (StopsFrom (DueTurn m.old (F.holds files.old) (stores F.Files D.SwapDev files.old swap.old) counted pid) m.old m.new
        (stores F.Files D.SwapDev files.new swap.new)) }
    ensures counts { IfOk result (λ count. CountsTo m.old m.new counted count) }
    ensures kept { IfErr result (KeptAtStop m.old m.new) }
    ensures outside { TransfersPages F.Files D.SwapDev (stop_of result) files.old files.new swap.old swap.new }
{
    note(m, Entry::Turn { pid })?;
    come_in(m, files, swap, pid)?;
    finish(alloc, cache, m, files, swap, pid, counted, counted)
}

// The process of the next turn: none where as many instructions are counted as may, too many turns in a row counted none, or no
// process can step.
fn next_turn(m: &Machine, count: u32, last: u32, idle: u32) -> Option<u32>
    requires { IsRunning m.now }
    ensures some { IfSome result (λ pid. turn_after m.now.kernel last ≡ Some pid) }
    ensures below { IfSome result (λ pid. count < m.now.params.limit) }
    ensures few { IfSome result (λ pid. idle ≤ 64) }
    ensures none { result ≡ None → EndsPhase m.now count last idle }
{
    if count >= m.params().limit || idle > MOST_IDLE {
        return None;
    }
    next_turned(m, last)
}

// How many turns in a row counted no instruction, after one more.
fn idle_behind(idle: u32, before: u32, count: u32) -> u32
    requires few { idle ≤ 64 }
    requires more { before ≤ count }
    ensures kind { CountsTurn before count idle result }
    ensures few { result ≤ 65 }
    ensures same { before < count → result ≡ 0 }
    ensures on { count ≡ before → result ≡ idle + 1 }
{
    if count == before { idle + 1 } else { 0 }
}

// The whole phase. The answer is how many instructions are counted then.
fn close<F: Files, D: SwapDev>(
    alloc: Global,
    cache: &mut DecodeCache,
    m: &mut Machine,
    files: &mut F,
    swap: &mut D,
    counted: u32,
) -> Result<u32, Stop>
    requires steady { IsSteady m.old }
    requires backed { IsBacked m.old (F.holds files.old) (D.blocks swap.old) }
    requires counted { instructions_of m.old.kernel.journal ≡ counted }
    ensures closes { IfOk result
        (λ count. LeadsFrom (LinesAre m.old (F.holds files.old) (stores F.Files D.SwapDev files.old swap.old) counted)
        (Closed m.old m.new (F.holds files.old) (stores F.Files D.SwapDev files.new swap.new) count)) }
    ensures stops { IfErr result (StopsFrom (LinesAre m.old (F.holds files.old) (stores F.Files D.SwapDev files.old swap.old) counted) m.old m.new
        (stores F.Files D.SwapDev files.new swap.new)) }
    ensures counts { IfOk result (λ count. CountsTo m.old m.new counted count) }
    ensures kept { IfErr result (KeptAtStop m.old m.new) }
    ensures outside { TransfersPages F.Files D.SwapDev (stop_of result) files.old files.new swap.old swap.new }
{
    let mut count = counted;
    let mut last = 0;
    let mut idle = 0;
    while let Some(pid) = next_turn(m, count, last, idle) {
        let more = turn(alloc, cache, m, files, swap, pid, count)?;
        idle = idle_behind(idle, count, more);
        count = more;
        last = pid;
    }
    Ok(count)
}

impl Core {
    /// The closing phase: processes that can step have turns, until none can or as many instructions are counted as may.
    pub fn close_run<F: Files, D: SwapDev>(
        &mut self,
        files: &mut F,
        swap: &mut D,
    ) -> Result<(), Stop>
        requires goes_on { StandsUnderway self.old }
        requires backed { IsBacked self.old.machine (F.holds files.old) (D.blocks swap.old) }
        ensures closes { OnOk result (LeadsFrom (AllTaken self.old (F.holds files.old) (stores F.Files D.SwapDev files.old swap.old))
            (Closed self.old.machine self.new.machine (F.holds files.old) (stores F.Files D.SwapDev files.new swap.new) self.new.counted)) }
        ensures stops { IfErr result
            (StopsAccountedFrom (AllTaken self.old (F.holds files.old) (stores F.Files D.SwapDev files.old swap.old)) self.old.machine self.new.machine
            (stores F.Files D.SwapDev files.new swap.new)) }
        ensures goes_on { OnOk result (StandsUnderway self.new) }
        ensures params { OnOk result (self.new.machine.params ≡ self.old.machine.params) }
        ensures images { OnOk result (self.new.machine.images ≡ self.old.machine.images) }
        ensures kept { IfErr result (KeptAtStop self.old.machine self.new.machine) }
        ensures outside { TransfersPages F.Files D.SwapDev (stop_of result) files.old files.new swap.old swap.new }
    {
        self.counted = close(
            self.alloc,
            &mut self.cache,
            &mut self.machine,
            files,
            swap,
            self.counted,
        )?;
        Ok(())
    }
}
