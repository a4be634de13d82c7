//! Takes one line of the schedule. Its entry must come first, and then what it asks for.
ghost use Rattle.io_edge.specs.WithFiles.{stores};
ghost use Rattle.std.specs.Prelude.{◌≡◌, ◌<◌, ◌≤◌, ◌↔◌, OnOk, IfOk, IfErr};
ghost use Rattle.machine_state.specs.Outside.{IsBacked, stop_of, TransfersPages};
ghost use Rattle.proc_run.specs.LastMoves.{last_moves};
ghost use Rattle.flat_state.specs.Journal.{instructions_of};
ghost use Rattle.proc_run.specs.Sizes.{KeptAtStop};
ghost use Rattle.proc_run.specs.Stepped.{LeadsFrom, StopsFrom};
ghost use Rattle.proc_run.specs.Runs.{IsSteady};
ghost use Rattle.proc_run.specs.Running.{CountsTo};
ghost use Rattle.vm_core.specs.Steady.{HasFewMoves};
ghost use Rattle.vm_core.specs.Cores.{StandsUnderway, LineDueAt, LineTaken, AskedAt, LineDone};
ghost use Rattle.vm_core.specs.Accounts.{StopsAccountedFrom};

use crate::lines::{audit, hands, interrupt, note, swapper};
use crate::run::Core;
use crate::running::dispatch;
use io_edge::{Files, SwapDev};
use machine_state::Machine;
use proc_run::DecodeCache;
use std::alloc::Global;
use vm_facts::{Entry, Event, Stop};

/// How a line went.
#[derive(Clone, Copy, Debug, PartialEq, Eq, Drop)]
pub enum Went {
    /// The next line may come, or the closing phase.
    Next,
    /// As many instructions are counted as may.
    LimitReached,
}

// Does what a line asks for, and tells how many instructions are counted then.
fn carry_out<F: Files, D: SwapDev>(
    alloc: Global,
    cache: &mut DecodeCache,
    m: &mut Machine,
    files: &mut F,
    swap: &mut D,
    counted: u32,
    e: Event,
) -> Result<u32, Stop>
    requires steady { IsSteady m.old }
    requires backed { IsBacked m.old (F.holds files.old) (D.blocks swap.old) }
    requires few { HasFewMoves e }
    requires first { last_moves m.old.kernel.journal ≡ 0 }
    requires counted { instructions_of m.old.kernel.journal ≡ counted }
    ensures done { IfOk result
        (λ count. LeadsFrom (AskedAt m.old (F.holds files.old) (stores F.Files D.SwapDev files.old swap.old) counted e)
        (LineDone m.old m.new (stores F.Files D.SwapDev files.new swap.new) count)) }
    ensures stops { IfErr result (StopsFrom (AskedAt m.old (F.holds files.old) (stores F.Files D.SwapDev files.old swap.old) counted e) m.old m.new
        (stores F.Files D.SwapDev files.new swap.new)) }
    ensures counts { IfOk result (λ count. CountsTo m.old m.new counted count) }
    ensures kept { IfErr result (KeptAtStop m.old m.new) }
    ensures outside { TransfersPages F.Files D.SwapDev (stop_of result) files.old files.new swap.old swap.new }
{
    match e {
        Event::Dispatch { pid, count } => dispatch(
            alloc, cache, m, files, swap, pid, counted, count,
        ),
        Event::Interrupt => {
            interrupt(m, files, swap)?;
            Ok(counted)
        }
        Event::Hands { count } => {
            hands(m, files, swap, count)?;
            Ok(counted)
        }
        Event::Swapper => {
            swapper(m, files, swap)?;
            Ok(counted)
        }
        Event::Audit => {
            audit(m)?;
            Ok(counted)
        }
    }
}

impl Core {
    /// Takes a line of the schedule, whose number is that of the lines so far and 1.
    pub fn event<F: Files, D: SwapDev>(
        &mut self,
        files: &mut F,
        swap: &mut D,
        line: u32,
        e: Event,
    ) -> Result<Went, Stop>
        requires goes_on { StandsUnderway self.old }
        requires backed { IsBacked self.old.machine (F.holds files.old) (D.blocks swap.old) }
        requires few { HasFewMoves e }
        ensures takes { OnOk result (LeadsFrom (LineDueAt self.old line e (F.holds files.old) (stores F.Files D.SwapDev files.old swap.old))
            (LineTaken self.old self.new (F.holds files.old) (stores F.Files D.SwapDev files.new swap.new))) }
        ensures stops { IfErr result
            (StopsAccountedFrom (LineDueAt self.old line e (F.holds files.old) (stores F.Files D.SwapDev files.old swap.old)) self.old.machine
            self.new.machine (stores F.Files D.SwapDev files.new swap.new)) }
        ensures goes_on { OnOk result (StandsUnderway self.new) }
        ensures limit { IfOk result (λ went. (went ≡ Went.LimitReached) ↔ (self.new.machine.params.limit ≤ self.new.counted)) }
        ensures params { OnOk result (self.new.machine.params ≡ self.old.machine.params) }
        ensures images { OnOk result (self.new.machine.images ≡ self.old.machine.images) }
        ensures kept { IfErr result (KeptAtStop self.old.machine self.new.machine) }
        ensures outside { TransfersPages F.Files D.SwapDev (stop_of result) files.old files.new swap.old swap.new }
    {
        note(&mut self.machine, Entry::Event { line })?;
        self.counted = carry_out(
            self.alloc,
            &mut self.cache,
            &mut self.machine,
            files,
            swap,
            self.counted,
            e,
        )?;
        if self.is_over() {
            Ok(Went::LimitReached)
        } else {
            Ok(Went::Next)
        }
    }
}
