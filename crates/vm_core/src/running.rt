//! A process runs for a dispatch or a turn, up to a count of instructions. The count may not pass the run's limit.
ghost use Rattle.io_edge.specs.WithFiles.{stores};
ghost use Rattle.std.specs.Prelude.{◌≡◌, ◌+◌, min, IfOk, IfErr};
ghost use Rattle.machine_state.specs.Outside.{IsBacked, stop_of, TransfersPages};
ghost use Rattle.flat_state.specs.Journal.{instructions_of};
ghost use Rattle.proc_run.specs.Sizes.{KeptAtStop};
ghost use Rattle.proc_run.specs.Stepped.{LeadsFrom, StopsFrom};
ghost use Rattle.proc_run.specs.Runs.{IsSteady};
ghost use Rattle.proc_run.specs.Running.{CountsTo};
ghost use Rattle.vm_core.specs.Closing.{ResidentTurn, TurnDone};
ghost use Rattle.vm_core.specs.Cores.{AskedAt, LineDone};

use io_edge::{Files, SwapDev};
use machine_state::Machine;
use proc_run::{DecodeCache, Patience, run};
use std::alloc::Global;
use vm_facts::{Event, Stop};

/// The instructions of one turn.
pub const TURN: u32 = 1000;

/// The count at which so many more instructions are counted, or as many as may.
pub fn count_behind(m: &Machine, since: u32, more: u32) -> u32
    ensures { result ≡ min (since + more) m.now.params.limit }
{
    since.saturating_add(more).min(m.params().limit)
}

/// A process that is in runs so many instructions at most, and waits for no page.
pub(crate) fn dispatch<F: Files, D: SwapDev>(
    alloc: Global,
    cache: &mut DecodeCache,
    m: &mut Machine,
    files: &mut F,
    swap: &mut D,
    pid: u32,
    counted: u32,
    count: u32,
) -> Result<u32, Stop>
    requires steady { IsSteady m.old }
    requires backed { IsBacked m.old (F.holds files.old) (D.blocks swap.old) }
    requires counted { instructions_of m.old.kernel.journal ≡ counted }
    ensures done { IfOk result
        (λ more. LeadsFrom (AskedAt m.old (F.holds files.old) (stores F.Files D.SwapDev files.old swap.old) counted (Event.Dispatch pid count))
        (LineDone m.old m.new (stores F.Files D.SwapDev files.new swap.new) more)) }
    ensures stops { IfErr result
        (StopsFrom (AskedAt m.old (F.holds files.old) (stores F.Files D.SwapDev files.old swap.old) counted (Event.Dispatch pid count)) m.old m.new
        (stores F.Files D.SwapDev files.new swap.new)) }
    ensures counts { IfOk result (λ more. CountsTo m.old m.new counted more) }
    ensures kept { IfErr result (KeptAtStop m.old m.new) }
    ensures outside { TransfersPages F.Files D.SwapDev (stop_of result) files.old files.new swap.old swap.new }
{
    let until = count_behind(m, counted, count);
    run(
        alloc,
        cache,
        m,
        files,
        swap,
        pid,
        counted,
        until,
        Patience::Stops,
    )
}

/// A process that is in has its turn, or what is left of it: so many instructions at most since it began, and it waits for its pages.
pub fn finish<F: Files, D: SwapDev>(
    alloc: Global,
    cache: &mut DecodeCache,
    m: &mut Machine,
    files: &mut F,
    swap: &mut D,
    pid: u32,
    counted: u32,
    since: u32,
) -> Result<u32, Stop>
    requires steady { IsSteady m.old }
    requires backed { IsBacked m.old (F.holds files.old) (D.blocks swap.old) }
    requires counted { instructions_of m.old.kernel.journal ≡ counted }
    ensures done { IfOk result
        (λ more. LeadsFrom (ResidentTurn m.old (F.holds files.old) (stores F.Files D.SwapDev files.old swap.old) counted since pid)
        (TurnDone m.old m.new (stores F.Files D.SwapDev files.new swap.new) pid more)) }
    ensures stops { IfErr result (StopsFrom (ResidentTurn m.old (F.holds files.old) (stores F.Files D.SwapDev files.old swap.old) counted since pid) m.old
        m.new (stores F.Files D.SwapDev files.new swap.new)) }
    ensures counts { IfOk result (λ more. CountsTo m.old m.new counted more) }
    ensures kept { IfErr result (KeptAtStop m.old m.new) }
    ensures outside { TransfersPages F.Files D.SwapDev (stop_of result) files.old files.new swap.old swap.new }
{
    let until = count_behind(m, since, TURN);
    run(
        alloc,
        cache,
        m,
        files,
        swap,
        pid,
        counted,
        until,
        Patience::Waits,
    )
}
