//! Serves the page that an instruction or its call misses. In a turn the pages that it touched before are locked, and
//! must keep their frames.
ghost use Rattle.io_edge.specs.WithFiles.{stores};
ghost use Rattle.std.specs.Prelude.{◌≡◌, true, IfOk, OnOk, IfErr};
ghost use Rattle.machine_state.specs.Going.{CanGoOn};
ghost use Rattle.machine_state.specs.UserMemory.{CanLend};
ghost use Rattle.machine_state.specs.Outside.{IsBacked, stop_of, TransfersPages};
ghost use Rattle.step_units.specs.Callers.{regs_of};
ghost use Rattle.proc_run.specs.Missed.{WritesNothing};
ghost use Rattle.step_units.specs.Stepped.{LeadsFrom, StopsFrom};
ghost use Rattle.step_units.specs.Ready.{Continues};
ghost use Rattle.step_units.specs.Sizes.{KeptAtStop};
ghost use Rattle.proc_run.specs.Serving.{ServedBy, StopsServed};
ghost use Rattle.proc_run.specs.Runs.{IsSteady, is_now, counts, WaitsAt, AdvancesTo};

use crate::advancing::{Advance, Patience};
use crate::touched_before;
use io_edge::{Files, SwapDev};
use machine_state::{Machine, or_stop};
use std::alloc::Global;
use step_units::fault_fill::{Served, serve, serve_now};
use step_units::proc_calls::kill;
use user_vax::SIGSEGV;
use vm_facts::{Regs, Stop};

// The page of an access is served until it is valid. The hands pass over the pages that the instruction touches before it.
fn bring_in<F: Files, D: SwapDev>(
    alloc: Global,
    m: &mut Machine,
    files: &mut F,
    swap: &mut D,
    pid: u32,
    regs: &Regs,
    address: u32,
    write: bool,
) -> Result<Served, Stop>
    requires steady { IsSteady m.old }
    requires lends { CanLend m.old.kernel pid }
    requires backed { IsBacked m.old (F.holds files.old) (D.blocks swap.old) }
    requires quiet { WritesNothing m.old.kernel pid regs.now }
    requires registers { regs.now ≡ regs_of m.old.kernel pid }
    ensures served { IfOk result (ServedBy true m.old m.new pid address write (F.holds files.old) (stores F.Files D.SwapDev files.old swap.old)
        (stores F.Files D.SwapDev files.new swap.new)) }
    ensures stops { IfErr result (StopsServed true m.old m.new pid address write (F.holds files.old) (stores F.Files D.SwapDev files.old swap.old)
        (stores F.Files D.SwapDev files.new swap.new)) }
    ensures goes_on { OnOk result (CanGoOn m.new) }
    ensures outside { TransfersPages F.Files D.SwapDev (stop_of result) files.old files.new swap.old swap.new }
{
    let touched = touched_before(alloc, m, pid, regs);
    let touched = or_stop(touched)?;
    serve_now(m, files, swap, pid, address, write, touched.as_slice())
}

// The page of an access is served, as far as the process has patience.
fn serve_by<F: Files, D: SwapDev>(
    alloc: Global,
    m: &mut Machine,
    files: &mut F,
    swap: &mut D,
    pid: u32,
    regs: &Regs,
    address: u32,
    write: bool,
    patience: Patience,
) -> Result<Served, Stop>
    requires steady { IsSteady m.old }
    requires lends { CanLend m.old.kernel pid }
    requires backed { IsBacked m.old (F.holds files.old) (D.blocks swap.old) }
    requires quiet { WritesNothing m.old.kernel pid regs.now }
    requires registers { regs.now ≡ regs_of m.old.kernel pid }
    ensures served { IfOk result (ServedBy (is_now patience) m.old m.new pid address write (F.holds files.old) (stores F.Files D.SwapDev files.old swap.old)
        (stores F.Files D.SwapDev files.new swap.new)) }
    ensures stops { IfErr result (StopsServed (is_now patience) m.old m.new pid address write (F.holds files.old)
        (stores F.Files D.SwapDev files.old swap.old) (stores F.Files D.SwapDev files.new swap.new)) }
    ensures continues { OnOk result (Continues m.old m.new 0) }
    ensures goes_on { OnOk result (CanGoOn m.new) }
    ensures outside { TransfersPages F.Files D.SwapDev (stop_of result) files.old files.new swap.old swap.new }
{
    match patience {
        Patience::Stops => serve(m, files, swap, pid, address, write),
        Patience::Waits => bring_in(alloc, m, files, swap, pid, regs, address, write),
    }
}

/// Serves the page of a byte to which the next instruction of a process, or its call, has no access yet. Where there is no such
/// page, or its stack has to grow and finds no place, the process ends.
pub fn serve_access<F: Files, D: SwapDev>(
    alloc: Global,
    m: &mut Machine,
    files: &mut F,
    swap: &mut D,
    pid: u32,
    regs: &Regs,
    address: u32,
    write: bool,
    patience: Patience,
) -> Result<Advance, Stop>
    requires steady { IsSteady m.old }
    requires lends { CanLend m.old.kernel pid }
    requires backed { IsBacked m.old (F.holds files.old) (D.blocks swap.old) }
    requires quiet { WritesNothing m.old.kernel pid regs.now }
    requires registers { regs.now ≡ regs_of m.old.kernel pid }
    ensures advances { IfOk result (λ advance. LeadsFrom
        (WaitsAt m.old (F.holds files.old) (stores F.Files D.SwapDev files.old swap.old) pid (is_now patience) address write)
        (AdvancesTo m.old.kernel m.new.kernel (stores F.Files D.SwapDev files.new swap.new) advance)) }
    ensures stops { IfErr result
        (StopsFrom (WaitsAt m.old (F.holds files.old) (stores F.Files D.SwapDev files.old swap.old) pid (is_now patience) address write) m.old m.new
        (stores F.Files D.SwapDev files.new swap.new)) }
    ensures continues { IfOk result (λ advance. Continues m.old m.new (counts advance)) }
    ensures goes_on { OnOk result (CanGoOn m.new) }
    ensures kept { IfErr result (KeptAtStop m.old m.new) }
    ensures outside { TransfersPages F.Files D.SwapDev (stop_of result) files.old files.new swap.old swap.new }
{
    let served = serve_by(alloc, m, files, swap, pid, regs, address, write, patience)?;
    let signal = match served {
        Served::Valid => return Ok(Advance::Served),
        Served::Asleep(_) | Served::NoFrame => return Ok(Advance::Stuck),
        Served::NoSpace => SIGSEGV,
        Served::Signal(signal) => signal,
    };
    kill(m, files, swap, pid, signal)?;
    Ok(Advance::Counted)
}
