//! Runs a process in a dispatch or a turn, as far as it may go. In a dispatch it may not wait for a page.
ghost use Rattle.io_edge.specs.WithFiles.{stores};
ghost use Rattle.std.specs.Prelude.{◌≡◌, IfOk, IfErr};
ghost use Rattle.flat_state.specs.Journal.{instructions_of};
ghost use Rattle.machine_state.specs.Outside.{IsBacked, stop_of, TransfersPages};
ghost use Rattle.step_units.specs.Sizes.{KeptAtStop};
ghost use Rattle.step_units.specs.Stepped.{LeadsFrom, StopsFrom};
ghost use Rattle.proc_run.specs.Runs.{IsSteady, is_now};
ghost use Rattle.proc_run.specs.Running.{CountsTo, UnderMark, RunLeads};

use crate::advancing::{Advance, Patience, advance_from};
use crate::choosing::ready_regs;
use crate::stretch::{Missed, run_on};
use io_edge::{Files, SwapDev};
use machine_state::Machine;
use std::alloc::Global;
use user_step::DecodeCache;
use vm_facts::Stop;

/// More pages than one instruction waits for: with its call it touches 28 at most.
const MOST_WAITS: u32 = 32;

/// Runs a process that is in until so many instructions are counted in all, of which there are `counted` so far, or it can't
/// step, or it would have to wait for a page and is not to. The answer is how many are counted then.
pub fn run<F: Files, D: SwapDev>(
    alloc: Global,
    cache: &mut DecodeCache,
    m: &mut Machine,
    files: &mut F,
    swap: &mut D,
    pid: u32,
    counted: u32,
    until: u32,
    patience: Patience,
) -> Result<u32, Stop>
    requires steady { IsSteady m.old }
    requires backed { IsBacked m.old (F.holds files.old) (D.blocks swap.old) }
    requires counted { instructions_of m.old.kernel.journal ≡ counted }
    ensures runs { IfOk result (λ count. LeadsFrom (UnderMark m.old (F.holds files.old) (stores F.Files D.SwapDev files.old swap.old) pid (is_now patience)
        counted until)
        (RunLeads m.old.kernel pid (is_now patience) m.new.kernel (stores F.Files D.SwapDev files.new swap.new) count)) }
    ensures stops { IfErr result
        (StopsFrom (UnderMark m.old (F.holds files.old) (stores F.Files D.SwapDev files.old swap.old) pid (is_now patience) counted until) m.old m.new
        (stores F.Files D.SwapDev files.new swap.new)) }
    ensures counts { IfOk result (λ count. CountsTo m.old m.new counted count) }
    ensures kept { IfErr result (KeptAtStop m.old m.new) }
    ensures outside { TransfersPages F.Files D.SwapDev (stop_of result) files.old files.new swap.old swap.new }
{
    let mut count = counted;
    let mut waits = 0;
    let mut missed: Option<Missed> = None;
    while count < until && waits < MOST_WAITS {
        let Some(regs) = ready_regs(m, pid) else {
            return Ok(count);
        };
        match advance_from(alloc, cache, m, files, swap, pid, &regs, missed, patience)? {
            Advance::Counted => {
                count += 1;
                waits = 0;
                let reach = run_on(cache, m, pid, until - count);
                count += reach.count;
                missed = reach.missed;
            }
            Advance::Served => {
                waits += 1;
                missed = None;
            }
            Advance::Stuck => return Ok(count),
        }
    }
    Ok(count)
}
