//! Makes the call of an instruction, by its number. A number that is none of the eight must end the process.
ghost use Rattle.io_edge.specs.WithFiles.{stores};
ghost use Rattle.std.specs.Prelude.{◌≡◌, Some, Ok, IfOk, OnOk, IfErr};
ghost use Rattle.machine_state.specs.Going.{CanGoOn};
ghost use Rattle.machine_state.specs.UserMemory.{CanLend};
ghost use Rattle.machine_state.specs.Outside.{IsBacked, stop_of, TransfersPages};
ghost use Rattle.step_units.specs.Callers.{regs_of};
ghost use Rattle.step_units.specs.Ready.{Continues};
ghost use Rattle.step_units.specs.Sizes.{KeptAtStop};
ghost use Rattle.step_units.specs.Stepped.{LeadsFrom, StopsFrom};
ghost use Rattle.proc_run.specs.Calls.{CallComes, CallStops, MadeCall};
ghost use Rattle.proc_run.specs.Runs.{IsSteady, is_now, counts, HasRunner, AdvancesTo};

use crate::advancing::{Advance, Patience};
use crate::serving::serve_access;
use flat_model::SystemCall;
use io_edge::{Files, SwapDev};
use machine_state::Machine;
use std::alloc::Global;
use step_units::proc_calls::{Called, brk, execve, exit, fork, getpid, kill, vfork, wait, write};
use vm_facts::{Regs, Stop};

/// The signal of a call that isn't one of the eight, by the number of 4.3BSD.
const SIGSYS: u8 = 12;

// One of the eight calls, with the registers that its instruction left.
fn make<F: Files, D: SwapDev>(
    alloc: Global,
    m: &mut Machine,
    files: &mut F,
    swap: &mut D,
    pid: u32,
    call: SystemCall,
    regs: &Regs,
) -> Result<Called, Stop>
    requires steady { IsSteady m.old }
    requires lends { CanLend m.old.kernel pid }
    requires backed { IsBacked m.old (F.holds files.old) (D.blocks swap.old) }
    ensures comes { IfOk result (CallComes call m.old m.new pid regs.now (F.holds files.old) (stores F.Files D.SwapDev files.old swap.old)
        (stores F.Files D.SwapDev files.new swap.new)) }
    ensures stops { IfErr result (CallStops call m.old m.new pid regs.now (F.holds files.old) (stores F.Files D.SwapDev files.old swap.old)
        (stores F.Files D.SwapDev files.new swap.new)) }
    ensures goes_on { OnOk result (CanGoOn m.new) }
    ensures outside { TransfersPages F.Files D.SwapDev (stop_of result) files.old files.new swap.old swap.new }
{
    match call {
        SystemCall::Exit => exit(m, files, swap, pid, regs),
        SystemCall::Fork => fork(m, files, swap, pid, regs),
        SystemCall::Write => write(alloc, m, pid, regs),
        SystemCall::Break => brk(m, files, swap, pid, regs),
        SystemCall::Getpid => getpid(m, pid, regs),
        SystemCall::Execve => execve(alloc, m, files, swap, pid, regs),
        SystemCall::Vfork => vfork(m, pid, regs),
        SystemCall::Wait => wait(m, pid, regs),
    }
}

/// The call of a number, by a process that had the registers `before` it and whose instruction left `regs`. A number that is none
/// of the eight ends the process.
pub fn call<F: Files, D: SwapDev>(
    alloc: Global,
    m: &mut Machine,
    files: &mut F,
    swap: &mut D,
    pid: u32,
    number: i32,
    before: &Regs,
    regs: &Regs,
    patience: Patience,
) -> Result<Advance, Stop>
    requires steady { IsSteady m.old }
    requires lends { CanLend m.old.kernel pid }
    requires backed { IsBacked m.old (F.holds files.old) (D.blocks swap.old) }
    requires registers { before.now ≡ regs_of m.old.kernel pid }
    requires made { MadeCall m.old pid before.now number regs.now }
    ensures advances { IfOk result (λ advance. LeadsFrom
        (HasRunner m.old (F.holds files.old) (stores F.Files D.SwapDev files.old swap.old) pid (is_now patience))
        (AdvancesTo m.old.kernel m.new.kernel (stores F.Files D.SwapDev files.new swap.new) advance)) }
    ensures stops { IfErr result (StopsFrom (HasRunner m.old (F.holds files.old) (stores F.Files D.SwapDev files.old swap.old) pid (is_now patience)) m.old
        m.new (stores F.Files D.SwapDev files.new swap.new)) }
    ensures continues { IfOk result (λ advance. Continues m.old m.new (counts advance)) }
    ensures goes_on { OnOk result (CanGoOn m.new) }
    ensures kept { IfErr result (KeptAtStop m.old m.new) }
    ensures outside { TransfersPages F.Files D.SwapDev (stop_of result) files.old files.new swap.old swap.new }
{
    let Some(call) = SystemCall::numbered(number) else {
        kill(m, files, swap, pid, SIGSYS)?;
        return Ok(Advance::Counted);
    };
    match make(alloc, m, files, swap, pid, call, regs)? {
        Called::Ready | Called::Gone => Ok(Advance::Counted),
        Called::Asleep => Ok(Advance::Stuck),
        Called::Miss { address } => {
            serve_access(alloc, m, files, swap, pid, before, address, false, patience)
        }
    }
}
