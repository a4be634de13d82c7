//! A process leaves its space, and ends. Transfers that name the space must end first. A borrowed space goes back
//! right before the entry.
ghost use Rattle.io_edge.specs.WithFiles.{stores};
ghost use Rattle.std.specs.Prelude.{◌≡◌, true, IsSome, IfOk, OnOk, IfErr, Ok, Some};
ghost use Rattle.user_vax.specs.Program.{run};
ghost use Rattle.flat_model.specs.Calls.{exit_reply};
ghost use Rattle.flat_model.specs.declared.calls.Reply.TheVariants.{Exits};
ghost use Rattle.kernel_model.specs.Unit.{has_lender, lender_among, proc_of};
ghost use Rattle.machine_state.specs.Going.{CanGoOn, IsRunning};
ghost use Rattle.machine_state.specs.UserMemory.{CanLend, kernel_answers};
ghost use Rattle.machine_state.specs.Outside.{IsBacked, GoesOn};
ghost use Rattle.vfork_pass.specs.Passed.{HasGivenBack};
ghost use Rattle.fault_fill.specs.Growth.{space_of_pid};
ghost use Rattle.proc_calls.specs.Answered.{StopsReading};
ghost use Rattle.proc_calls.specs.Callers.{IsCaller};
ghost use Rattle.proc_calls.specs.Leaving.{HasLeft, HasEnded, IsExit, ExitComes, StopsLeaving, StopsAlive};

use crate::replying::{Called, process, refuse};
use flat_model::{Asked, Reply, SystemCall, exit_reply};
use flat_state::Change;
use io_edge::{Files, SwapDev};
use machine_state::Machine;
use proc_table::Life;
use vfork_pass::give_back;
use vm_facts::{Entry, Regs, Stop};

// Whether some process lends its space to this one.
fn is_borrower(m: &Machine, pid: u32) -> bool
    requires running { IsRunning m.now }
    requires there { IsSome (proc_of m.now.kernel pid) }
    ensures { result ≡ has_lender m.now.kernel.processes pid }
{
    match m.processes().get(pid) {
        Some(process) => process.borrowed,
        None => unreachable!(),
    }
}

// The number of the space that a process holds.
pub fn space_of_pid(m: &Machine, pid: u32) -> u32
    requires running { IsRunning m.now }
    requires lends { CanLend m.now.kernel pid }
    ensures { result ≡ space_of_pid m.now.kernel pid }
{
    match process(m, pid).state {
        Life::Holds(sid) => sid,
        _ => unreachable!(),
    }
}

/// A process leaves its space: one that it borrowed goes back, once there is room for the entry that follows, and one of its own
/// waits for its transfers.
pub fn leave_space<F: Files, D: SwapDev>(
    m: &mut Machine,
    files: &mut F,
    swap: &mut D,
    pid: u32,
) -> Result<(), Stop>
    requires calls { IsCaller m.old pid }
    requires backed { IsBacked m.old (F.holds files.old) (D.blocks swap.old) }
    ensures left { OnOk result (HasLeft m.old m.new pid (F.holds files.old) (stores F.Files D.SwapDev files.old swap.old)
        (stores F.Files D.SwapDev files.new swap.new)) }
    ensures given { OnOk result
        (has_lender m.old.kernel.processes pid ≡ true → HasGivenBack m.old.kernel m.new.kernel pid (lender_among m.old.kernel.processes pid)) }
    ensures stops { IfErr result (StopsLeaving m.old m.new pid (F.holds files.old) (stores F.Files D.SwapDev files.old swap.old)
        (stores F.Files D.SwapDev files.new swap.new)) }
    ensures goes_on { GoesOn F.Files D.SwapDev result m.new files.old files.new swap.old swap.new }
{
    if is_borrower(m, pid) {
        m.make_room()?;
        give_back(m, pid);
        return Ok(());
    }
    let sid = space_of_pid(m, pid);
    m.settle(files, swap, sid)
}

/// A process ends with a status.
pub fn end<F: Files, D: SwapDev>(
    m: &mut Machine,
    files: &mut F,
    swap: &mut D,
    pid: u32,
    status: u32,
) -> Result<(), Stop>
    requires calls { IsCaller m.old pid }
    requires backed { IsBacked m.old (F.holds files.old) (D.blocks swap.old) }
    ensures ended { OnOk result (HasEnded m.old m.new pid status (F.holds files.old) (stores F.Files D.SwapDev files.old swap.old)
        (stores F.Files D.SwapDev files.new swap.new)) }
    ensures stops { IfErr result (StopsAlive m.old m.new pid (F.holds files.old) (stores F.Files D.SwapDev files.old swap.old)
        (stores F.Files D.SwapDev files.new swap.new)) }
    ensures goes_on { GoesOn F.Files D.SwapDev result m.new files.old files.new swap.old swap.new }
{
    let regs = process(m, pid).regs;
    leave_space(m, files, swap, pid)?;
    m.flat(
        pid,
        &regs,
        Entry::Ended { pid, status },
        Change::End { status },
    )
}

/// A process ends by a signal.
pub fn kill<F: Files, D: SwapDev>(
    m: &mut Machine,
    files: &mut F,
    swap: &mut D,
    pid: u32,
    signal: u8,
) -> Result<(), Stop>
    requires calls { IsCaller m.old pid }
    requires backed { IsBacked m.old (F.holds files.old) (D.blocks swap.old) }
    ensures ended { OnOk result (HasEnded m.old m.new pid signal (F.holds files.old) (stores F.Files D.SwapDev files.old swap.old)
        (stores F.Files D.SwapDev files.new swap.new)) }
    ensures stops { IfErr result (StopsAlive m.old m.new pid (F.holds files.old) (stores F.Files D.SwapDev files.old swap.old)
        (stores F.Files D.SwapDev files.new swap.new)) }
    ensures goes_on { GoesOn F.Files D.SwapDev result m.new files.old files.new swap.old swap.new }
{
    end(m, files, swap, pid, u32::from(signal))
}

// What the exit of a process comes to, by its memory.
fn read_status(m: &mut Machine, pid: u32, regs: &Regs) -> Asked<Reply>
    requires ready { CanGoOn m.old }
    requires lends { CanLend m.old.kernel pid }
    ensures value { result ≡ run (kernel_answers m.old.kernel (space_of_pid m.old.kernel pid)) (exit_reply regs.now) }
    ensures same { m.new ≡ m.old }
{
    exit_reply(&m.memory(pid), *regs)
}

// The status of a reply that ends the process.
fn status_of(reply: Reply) -> u32
    requires { IsExit reply }
    ensures { reply ≡ Exits result }
{
    match reply {
        Reply::Exits(status) => status,
        Reply::Does(_, _) | Reply::Writes(_) | Reply::Fails(_) | Reply::Waits => unreachable!(),
    }
}

/// The process ends with its argument's low byte as status.
pub fn exit<F: Files, D: SwapDev>(
    m: &mut Machine,
    files: &mut F,
    swap: &mut D,
    pid: u32,
    regs: &Regs,
) -> Result<Called, Stop>
    requires calls { IsCaller m.old pid }
    requires backed { IsBacked m.old (F.holds files.old) (D.blocks swap.old) }
    ensures comes { IfOk result (λ called. ExitComes m.old m.new pid regs.now (run (kernel_answers m.old.kernel (space_of_pid m.old.kernel pid))
        (exit_reply regs.now)) (F.holds files.old) (stores F.Files D.SwapDev files.old swap.old) (stores F.Files D.SwapDev files.new swap.new) called) }
    ensures stops { IfErr result (StopsReading (run (kernel_answers m.old.kernel (space_of_pid m.old.kernel pid)) (exit_reply regs.now))
        (λ reply. StopsAlive m.old m.new pid (F.holds files.old)) m.old m.new
        (stores F.Files D.SwapDev files.old swap.old) (stores F.Files D.SwapDev files.new swap.new)) }
    ensures goes_on { GoesOn F.Files D.SwapDev result m.new files.old files.new swap.old swap.new }
{
    match read_status(m, pid, regs) {
        Err(refused) => refuse(m, pid, SystemCall::Exit, regs, refused),
        Ok(reply) => {
            end(m, files, swap, pid, status_of(reply))?;
            Ok(Called::Gone)
        }
    }
}
