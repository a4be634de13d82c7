//! The call `execve`: the process starts another image. Path and arguments are read whole before anything is done.
ghost use Rattle.io_edge.specs.WithFiles.{stores};
ghost use Rattle.std.specs.Prelude.{◌≡◌, List, [], length, IfOk, IfErr};
ghost use Rattle.user_vax.specs.Program.{run};
ghost use Rattle.flat_state.specs.Flat.{NamedImage};
ghost use Rattle.flat_model.specs.Calls.{execve_reply};
ghost use Rattle.page_model.specs.Rank.{HasRoom};
ghost use Rattle.machine_state.specs.Going.{CanGoOn};
ghost use Rattle.machine_state.specs.UserMemory.{CanLend, kernel_answers};
ghost use Rattle.machine_state.specs.Outside.{IsBacked, GoesOn};
ghost use Rattle.fault_fill.specs.Growth.{space_of_pid};
ghost use Rattle.call_reads.specs.Reading.{AreNamed, StartsAs};
ghost use Rattle.proc_calls.specs.Answered.{StopsReading};
ghost use Rattle.proc_calls.specs.Callers.{IsCaller};
ghost use Rattle.proc_calls.specs.Starting.{IsImageOf, execve_read, ExecComes, StopsExec};

use crate::replying::{Called, fail, refuse};
use crate::starting::start_image;
use call_reads::execve_reply;
use flat_model::{Asked, Reply, SystemCall};
use flat_state::Change;
use io_edge::{Files, SwapDev};
use machine_state::{Machine, or_stop};
use std::alloc::Global;
use vm_facts::{NoMemory, Regs, Stop};

// What the execve of a process comes to, by its memory.
fn read_call(
    alloc: Global,
    m: &mut Machine,
    pid: u32,
    regs: &Regs,
) -> Result<Asked<Reply>, NoMemory>
    requires ready { CanGoOn m.old }
    requires lends { CanLend m.old.kernel pid }
    ensures value { (known : List NamedImage) → AreNamed known m.old.images
        → IfOk result (λ asked. asked ≡ run (kernel_answers m.old.kernel (space_of_pid m.old.kernel pid)) (execve_reply known regs.now)) }
    ensures starts { IfOk result (λ asked. IfOk asked (StartsAs (IsImageOf m.old))) }
    ensures same { m.new ≡ m.old }
{
    let memory = m.memory(pid);
    execve_reply(alloc, memory.images(), &memory, regs)
}

/// The process starts another image, by the path and the arguments that its memory has. Its new stack page 0 is filled after
/// the call's entry. ENOENT comes where no image has the path, and where that is too long; E2BIG where an argument is too long, or
/// there are too many; EFAULT where a byte that is read is refused, whichever comes first; and ENOMEM where the image's pieces of
/// swap find no place.
pub fn execve<F: Files, D: SwapDev>(
    alloc: Global,
    m: &mut Machine,
    files: &mut F,
    swap: &mut D,
    pid: u32,
    regs: &Regs,
) -> Result<Called, Stop>
    requires calls { IsCaller m.old pid }
    requires backed { IsBacked m.old (F.holds files.old) (D.blocks swap.old) }
    requires room { HasRoom m.old.kernel.place [] }
    ensures comes { (known : List NamedImage) → AreNamed known m.old.images
        → IfOk result (ExecComes m.old m.new pid regs.now (execve_read known m.old pid regs.now) (F.holds files.old)
        (stores F.Files D.SwapDev files.old swap.old) (stores F.Files D.SwapDev files.new swap.new)) }
    ensures stops { (known : List NamedImage) → AreNamed known m.old.images
        → IfErr result (StopsReading (execve_read known m.old pid regs.now) (λ reply. StopsExec m.old m.new pid reply (F.holds files.old)) m.old m.new
        (stores F.Files D.SwapDev files.old swap.old) (stores F.Files D.SwapDev files.new swap.new)) }
    ensures goes_on { GoesOn F.Files D.SwapDev result m.new files.old files.new swap.old swap.new }
{
    let asked = read_call(alloc, m, pid, regs);
    match or_stop(asked)? {
        Err(refused) => refuse(m, pid, SystemCall::Execve, regs, refused),
        Ok(Reply::Fails(error)) => fail(m, pid, SystemCall::Execve, regs, error),
        Ok(Reply::Does(after, Change::Exec { image, top })) => {
            start_image(m, files, swap, pid, regs, &after, image, top)
        }
        Ok(_) => unreachable!(),
    }
}
