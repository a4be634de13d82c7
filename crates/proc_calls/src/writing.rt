//! The call `write`: bytes go into the journal. No output may be written here; that is done from the journal, once
//! the run has ended.
ghost use Rattle.std.specs.Prelude.{◌≡◌, ◌⊎◌, ◌≤◌, length, Option, IfOk, OnOk, IfErr, OnErr, Err};
ghost use Rattle.vm_facts.specs.SwapImages.{SwapImage};
ghost use Rattle.user_vax.specs.Program.{run};
ghost use Rattle.flat_model.specs.Calls.{write_limit, write_reply};
ghost use Rattle.flat_model.specs.declared.calls.Reply.TheVariants.{Writes};
ghost use Rattle.flat_model.specs.declared.calls.SystemCall.TheVariants.{Write};
ghost use Rattle.machine_state.specs.Going.{CanGoOn};
ghost use Rattle.machine_state.specs.Conditions.{HasStopped};
ghost use Rattle.machine_state.specs.UserMemory.{CanLend, kernel_answers};
ghost use Rattle.fault_fill.specs.Growth.{space_of_pid};
ghost use Rattle.proc_calls.specs.Answered.{GoneOut, Replied, Comes, StopsReading};
ghost use Rattle.proc_calls.specs.Callers.{IsCaller};
ghost use Rattle.proc_calls.specs.Writing.{IsWrite, reply_bytes, StopsOut};

use crate::replying::{Called, fail, process, refuse, replied_one, reply};
use flat_model::{Asked, Reply, SystemCall, write_reply};
use flat_state::Change;
use machine_state::{Machine, or_stop};
use std::alloc::Global;
use vm_facts::{Bytes, Entry, NoMemory, Regs, Stop};

// Bytes of the process go out, where there are any. Its record keeps its registers.
fn send(m: &mut Machine, pid: u32, bytes: Bytes) -> Result<(), Stop>
    requires calls { IsCaller m.old pid }
    ensures out { OnOk result (GoneOut m.old m.new pid bytes) }
    ensures calls { OnOk result (IsCaller m.new pid) }
    ensures stop { OnErr result (HasStopped m.old m.new) }
    ensures cause { OnErr result ((result ≡ Err Stop.JournalFull) ⊎ (result ≡ Err Stop.NoMemory)) }
    ensures full { result ≡ Err Stop.JournalFull → m.old.params.journal ≤ length m.old.kernel.journal }
{
    if bytes.as_slice().is_empty() {
        return Ok(());
    }
    let before = process(m, pid).regs;
    m.flat(pid, &before, Entry::Out { pid, bytes }, Change::Keep)
}

// The process writes bytes, if any.
fn put_out(m: &mut Machine, pid: u32, regs: &Regs, bytes: Bytes) -> Result<Called, Stop>
    requires calls { IsCaller m.old pid }
    requires few { length bytes ≤ write_limit }
    ensures replied { IfOk result (Replied m.old m.new pid Write regs.now (Writes bytes)) }
    ensures stop { IfErr result (StopsOut m.old m.new pid bytes) }
    ensures goes_on { OnOk result (CanGoOn m.new) }
{
    let count = bytes.as_slice().len() as u32;
    send(m, pid, bytes)?;
    reply(
        m,
        pid,
        SystemCall::Write,
        &replied_one(regs, count),
        Change::Keep,
    )
}

// What the write of a process comes to, by its memory.
fn read_bytes(
    alloc: Global,
    m: &mut Machine,
    pid: u32,
    regs: &Regs,
) -> Result<Asked<Reply>, NoMemory>
    requires ready { CanGoOn m.old }
    requires lends { CanLend m.old.kernel pid }
    ensures value { IfOk result (λ asked. asked ≡ run (kernel_answers m.old.kernel (space_of_pid m.old.kernel pid)) (write_reply regs.now)) }
    ensures same { m.new ≡ m.old }
{
    write_reply(alloc, &m.memory(pid), *regs)
}

// A reply of write.
fn answer(m: &mut Machine, pid: u32, regs: &Regs, reply: Reply) -> Result<Called, Stop>
    requires calls { IsCaller m.old pid }
    requires writes { IsWrite reply }
    ensures replied { IfOk result (Replied m.old m.new pid Write regs.now reply) }
    ensures stop { IfErr result (StopsOut m.old m.new pid (reply_bytes reply)) }
    ensures goes_on { OnOk result (CanGoOn m.new) }
{
    match reply {
        Reply::Writes(bytes) => put_out(m, pid, regs, bytes),
        Reply::Fails(error) => fail(m, pid, SystemCall::Write, regs, error),
        Reply::Does(_, _) | Reply::Waits | Reply::Exits(_) => unreachable!(),
    }
}

/// The process writes bytes to the output.
pub fn write(alloc: Global, m: &mut Machine, pid: u32, regs: &Regs) -> Result<Called, Stop>
    requires calls { IsCaller m.old pid }
    ensures comes { IfOk result
        (Comes m.old m.new pid Write regs.now (run (kernel_answers m.old.kernel (space_of_pid m.old.kernel pid)) (write_reply regs.now))) }
    ensures stop { (image : Option SwapImage)
        → IfErr result (StopsReading (run (kernel_answers m.old.kernel (space_of_pid m.old.kernel pid)) (write_reply regs.now))
        (λ reply before after. StopsOut m.old m.new pid (reply_bytes reply)) m.old m.new image image) }
    ensures goes_on { OnOk result (CanGoOn m.new) }
{
    let asked = read_bytes(alloc, m, pid, regs);
    match or_stop(asked)? {
        Err(refused) => refuse(m, pid, SystemCall::Write, regs, refused),
        Ok(reply) => answer(m, pid, regs, reply),
    }
}
