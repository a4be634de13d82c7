//! What a call comes to, and the registers by which it replies. Where a byte misses, nothing may have been done.
ghost use Rattle.std.specs.Prelude.{◌≡◌, true, false, Some, IsSome, IfOk, OnOk, IfErr, Ok, Err};
ghost use Rattle.machine_state.specs.Performing.{IsAtBound, StopsForRoom};
ghost use Rattle.flat_state.specs.declared.change.Change.TheVariants.{Keep};
ghost use Rattle.flat_model.specs.Calls.{no_memory, replied, replied_both};
ghost use Rattle.flat_model.specs.declared.calls.Reply.TheVariants.{Fails};
ghost use Rattle.flat_model.specs.Step.{call_entry};
ghost use Rattle.machine_state.specs.Going.{CanGoOn, IsRunning};
ghost use Rattle.machine_state.specs.Machine.{proc_shown};
ghost use Rattle.machine_state.specs.Applying.{CanApply};
ghost use Rattle.fault_fill.specs.Stops.{StopsBefore};
ghost use Rattle.kernel_model.specs.Unit.{proc_of};
ghost use Rattle.proc_calls.specs.Answered.{Answered, Replied, Comes, StopsRefused};
ghost use Rattle.proc_calls.specs.Callers.{IsCaller};

use flat_model::{EFAULT, ENOMEM, SystemCall};
use flat_state::Change;
use machine_state::Machine;
use proc_table::Proc;
use user_vax::Refused;
use vm_facts::{Entry, Regs, Stop};

/// What a call comes to.
#[derive(Clone, Copy, Debug, PartialEq, Eq, Drop)]
pub enum Called {
    /// The reply is in the registers.
    Ready,
    /// Nothing was done, since a page that the call reads isn't valid. This byte is the first on such a page.
    Miss { address: u32 },
    /// The process sleeps until a child of it is a zombie.
    Asleep,
    /// The process has ended.
    Gone,
}

/// The record of a process that there is.
pub fn process(m: &Machine, pid: u32) -> Proc
    requires running { IsRunning m.now }
    requires there { IsSome (proc_of m.now.kernel pid) }
    ensures { proc_of m.now.kernel pid ≡ Some (proc_shown result) }
{
    match m.processes().get(pid) {
        Some(process) => *process,
        None => unreachable!(),
    }
}

// R0 and the carry.
#[tactic(auto, unfolding(user_vax::specs::Operands::with_register))]
fn replied(regs: &Regs, carry: bool, r0: u32) -> Regs
    ensures { result ≡ replied regs.now carry r0 }
{
    let mut after = *regs;
    after.r[0] = r0;
    after.c = carry;
    after
}

/// R0, with the carry clear.
pub fn replied_one(regs: &Regs, r0: u32) -> Regs
    ensures { result ≡ replied regs.now false r0 }
{
    replied(regs, false, r0)
}

/// R0 and R1, with the carry clear.
pub fn replied_both(regs: &Regs, r0: u32, r1: u32) -> Regs
    ensures { result ≡ replied_both regs.now r0 r1 }
{
    let mut after = replied(regs, false, r0);
    after.r[1] = r1;
    after
}

/// The call replies with these registers, and makes a change.
pub fn reply(
    m: &mut Machine,
    pid: u32,
    call: SystemCall,
    regs: &Regs,
    change: Change,
) -> Result<Called, Stop>
    requires running { IsRunning m.old }
    requires can { CanApply m.old pid (call_entry pid call regs.now) change }
    ensures ready { IfOk result (λ called. called ≡ Called.Ready) }
    ensures answered { OnOk result (Answered m.old m.new pid call regs.now change) }
    ensures stops { StopsForRoom (IsAtBound m.old) result m.old m.new }
    ensures goes_on { OnOk result (CanGoOn m.new) }
{
    let entry = Entry::Call {
        pid,
        number: call.number(),
        carry: regs.c,
        r0: regs.r[0],
        r1: regs.r[1],
    };
    m.flat(pid, regs, entry, change)?;
    Ok(Called::Ready)
}

/// The call answers an error.
pub fn fail(
    m: &mut Machine,
    pid: u32,
    call: SystemCall,
    regs: &Regs,
    error: u32,
) -> Result<Called, Stop>
    requires calls { IsCaller m.old pid }
    ensures replied { IfOk result (Replied m.old m.new pid call regs.now (Fails error)) }
    ensures stops { StopsForRoom (IsAtBound m.old) result m.old m.new }
    ensures goes_on { OnOk result (CanGoOn m.new) }
{
    reply(m, pid, call, &replied(regs, true, error), Change::Keep)
}

/// A byte that the call reads was refused: its page comes in first, or the address is a bad one.
pub fn refuse(
    m: &mut Machine,
    pid: u32,
    call: SystemCall,
    regs: &Regs,
    refused: Refused,
) -> Result<Called, Stop>
    requires calls { IsCaller m.old pid }
    ensures comes { IfOk result (Comes m.old m.new pid call regs.now (Err refused)) }
    ensures stops { IfErr result (StopsRefused m.old m.new refused) }
    ensures goes_on { OnOk result (CanGoOn m.new) }
{
    match refused {
        Refused::Miss { address, .. } => Ok(Called::Miss { address }),
        Refused::Below { .. } | Refused::Signal(_) => fail(m, pid, call, regs, EFAULT),
    }
}

/// The rest of a call of which so many bytes went out, after their entry.
pub fn answer_sent(
    m: &mut Machine,
    pid: u32,
    call: SystemCall,
    regs: &Regs,
    count: u32,
) -> Result<Called, Stop>
    requires calls { IsCaller m.old pid }
    ensures answered { OnOk result (Answered m.old m.new pid call (replied regs.now false count) Keep) }
    ensures stops { IfErr result (StopsBefore m.old m.new) }
    ensures goes_on { OnOk result (CanGoOn m.new) }
{
    reply(m, pid, call, &replied_one(regs, count), Change::Keep)
}

/// The rest of a call whose pieces of swap found no place, after the entry that says so.
pub fn answer_refused(
    m: &mut Machine,
    pid: u32,
    call: SystemCall,
    regs: &Regs,
) -> Result<Called, Stop>
    requires calls { IsCaller m.old pid }
    ensures answered { OnOk result (Answered m.old m.new pid call (replied regs.now true no_memory) Keep) }
    ensures stops { IfErr result (StopsBefore m.old m.new) }
    ensures goes_on { OnOk result (CanGoOn m.new) }
{
    fail(m, pid, call, regs, ENOMEM)
}
