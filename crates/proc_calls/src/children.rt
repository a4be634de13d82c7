//! The calls `wait` and `getpid`. They may move no page and call no device.
ghost use Rattle.std.specs.Prelude.{◌<◌, IfOk, OnOk};
ghost use Rattle.machine_state.specs.Performing.{IsAtBound, StopsForRoom};
ghost use Rattle.flat_state.specs.declared.change.Change.TheVariants.{Keep};
ghost use Rattle.flat_model.specs.Calls.{replied_both};
ghost use Rattle.flat_model.specs.declared.calls.Reply.TheVariants.{Does};
ghost use Rattle.flat_model.specs.declared.calls.SystemCall.TheVariants.{Getpid, Wait};
ghost use Rattle.machine_state.specs.Going.{CanGoOn};
ghost use Rattle.proc_calls.specs.Answered.{Replied};
ghost use Rattle.proc_calls.specs.Callers.{parent_of, IsCaller};
ghost use Rattle.proc_calls.specs.Waiting.{wait_answer, FoundAmong};

use crate::replying::{Called, fail, process, replied_both, reply};
use flat_model::{ECHILD, SystemCall};
use flat_state::Change;
use machine_state::Machine;
use proc_table::{Life, ProcTable};
use vm_facts::{Entry, Regs, Stop};

// What a process has to wait for.
#[derive(Clone, Copy, Drop)]
enum Children {
    None,
    // Children, of whom none is a zombie.
    Living,
    // The zombie child of the lowest pid, with its status.
    Zombie { child: u32, status: u32 },
}

// What the children of a process come to.
fn children_of(processes: &ProcTable, parent: u32) -> Children
    ensures { FoundAmong (λ n. 0 < n) processes.now parent result }
{
    let mut found = Children::None;
    let mut last = 0;
    while let Some(pid) = processes.next_after(last) {
        last = pid;
        match processes.get(pid) {
            Some(child) if child.parent == parent => {
                if let Life::Zombie(status) = child.state {
                    return Children::Zombie { child: pid, status };
                }
                found = Children::Living;
            }
            _ => {}
        }
    }
    found
}

/// The process waits for the end of a child.
pub fn wait(m: &mut Machine, pid: u32, regs: &Regs) -> Result<Called, Stop>
    requires calls { IsCaller m.old pid }
    ensures replied { IfOk result (Replied m.old m.new pid Wait regs.now (wait_answer m.old.kernel pid regs.now)) }
    ensures stops { StopsForRoom (IsAtBound m.old) result m.old m.new }
    ensures goes_on { OnOk result (CanGoOn m.new) }
{
    match children_of(m.processes(), pid) {
        Children::None => fail(m, pid, SystemCall::Wait, regs, ECHILD),
        Children::Zombie { child, status } => {
            let after = replied_both(regs, child, status);
            reply(m, pid, SystemCall::Wait, &after, Change::Reap { child })
        }
        Children::Living => {
            let before = process(m, pid).regs;
            m.flat(pid, &before, Entry::Sleeps { pid }, Change::Sleep)?;
            Ok(Called::Asleep)
        }
    }
}

/// The process asks for its number, and its parent's.
pub fn getpid(m: &mut Machine, pid: u32, regs: &Regs) -> Result<Called, Stop>
    requires calls { IsCaller m.old pid }
    ensures replied { IfOk result (Replied m.old m.new pid Getpid regs.now (Does (replied_both regs.now pid (parent_of m.old.kernel pid)) Keep)) }
    ensures stops { StopsForRoom (IsAtBound m.old) result m.old m.new }
    ensures goes_on { OnOk result (CanGoOn m.new) }
{
    let parent = process(m, pid).parent;
    let after = replied_both(regs, pid, parent);
    reply(m, pid, SystemCall::Getpid, &after, Change::Keep)
}
