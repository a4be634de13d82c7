//! Whose turn is next, by the records of the processes. The machine may not change here.
ghost use Rattle.std.specs.Prelude.{◌≡◌, true, false, Some, None, IfSome};
ghost use Rattle.machine_state.specs.Going.{IsRunning};
ghost use Rattle.machine_state.specs.Machine.{proc_shown};
ghost use Rattle.step_units.specs.Callers.{regs_of};
ghost use Rattle.proc_run.specs.Choosing.{can_run, may_run, turn_after, next_runner, FoundReady};

use machine_state::Machine;
use proc_table::{Life, Proc, ProcTable};
use vm_facts::Regs;

/// Whether a process holds a space and doesn't sleep.
pub fn can_step(process: &Proc) -> bool
    ensures { result ≡ can_run (proc_shown process.now) }
{
    matches!(process.state, Life::Holds(_)) && !process.asleep
}

// The lowest process above this one that can step.
fn ready_above(processes: &ProcTable, above: u32) -> Option<u32>
    ensures { FoundReady processes.now above result }
{
    let mut last = above;
    while let Some(pid) = processes.next_after(last) {
        last = pid;
        match processes.get(pid) {
            Some(process) if can_step(process) => return Some(pid),
            _ => {}
        }
    }
    None
}

// The lowest process of a machine above this one that can step.
fn next_ready(m: &Machine, above: u32) -> Option<u32>
    requires { IsRunning m.now }
    ensures { result ≡ next_runner m.now.kernel above }
{
    ready_above(m.processes(), above)
}

/// The process of the next turn, after a turn of this one; 0 stands for none. None comes where no process can step.
pub fn next_turned(m: &Machine, last: u32) -> Option<u32>
    requires { IsRunning m.now }
    ensures { result ≡ turn_after m.now.kernel last }
{
    match next_ready(m, last) {
        Some(pid) => Some(pid),
        None => next_ready(m, 0),
    }
}

/// The registers of a process that is in and can step; None where it isn't in, can't, or isn't there.
pub fn ready_regs(m: &Machine, pid: u32) -> Option<Regs>
    requires { IsRunning m.now }
    ensures ready { IfSome result (λ regs. may_run m.now.kernel pid ≡ true) }
    ensures registers { IfSome result (λ regs. regs ≡ regs_of m.now.kernel pid) }
    ensures none { result ≡ None → may_run m.now.kernel pid ≡ false }
{
    let process = m.processes().get(pid)?;
    if can_step(process) && !process.out {
        Some(process.regs)
    } else {
        None
    }
}
