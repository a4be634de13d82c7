//! The record of a process in a machine's tables. It may be looked at alone.
ghost use Rattle.machine_state.specs.Going.{IsRunning};
ghost use Rattle.move_judge.specs.Records.{IsRecord};

use machine_state::Machine;
use proc_table::Proc;

/// The record of a process; None exactly where there is none.
pub fn record_of(m: &Machine, pid: u32) -> Option<Proc>
    requires { IsRunning m.now }
    ensures { IsRecord m.now.kernel pid result }
{
    match m.processes().get(pid) {
        Some(process) => Some(*process),
        None => None,
    }
}
