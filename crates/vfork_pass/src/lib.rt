//! Spaces that are lent: a child of vfork runs in its parent's space, until it execs or ends (the 4.3BSD book).
//! Neither call appends an entry, so nothing may come between it and the entry that it belongs to.
#![tactic(auto)]

ghost use Rattle.std.specs.Prelude.{◌≡◌, true};
ghost use Rattle.proc_table.specs.Records.{find, Lowest};
ghost use Rattle.kernel_model.specs.Kernel.{New};
ghost use Rattle.kernel_model.specs.Sound.{lives};
ghost use Rattle.kernel_model.specs.Unit.{has_lender, lender_among};
ghost use Rattle.kernel_model.specs.ChangeStep.{pass_step};
ghost use Rattle.machine_state.specs.Going.{IsRunning};
ghost use Rattle.machine_state.specs.Calls.{life_in};
ghost use Rattle.vfork_pass.specs.Lenders.{lends_in, IsLender};
ghost use Rattle.vfork_pass.specs.Passed.{IsHolder, HasLent, HasGivenBack};

use machine_state::Machine;
use proc_table::{Life, ProcTable};

/// The parent lends its space to the child, which has none yet. It follows the entry of the vfork at once.
pub fn lend(m: &mut Machine, parent: u32, child: u32)
    requires running { IsRunning m.old }
    requires holds { IsHolder (life_in m.old.kernel parent) }
    requires there { lives m.old.kernel.processes child ≡ true }
    requires fresh { life_in m.old.kernel child ≡ New }
    ensures step { m.new ≡ record m.old { kernel = pass_step m.old.kernel parent child } }
    ensures lent { HasLent m.old.kernel m.new.kernel parent child }
    ensures running { IsRunning m.new }
{
    m.pass(parent, child);
}

// Whether a process lends its space to this one.
fn lends_to(processes: &ProcTable, pid: u32, borrower: u32) -> bool
    ensures { result ≡ lends_in borrower (find pid processes.now) }
{
    match processes.get(pid) {
        Some(process) => { matches!(process.state, Life::Lends { child, .. } if child == borrower) }
        None => false,
    }
}

// The first process that lends its space to this one.
fn lender_of(processes: &ProcTable, borrower: u32) -> Option<u32>
    ensures { Lowest (IsLender processes.now borrower) result }
{
    let mut pid = processes.next_after(0)?;
    while !lends_to(processes, pid, borrower) {
        pid = processes.next_after(pid)?;
    }
    Some(pid)
}

/// The child gives the space back that it borrowed. The entry of its execve or of its end follows at once.
pub fn give_back(m: &mut Machine, child: u32)
    requires running { IsRunning m.old }
    requires holds { IsHolder (life_in m.old.kernel child) }
    requires borrowed { has_lender m.old.kernel.processes child ≡ true }
    ensures step { m.new ≡ record m.old { kernel = pass_step m.old.kernel child (lender_among m.old.kernel.processes child) } }
    ensures given { HasGivenBack m.old.kernel m.new.kernel child (lender_among m.old.kernel.processes child) }
    ensures running { IsRunning m.new }
{
    match lender_of(m.processes(), child) {
        Some(lender) => m.pass(child, lender),
        None => unreachable!(),
    }
}
