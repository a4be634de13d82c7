//! Finds the process that holds a space, and whether it may go out. The machine may not change here.
ghost use Rattle.std.specs.Prelude.{◌≡◌};
ghost use Rattle.flat_state.specs.Flat.{FlatState};
ghost use Rattle.kernel_model.specs.Coupled.{SameTables};
ghost use Rattle.machine_state.specs.Going.{IsRunning};
ghost use Rattle.machine_state.specs.Lives.{space_by};
ghost use Rattle.paged_model.specs.Leaving.{holder_stays};
ghost use Rattle.move_judge.specs.Holders.{has_space, record_stays, FoundHolder};

use crate::reasons::{or_reason, unless};
use machine_state::Machine;
use paged_model::Reason;
use proc_table::{Life, Proc, ProcTable};

// Whether what a process has is the space of this number.
fn has_space(process: &Proc, sid: u32) -> bool
    ensures { result ≡ has_space sid process.now }
{
    match process.state {
        Life::Holds(held) => held == sid,
        Life::New | Life::Lends { .. } | Life::Zombie(_) => false,
    }
}

/// The space that a process holds; None where it holds none.
pub fn held_space(process: &Proc) -> Option<u32>
    ensures { result ≡ space_by process.now.state }
{
    match process.state {
        Life::Holds(sid) => Some(sid),
        Life::New | Life::Lends { .. } | Life::Zombie(_) => None,
    }
}

// The record of the process that holds the space of this number; None exactly where none does.
fn holder_of(processes: &ProcTable, sid: u32) -> Option<Proc>
    ensures { FoundHolder processes.now sid result }
{
    let mut last = 0;
    while let Some(pid) = processes.next_after(last) {
        last = pid;
        match processes.get(pid) {
            Some(process) if has_space(process, sid) => return Some(*process),
            _ => {}
        }
    }
    None
}

/// The process of a record, in a space that it holds, may go out: it is in, and didn't borrow the space.
pub fn record_stays(process: &Proc) -> Option<Reason>
    ensures { result ≡ record_stays process.now }
{
    or_reason(
        unless(!process.borrowed, Reason::Borrowed(process.pid)),
        unless(!process.out, Reason::IsOut(process.pid)),
    )
}

/// The process that holds the space of this number may go out.
pub fn holder_stays(m: &Machine, sid: u32) -> Option<Reason>
    requires { IsRunning m.now }
    ensures { (F : FlatState) → SameTables m.now.kernel F → result ≡ holder_stays F m.now.kernel.place sid }
{
    match holder_of(m.processes(), sid) {
        None => Some(Reason::NoHolder(sid)),
        Some(holder) => record_stays(&holder),
    }
}
