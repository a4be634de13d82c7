//! The record of a process that is there, read or replaced. Its number may not change, and its family is
//! families.rt's matter.
ghost use Rattle.std.specs.Prelude.{◌≡◌, Some, IsSome};
ghost use Rattle.proc_table.specs.Records.{find, Changes, IsProcTable};
ghost use Rattle.kernel_tables.specs.Lives.{space_of_record};
ghost use Rattle.kernel_tables.specs.Moves.{LeftRegs};

use crate::tables::Tables;
use proc_table::{Life, Proc, ProcTable};
use vm_facts::Regs;

/// The record of a process that the table has.
pub fn record_of(processes: &ProcTable, pid: u32) -> Proc
    requires { IsSome (find pid processes.now) }
    ensures found { find pid processes.now ≡ Some result }
    ensures table { IsProcTable processes.now }
{
    match processes.get(pid) {
        Some(process) => *process,
        None => unreachable!(),
    }
}

impl Tables {
    /// The record of a process that there is.
    pub fn process(&self, pid: u32) -> Proc
        requires { IsSome (find pid self.now.processes) }
        ensures record { find pid self.now.processes ≡ Some result }
        ensures sound { IsProcTable self.now.processes }
    {
        record_of(&self.processes, pid)
    }

    /// Another record for a process that there is.
    pub fn set_process(&mut self, process: Proc)
        requires { IsSome (find process.pid self.old.processes) }
        ensures record { Changes self.old.processes self.new.processes process.pid (Some process) }
        ensures sound { IsProcTable self.new.processes }
        ensures rest { self.new ≡ record self.old { processes = self.new.processes } }
    {
        let _known = self.processes.set(process);
    }

    /// Other registers in the record of a process that there is.
    pub fn set_regs(&mut self, pid: u32, regs: &Regs)
        requires { IsSome (find pid self.old.processes) }
        ensures { LeftRegs self.old self.new pid regs.now }
    {
        let process = self.process(pid);
        self.set_process(Proc {
            regs: *regs,
            ..process
        });
    }

    /// The space that a process holds.
    pub fn space_of(&self, pid: u32) -> Option<u32>
        ensures { result ≡ space_of_record (find pid self.now.processes) }
    {
        match self.processes.get(pid)?.state {
            Life::Holds(sid) => Some(sid),
            Life::New | Life::Lends { .. } | Life::Zombie(_) => None,
        }
    }
}
