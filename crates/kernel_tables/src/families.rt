//! Records of processes come, hold spaces, sleep, end, and hand a space on. Parents and orphans are settled here;
//! pages aren't touched.
ghost use Rattle.std.specs.Prelude.{◌≡◌, ◌≢◌, ◌<◌, ◌+◌, ◌^◌, true, false, length, Some, None, IsSome, OnOk, OnErr};
ghost use Rattle.proc_table.specs.Records.{find, Changes, IsProcTable};
ghost use Rattle.proc_table.specs.declared.process.Proc.{Proc as Record};
ghost use Rattle.proc_table.specs.declared.process.Life.TheVariants as lives;
ghost use Rattle.kernel_model.specs.Kernel.{Proc as Process, HoldsSpace};
ghost use Rattle.kernel_model.specs.ChangeStep.{without_proc, child_proc, woken_procs};
ghost use Rattle.kernel_model.specs.Sound.{lives as are_alive};
ghost use Rattle.kernel_model.specs.Unit.{has_lender};
ghost use Rattle.kernel_tables.specs.Alike.{AreRecords};
ghost use Rattle.kernel_tables.specs.Machine.{life_shown};
ghost use Rattle.kernel_tables.specs.Applying.{MayPass};
ghost use Rattle.kernel_tables.specs.Families.{left_in, LeftChildren, IsAlone, IsBuried, HasPassed};
ghost use Rattle.kernel_tables.specs.Changing.{HasProcesses, HasOneMore, HasChanged, HasEnded, HoldsOrNew, processes_in, residents_in, process_in, life_at, passed_procs};

use crate::entering::next;
use crate::tables::Tables;
use proc_table::{Added, Life, Proc, ProcTable};
use vm_facts::{NoMemory, Regs};

// The record of a process that has none comes, where there is room.
fn put_in(processes: &mut ProcTable, process: Proc)
    requires none { find process.pid processes.old ≡ None }
    requires few { length processes.old < 64 }
    ensures record { Changes processes.old processes.new process.pid (Some process) }
    ensures sound { IsProcTable processes.new }
{
    let Added::Ok = processes.add(process) else {
        unreachable!()
    };
}

// The record of a process goes, if it is there.
fn take_out(processes: &mut ProcTable, pid: u32)
    ensures record { Changes processes.old processes.new pid None }
    ensures sound { IsProcTable processes.new }
{
    let _gone = processes.remove(pid);
}

impl Tables {
    /// A process more, of the next number, which has this and is in since that place in the journal.
    pub fn add_process(
        &mut self,
        parent: u32,
        regs: Regs,
        state: Life,
        since: u32,
    ) -> Result<(), NoMemory>
        requires records { AreRecords self.old.processes self.old.next_pid }
        requires few { length (processes_in self.old) < 64 }
        requires fresh { HoldsOrNew (life_shown state) }
        ensures one_more { OnOk result
            (HasOneMore self.old self.new (record { pid = self.old.next_pid; parent = parent; regs = regs; life = life_shown state; asleep = false }) since) }
        ensures none_left { OnErr result (self.old.next_pid + 1 ≡ 2 ^ 32) }
        ensures params { self.new.params ≡ self.old.params }
        ensures images { self.new.images ≡ self.old.images }
    {
        let number = next(self.next_pid)?;
        let process = Proc {
            pid: self.next_pid,
            parent,
            regs,
            state,
            asleep: false,
            out: false,
            borrowed: false,
            since,
        };
        put_in(&mut self.processes, process);
        self.next_pid = number;
        Ok(())
    }

    /// A child goes on from its parent's registers, with its parent's number in R0 and 1 in R1.
    pub fn add_child(&mut self, parent: u32, state: Life, since: u32) -> Result<(), NoMemory>
        requires records { AreRecords self.old.processes self.old.next_pid }
        requires there { IsSome (process_in self.old parent) }
        requires few { length (processes_in self.old) < 64 }
        requires fresh { HoldsOrNew (life_shown state) }
        ensures child { OnOk result
            ((p : Process) → process_in self.old parent ≡ Some p → HasOneMore self.old self.new (child_proc p self.old.next_pid (life_shown state)) since) }
        ensures params { self.new.params ≡ self.old.params }
        ensures images { self.new.images ≡ self.old.images }
    {
        let mut regs = self.process(parent).regs;
        regs.r[0] = parent;
        regs.r[1] = 1;
        self.add_process(parent, regs, state, since)
    }

    /// A process holds another space. Nobody lent it the one that it held.
    pub fn hold(&mut self, pid: u32, sid: u32)
        requires records { AreRecords self.old.processes self.old.next_pid }
        requires there { IsSome (process_in self.old pid) }
        requires life { HoldsOrNew (life_at self.old pid) }
        requires alone { has_lender (processes_in self.old) pid ≡ false }
        ensures { (p : Process) → process_in self.old pid ≡ Some p → HasChanged self.old self.new (record p { life = HoldsSpace sid }) }
    {
        let process = self.process(pid);
        self.set_process(Proc {
            state: Life::Holds(sid),
            ..process
        });
    }

    /// A process sleeps until a child of it is a zombie.
    pub fn sleep(&mut self, pid: u32)
        requires records { AreRecords self.old.processes self.old.next_pid }
        requires there { IsSome (process_in self.old pid) }
        ensures { (p : Process) → process_in self.old pid ≡ Some p → HasChanged self.old self.new (record p { asleep = true }) }
    {
        let process = self.process(pid);
        self.set_process(Proc {
            asleep: true,
            ..process
        });
    }

    /// A zombie is gone.
    pub fn reap(&mut self, child: u32)
        requires records { AreRecords self.old.processes self.old.next_pid }
        requires ended { are_alive (processes_in self.old) child ≡ false }
        ensures { HasProcesses self.old self.new self.old.next_pid (without_proc (processes_in self.old) child) (residents_in self.old) }
    {
        take_out(&mut self.processes, child);
    }

    // A process sleeps no more, if it is there.
    fn wake(&mut self, pid: u32)
        requires { AreRecords self.old.processes self.old.next_pid }
        ensures { HasProcesses self.old self.new self.old.next_pid (woken_procs (processes_in self.old) pid) (residents_in self.old) }
    {
        if let Some(process) = self.processes.get(pid) {
            let awake = Proc {
                asleep: false,
                ..*process
            };
            self.set_process(awake);
        }
    }

    // A child of a process that ends vanishes where it is a zombie, and else has no parent.
    fn leave_parent(&mut self, child: u32, parent: u32)
        requires { IsSome (find child self.old.processes) }
        ensures record { Changes self.old.processes self.new.processes child (left_in parent (find child self.old.processes)) }
        ensures sound { IsProcTable self.new.processes }
        ensures rest { self.new ≡ record self.old { processes = self.new.processes } }
    {
        let process = self.process(child);
        if process.parent != parent {
            return;
        }
        if let Life::Zombie(_) = process.state {
            take_out(&mut self.processes, child);
        } else {
            self.set_process(Proc {
                parent: 0,
                ..process
            });
        }
    }

    // Each child of a process that ends leaves it.
    fn leave_children(&mut self, pid: u32)
        requires { AreRecords self.old.processes self.old.next_pid }
        ensures { LeftChildren self.old self.new pid }
    {
        let mut last = 0;
        while let Some(child) = self.processes.next_after(last) {
            self.leave_parent(child, pid);
            last = child;
        }
    }

    // A process has ended: it is a zombie, or gone where no parent can wait for it.
    fn bury(&mut self, process: Proc, status: u32)
        requires records { AreRecords self.old.processes self.old.next_pid }
        requires there { IsSome (find process.pid self.old.processes) }
        requires alone { (was : Record) → find process.pid self.old.processes ≡ Some was → IsAlone was }
        requires own { process.borrowed ≡ false }
        ensures { IsBuried self.old self.new process status }
    {
        if process.parent == 0 {
            take_out(&mut self.processes, process.pid);
            return;
        }
        self.set_process(Proc {
            state: Life::Zombie(status),
            ..process
        });
        self.wake(process.parent);
    }

    /// A process ends, and leaves its children. Nobody lent it the space that it holds.
    pub fn end_record(&mut self, pid: u32, status: u32)
        requires records { AreRecords self.old.processes self.old.next_pid }
        requires there { IsSome (process_in self.old pid) }
        requires life { HoldsOrNew (life_at self.old pid) }
        requires alone { has_lender (processes_in self.old) pid ≡ false }
        ensures { (p : Process) → process_in self.old pid ≡ Some p → HasEnded self.old self.new p status }
    {
        let process = self.process(pid);
        self.leave_children(pid);
        self.bury(process, status);
    }

    // One process lends its space to another, which has none yet.
    fn lend(&mut self, sid: u32, lender: Proc, borrower: Proc)
        requires lender { find lender.pid self.old.processes ≡ Some lender }
        requires borrower { find borrower.pid self.old.processes ≡ Some borrower }
        requires apart { lender.pid ≢ borrower.pid }
        ensures { HasPassed self.old self.new lender.pid borrower.pid (record lender { state = lives.Lends sid borrower.pid })
            (record borrower { state = lives.Holds sid; borrowed = true }) }
    {
        self.set_process(Proc {
            state: Life::Lends {
                sid,
                child: borrower.pid,
            },
            ..lender
        });
        self.set_process(Proc {
            state: Life::Holds(sid),
            borrowed: true,
            ..borrower
        });
    }

    // The space that was lent goes back.
    fn give_back(&mut self, sid: u32, borrower: Proc, lender: Proc)
        requires borrower { find borrower.pid self.old.processes ≡ Some borrower }
        requires lender { find lender.pid self.old.processes ≡ Some lender }
        requires apart { borrower.pid ≢ lender.pid }
        ensures { HasPassed self.old self.new borrower.pid lender.pid (record borrower { state = lives.New; borrowed = false })
            (record lender { state = lives.Holds sid }) }
    {
        self.set_process(Proc {
            state: Life::New,
            borrowed: false,
            ..borrower
        });
        self.set_process(Proc {
            state: Life::Holds(sid),
            ..lender
        });
    }

    /// The space of one process moves to another: one that has none, to which it is lent, or its lender.
    pub fn pass(&mut self, from: u32, to: u32)
        requires records { AreRecords self.old.processes self.old.next_pid }
        requires may { MayPass (life_at self.old from) (life_at self.old to) from }
        requires there { are_alive (processes_in self.old) to ≡ true }
        ensures { HasProcesses self.old self.new self.old.next_pid (passed_procs (processes_in self.old) from to) (residents_in self.old) }
    {
        let (giver, taker) = (self.process(from), self.process(to));
        let Life::Holds(sid) = giver.state else {
            unreachable!()
        };
        match taker.state {
            Life::New => self.lend(sid, giver, taker),
            Life::Lends { .. } => self.give_back(sid, giver, taker),
            Life::Holds(_) | Life::Zombie(_) => unreachable!(),
        }
    }
}
