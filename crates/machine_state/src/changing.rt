//! Entries of processes, and entries that change nothing. What a change wants of swap must have been asked for, and a
//! space that loses pages must have settled.
ghost use Rattle.machine_state.specs.Going.{CanGoOn, IsRunning};
ghost use Rattle.machine_state.specs.Performing.{IsAtBound, Performs, StopsForRoom};
ghost use Rattle.std.specs.Prelude.{◌≡◌, ℕ, ◌+◌, ◌<◌, ◌≤◌, ◌^◌, ◌∷◌, ◌++◌, [], List, true, false, length, Some, None, IsSome, IfOk, OnOk, Ok};
ghost use Rattle.vm_facts.specs.declared.entry.Entry.{Entry as Line};
ghost use Rattle.vm_facts.specs.declared.entry.Entry.TheVariants.{Ran};
ghost use Rattle.flat_state.specs.declared.change.Change.TheVariants.{Keep};
ghost use Rattle.kernel_model.specs.Kernel.{note_step};
ghost use Rattle.kernel_model.specs.ChangeStep.{change_step, pass_step, ran_by};
ghost use Rattle.kernel_model.specs.Sound.{lives};
ghost use Rattle.table_steps.specs.Applying.{CanApply, ChangesWhole, MayPass, facts_named};
ghost use Rattle.table_steps.specs.Calls.{IsNote, life_in};
ghost use Rattle.table_steps.specs.Conditions.{ChangesFlat, SameEverywhere};
ghost use Rattle.table_steps.specs.Joined.{instructions_in, last_says, IsFullFor};
ghost use Rattle.table_steps.specs.UserMemory.{CanLend};

use crate::machine::Machine;
use flat_state::Change;
use table_steps::{applying, joining, notes};
use vm_facts::{Entry, Regs, Stop};

impl Machine {
    /// Appends an entry that changes nothing: `Event`, `Turn` or `Owners`.
    pub fn note(&mut self, e: Entry) -> Result<(), Stop>
        requires ready { CanGoOn self.old }
        requires note { IsNote e }
        ensures performs { Performs (note_step self.old.kernel e) SameEverywhere result self.old self.new }
        ensures stops { StopsForRoom (IsAtBound self.old) result self.old self.new }
    {
        notes::make_room(
            &mut self.journal,
            &mut self.room,
            self.tables.params.journal,
        )?;
        self.journal.push_reserved(e);
        Ok(())
    }

    /// The journal may have so many entries from here on, which are no fewer than before.
    pub fn widen(&mut self, entries: u32)
        requires ready { CanGoOn self.old }
        requires more { self.old.params.journal ≤ entries }
        ensures step { self.new ≡ record self.old { params = record self.old.params { journal = entries } } }
        ensures goes_on { CanGoOn self.new }
    {
        self.tables.params.journal = entries;
    }

    /// Makes room for one more entry, and changes nothing else.
    pub fn make_room(&mut self) -> Result<(), Stop>
        requires ready { CanGoOn self.old }
        ensures ok { OnOk result (self.new ≡ self.old) }
        ensures has_room { OnOk result (length self.old.kernel.journal < self.old.params.journal) }
        ensures stops { StopsForRoom (IsAtBound self.old) result self.old self.new }
        ensures goes_on { OnOk result (CanGoOn self.new) }
    {
        let room = self.room;
        notes::make_room(
            &mut self.journal,
            &mut self.room,
            self.tables.params.journal,
        )?;
        self.room = room;
        Ok(())
    }

    /// Makes room for one more instruction of a process, and appends no entry.
    pub fn room(&mut self, pid: u32) -> Result<(), Stop>
        requires ready { CanGoOn self.old }
        ensures ok { OnOk result (self.new ≡ record self.old { room = Some pid }) }
        ensures stops { StopsForRoom (IsFullFor self.old.kernel.journal self.old.params.journal (Ran pid 1)) result self.old self.new }
        ensures goes_on { OnOk result (CanGoOn self.new) }
    {
        joining::make_room_to_run(
            &mut self.journal,
            &mut self.room,
            self.tables.params.journal,
            pid,
        )?;
        self.room = Some(pid);
        Ok(())
    }

    /// The step of `Ran`: one more instruction of a process is counted, which leaves these registers. Its writes were
    /// made before.
    pub fn ran(&mut self, pid: u32, regs: &Regs)
        requires ready { CanGoOn self.old }
        requires can { CanLend self.old.kernel pid }
        requires room { self.old.room ≡ Some pid }
        requires fits { (count : ℕ) (before : List Line) → self.old.kernel.journal ≡ before ++ Ran pid count ∷ [] → count + 1 < 2 ^ 32 }
        ensures step { self.new.kernel ≡ ran_by self.old.kernel pid regs.now (Ran pid 1) }
        ensures rest { self.new ≡ record self.old { kernel = self.new.kernel; room = None } }
        ensures keeps { ChangesFlat self.old.kernel self.new.kernel pid regs.now Keep }
        ensures goes_on { CanGoOn self.new }
    {
        self.room = None;
        self.tables.set_regs(pid, regs);
        joining::add_instruction(&mut self.journal, pid);
    }

    /// The steps of `Ran`, one after another: so many further instructions of a process are counted in its last entry, which
    /// counts such, and the last of them leaves these registers. Their writes were made before.
    pub fn ran_on(&mut self, pid: u32, regs: &Regs, more: u32)
        requires ready { CanGoOn self.old }
        requires can { CanLend self.old.kernel pid }
        requires counts { IsSome (last_says (instructions_in pid) self.old.kernel.journal) }
        requires fits { (count : ℕ) (before : List Line) → self.old.kernel.journal ≡ before ++ Ran pid count ∷ [] → count + more < 2 ^ 32 }
        ensures step { self.new.kernel ≡ ran_by self.old.kernel pid regs.now (Ran pid more) }
        ensures rest { self.new ≡ record self.old { kernel = self.new.kernel; room = None } }
        ensures goes_on { CanGoOn self.new }
    {
        self.room = None;
        self.tables.set_regs(pid, regs);
        joining::add_instructions(&mut self.journal, pid, more);
    }

    /// The step of an entry of a process, `Out`, `Grew`, `Call`, `Sleeps` or `Ended`, which leaves these registers and makes a
    /// change. The pieces that it takes were found by `ask`. After `Lend` the child has no space until one passes to it.
    pub fn flat(&mut self, pid: u32, regs: &Regs, e: Entry, change: Change) -> Result<(), Stop>
        requires running { IsRunning self.old }
        requires can { CanApply self.old pid e change }
        ensures step { OnOk result (self.new.kernel ≡ change_step (facts_named self.old.images) self.old.kernel pid regs.now e change) }
        ensures rest { OnOk result (self.new ≡ record self.old { kernel = self.new.kernel; before = self.new.kernel.holdings; room = None }) }
        ensures keeps { OnOk result (ChangesWhole self.old self.new pid regs.now change) }
        ensures stops { StopsForRoom (IsAtBound self.old) result self.old self.new }
        ensures goes_on { OnOk result (CanGoOn self.new) }
    {
        notes::make_room(
            &mut self.journal,
            &mut self.room,
            self.tables.params.journal,
        )?;
        self.tables.core.stands();
        self.tables.set_regs(pid, regs);
        let since = self.journal.len() as u32 + 1;
        let applied = applying::apply(&mut self.tables, self.alloc, pid, change, since);
        notes::or_break_off(&mut self.stopped, applied)?;
        self.tables.found = 0;
        self.journal.push_reserved(e);
        Ok(())
    }

    /// The space of one process moves to another: one that has none, to which it is lent, or its lender. It appends no
    /// entry.
    pub fn pass(&mut self, from: u32, to: u32)
        requires running { IsRunning self.old }
        requires may { MayPass (life_in self.old.kernel from) (life_in self.old.kernel to) from }
        requires there { lives self.old.kernel.processes to ≡ true }
        ensures step { self.new ≡ record self.old { kernel = pass_step self.old.kernel from to } }
        ensures running { IsRunning self.new }
    {
        self.tables.pass(from, to);
    }
}
