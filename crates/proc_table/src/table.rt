//! The records by pid, in a slab whose keys nobody else sees. No pid may stand twice, and a full table hands the
//! record back. Nothing is known here of parents and children.
ghost use Rattle.std.specs.Prelude.{◌≡◌, ◌≢◌, ℕ, ◌+◌, ◌<◌, [], length, Some, None, is_some, IsSome, IsTrue, false, IfOk, IfSome, IfNone, OnSome, option_copied};
ghost use Rattle.slab.specs.Slab.{get as slot_at};
ghost use Rattle.proc_table.specs.Records.{find, answer_of, Adds, Changes, Lowest, IsProcTable};
ghost use Rattle.proc_table.specs.Fields.{HasPid, lower_of};
ghost use Rattle.proc_table.specs.declared.process.Proc.{Proc as Record};

use crate::process::Proc;
use slab::Slab;
use std::alloc::Global;
use std::marker::Model;
use vm_facts::NoMemory;

/// How many records there is room for.
const ROOM: usize = 64;

/// What `add` answers.
#[derive(Clone, Copy, Debug, PartialEq, Eq, Drop)]
pub enum Added {
    /// The record is in the table.
    Ok,
    /// There are 64 records already, and here is the one that found no place.
    Full(Proc),
}

/// The records of all processes. Contracts see the list of the records, in no promised order, and by `find`
/// a finite map from pids to records.
#[derive(Drop)]
pub struct ProcTable {
    records: Slab<Proc>,

    // The key of the record that was put last, which is looked at before the others.
    near: usize,
}

impl Model for ProcTable {
    ghost use Rattle.std.specs.Prelude.{List};
    ghost use Rattle.proc_table.specs.declared.process.Proc.{Proc as Record};

    ghost Value = { List Record };

    ghost use Rattle.proc_table.specs.Fields.{records_of, IsSound};

    ghost view = { λ t. records_of t.records.slots };

    ghost invariant = { λ t. IsSound t.records };
}

impl ProcTable {
    /// A table with no record, and room for 64.
    pub fn new(alloc: Global) -> Result<ProcTable, NoMemory>
        ensures { IfOk result (λ t. t ≡ []) }
    {
        let records = Slab::with_capacity(alloc, ROOM)?;
        Ok(ProcTable { records, near: 0 })
    }

    /// How many records there are, at most 64.
    pub fn len(&self) -> usize
        ensures { result ≡ length self.now }
    {
        self.records.len()
    }

    /// Puts in the record of a process that has none. `Full` comes exactly where there are 64 records, and
    /// then nothing changes.
    pub fn add(&mut self, p: Proc) -> Added
        requires { find p.pid self.old ≡ None }
        ensures answer { result ≡ answer_of self.old p }
        ensures records { Adds result self.old p self.new }
        ensures sound { IsProcTable self.new }
    {
        if self.records.len() == ROOM {
            return Added::Full(p);
        }
        self.records.insert_reserved(p);
        Added::Ok
    }

    /// The record with this pid; None exactly where there is none.
    pub fn get(&self, pid: u32) -> Option<&Proc>
        ensures value { option_copied result ≡ find pid self.now }
        ensures sound { IsProcTable self.now }
    {
        let key = key_near(&self.records, self.near, pid)?;
        self.records.get(key)
    }

    /// Takes out the record with this pid; None exactly where there is none, and then nothing changes.
    pub fn remove(&mut self, pid: u32) -> Option<Proc>
        ensures value { result ≡ find pid self.old }
        ensures records { Changes self.old self.new pid None }
        ensures count { OnSome result (length self.new + 1 ≡ length self.old) }
        ensures none { IfNone result (self.new ≡ self.old) }
        ensures sound { IsProcTable self.new }
    {
        let key = key_near(&self.records, self.near, pid)?;
        Some(self.records.remove(key))
    }

    /// Puts a record in the place of the one with its pid. False comes exactly where there is none, and then
    /// nothing changes.
    pub fn set(&mut self, p: Proc) -> bool
        ensures answer { result ≡ is_some (find p.pid self.old) }
        ensures records { IsTrue result → Changes self.old self.new p.pid (Some p) }
        ensures absent { result ≡ false → self.new ≡ self.old }
        ensures count { length self.new ≡ length self.old }
        ensures sound { IsProcTable self.new }
    {
        let Some(key) = key_near(&self.records, self.near, p.pid) else {
            return false;
        };
        self.near = key;
        self.records[key] = p;
        true
    }

    /// The lowest pid of a record above this one; None exactly where there is none.
    pub fn next_after(&self, pid: u32) -> Option<u32>
        ensures { Lowest (λ q. (pid < q) × IsSome (find q self.now)) result }
    {
        let mut lowest = None;
        for (_key, record) in self.records.iter() {
            if record.pid > pid {
                lowest = Some(lower(lowest, record.pid));
            }
        }
        lowest
    }
}

/// Whether the record under a key is there and has this pid.
fn has_pid(records: &Slab<Proc>, key: usize, pid: u32) -> bool
    ensures { IsTrue result → HasPid records.now key pid }
{
    match records.get(key) {
        Some(record) => record.pid == pid,
        None => false,
    }
}

/// The key under which the record with this pid stands, which is looked for under one key first.
fn key_near(records: &Slab<Proc>, near: usize, pid: u32) -> Option<usize>
    ensures found { IfSome result (λ key. HasPid records.now key pid) }
    ensures absent { IfNone result ((key : ℕ) (p : Record) → slot_at records.now key ≡ Some p → p.pid ≢ pid) }
{
    if has_pid(records, near, pid) {
        return Some(near);
    }
    key_of(records, pid)
}

/// The key under which the record with this pid stands.
fn key_of(records: &Slab<Proc>, pid: u32) -> Option<usize>
    ensures found { IfSome result (λ key. HasPid records.now key pid) }
    ensures absent { IfNone result ((key : ℕ) (p : Record) → slot_at records.now key ≡ Some p → p.pid ≢ pid) }
{
    for (key, record) in records.iter() {
        if record.pid == pid {
            return Some(key);
        }
    }
    None
}

/// The lower of two pids, or the second alone where there is no first.
fn lower(lowest: Option<u32>, pid: u32) -> u32
    ensures { result ≡ lower_of lowest pid }
{
    match lowest {
        Some(other) => other.min(pid),
        None => pid,
    }
}
