//! What the processes of a run did, in one walk of its journal.
ghost use Rattle.std.specs.Prelude.{◌≡◌, ◌+◌, ◌<◌, ◌≤◌, ◌^◌, ℕ, IfOk, OnOk};
ghost use Rattle.process_counts.specs.declared.amounts.ProcessHead.{ProcessHead as AnyHead};
ghost use Rattle.process_counts.specs.Counts.{amount, total};
ghost use Rattle.process_counts.specs.Tables.{table_of, deed_of};

use crate::amounts::{
    ProcessHead, calls, growths, instructions, output_length, process_of, refusals, times_in,
    times_out, waits,
};
use crate::tables::{add_at, count_at};
use std::alloc::{AllocError, Global};
use vm_facts::Entry;

/// What the processes of a run did: under each head a table by their numbers, in which a count behind the end is 0.
#[derive(Debug, Drop)]
pub struct Deeds {
    pub instructions: Vec<u128>,
    pub bytes_out: Vec<u128>,
    pub calls: Vec<u128>,
    pub growths: Vec<u128>,
    pub refusals: Vec<u128>,
    pub waits: Vec<u128>,
    pub times_out: Vec<u128>,
    pub times_in: Vec<u128>,
}

fn no_deeds(alloc: Global) -> Deeds
    ensures { (pid : ℕ) (head : AnyHead) → deed_of result pid head ≡ 0 }
{
    Deeds {
        instructions: Vec::new(alloc),
        bytes_out: Vec::new(alloc),
        calls: Vec::new(alloc),
        growths: Vec::new(alloc),
        refusals: Vec::new(alloc),
        waits: Vec::new(alloc),
        times_out: Vec::new(alloc),
        times_in: Vec::new(alloc),
    }
}

// Adds what an entry says of its process.
fn add_entry(deeds: &mut Deeds, entry: &Entry) -> Result<(), AllocError>
    requires { (pid : ℕ) (head : AnyHead) → deed_of deeds.old pid head + 2 ^ 64 ≤ 2 ^ 128 }
    ensures value { OnOk result ((pid : ℕ) (head : AnyHead)
        → deed_of deeds.new pid head ≡ deed_of deeds.old pid head + amount pid head entry.now) }
    ensures grows { OnOk result ((pid : ℕ) (head : AnyHead) → deed_of deeds.new pid head < deed_of deeds.old pid head + 2 ^ 64) }
{
    let pid = process_of(entry);
    add_at(&mut deeds.instructions, pid, instructions(entry))?;
    add_at(&mut deeds.bytes_out, pid, output_length(entry))?;
    add_at(&mut deeds.calls, pid, calls(entry))?;
    add_at(&mut deeds.growths, pid, growths(entry))?;
    add_at(&mut deeds.refusals, pid, refusals(entry))?;
    add_at(&mut deeds.waits, pid, waits(entry))?;
    add_at(&mut deeds.times_out, pid, times_out(entry))?;
    add_at(&mut deeds.times_in, pid, times_in(entry))?;
    Ok(())
}

/// What the processes of the run did that has this journal. It takes one walk of the journal. The one error is that no memory is left.
pub fn deeds_of(alloc: Global, journal: &[Entry]) -> Result<Deeds, AllocError>
    ensures { IfOk result (λ deeds. (pid : ℕ) (head : AnyHead) → deed_of deeds pid head ≡ total pid head journal.now) }
{
    let mut deeds = no_deeds(alloc);
    for entry in journal {
        add_entry(&mut deeds, entry)?;
    }
    Ok(deeds)
}

impl Deeds {
    // The table of a head.
    fn table(&self, head: ProcessHead) -> &[u128]
        ensures { result.now ≡ table_of head self.now }
    {
        match head {
            ProcessHead::Instructions => self.instructions.as_slice(),
            ProcessHead::BytesOut => self.bytes_out.as_slice(),
            ProcessHead::Calls => self.calls.as_slice(),
            ProcessHead::Growths => self.growths.as_slice(),
            ProcessHead::Refusals => self.refusals.as_slice(),
            ProcessHead::Waits => self.waits.as_slice(),
            ProcessHead::TimesOut => self.times_out.as_slice(),
            ProcessHead::TimesIn => self.times_in.as_slice(),
        }
    }

    /// What the process of this number did, under a head.
    pub fn of(&self, pid: u32, head: ProcessHead) -> u128
        ensures { result ≡ deed_of self.now pid head }
    {
        count_at(self.table(head), pid)
    }
}
