//! Sums and extremes over what is noted of a run, kept in tables by number as the notes come.
ghost use Rattle.std.specs.Prelude.{◌≡◌, ◌+◌, ◌≤◌, ◌<◌, ◌^◌, ℕ, [], if◌then◌else◌, IfOk, OnOk};
ghost use Rattle.process_counts.specs.declared.amounts.Owner.{Owner as AnyOwner};
ghost use Rattle.run_stats.specs.declared.heads.PagingHead.{PagingHead as AnyPagingHead};
ghost use Rattle.run_stats.specs.declared.heads.RunHead.{RunHead as AnyRunHead};
ghost use Rattle.run_stats.specs.declared.heads.Head.{Head as AnyHead};
ghost use Rattle.run_stats.specs.declared.heads.Head.TheVariants.{OfRunner};
ghost use Rattle.run_stats.specs.declared.look.Look.{Look as Looked};
ghost use Rattle.run_stats.specs.Amounts.{is_same_owner, pages_written, run_amount, head_amount, larger, smaller};
ghost use Rattle.run_stats.specs.Sums.{paging_table, paging_sum, written_sum, run_sum, sum_in, Tallies};

use crate::heads::{PagingHead, RunHead, paging_amount, run_amount};
use crate::look::{Flight, Look};
use crate::noting::{Note, What};
use process_counts::{Owner, add_at, count_at};
use std::alloc::{AllocError, Global};

/// What is counted of the pages that come, under each head by the number of the process that runs; 0 for while none does.
#[derive(Debug, Drop)]
pub struct PagingSums {
    pub zero_fills: Vec<u128>,
    pub file_reads: Vec<u128>,
    pub file_pages: Vec<u128>,
    pub swap_reads: Vec<u128>,
    pub swap_pages: Vec<u128>,
    pub reclaims: Vec<u128>,
    pub copies: Vec<u128>,
}

/// The pages that were written to swap, by the number of their space or image.
#[derive(Debug, Drop)]
pub struct WrittenSums {
    pub spaces: Vec<u128>,
    pub images: Vec<u128>,
}

/// What is counted of the whole run.
#[derive(Clone, Copy, Debug, PartialEq, Eq, Drop)]
pub struct RunSums {
    pub hand_moves: u128,
    pub made_invalid: u128,
    pub freed_clean: u128,
    pub hand_writes: u128,
    pub reclaimed_between: u128,
    pub file_transfers: u128,
    pub swap_transfers_in: u128,
    pub swap_transfers_out: u128,
    pub swap_requests: u128,
}

/// What the entries so far add under each head, the most blocks of swap that were held, and the fewest frames that were free.
#[derive(Debug, Drop)]
pub struct Tally {
    pub paging: PagingSums,
    pub written: WrittenSums,
    pub run: RunSums,
    pub most_held: u128,
    pub least_free: u32,
}

// Adds what comes by an entry while a process runs, or none does.
fn add_paging(sums: &mut PagingSums, note: &Note) -> Result<(), AllocError>
    requires { (pid : ℕ) (head : AnyPagingHead) → paging_sum sums.old pid head + 2 ^ 64 ≤ 2 ^ 128 }
    ensures value { OnOk result ((pid : ℕ) (head : AnyPagingHead)
        → paging_sum sums.new pid head ≡ paging_sum sums.old pid head + head_amount (OfRunner pid head) note.now) }
    ensures grows { OnOk result ((pid : ℕ) (head : AnyPagingHead) → paging_sum sums.new pid head < paging_sum sums.old pid head + 2 ^ 64) }
{
    let runner = note.after.runner;
    add_at(
        &mut sums.zero_fills,
        runner,
        paging_amount(PagingHead::ZeroFills, note),
    )?;
    add_at(
        &mut sums.file_reads,
        runner,
        paging_amount(PagingHead::FileReads, note),
    )?;
    add_at(
        &mut sums.file_pages,
        runner,
        paging_amount(PagingHead::FilePages, note),
    )?;
    add_at(
        &mut sums.swap_reads,
        runner,
        paging_amount(PagingHead::SwapReads, note),
    )?;
    add_at(
        &mut sums.swap_pages,
        runner,
        paging_amount(PagingHead::SwapPages, note),
    )?;
    add_at(
        &mut sums.reclaims,
        runner,
        paging_amount(PagingHead::Reclaims, note),
    )?;
    add_at(
        &mut sums.copies,
        runner,
        paging_amount(PagingHead::Copies, note),
    )?;
    Ok(())
}

// Adds pages of an owner that were written.
fn add_pages(sums: &mut WrittenSums, owner: Owner, pages: u64) -> Result<(), AllocError>
    requires { (other : AnyOwner) → written_sum sums.old other + 2 ^ 64 ≤ 2 ^ 128 }
    ensures value { OnOk result ((other : AnyOwner)
        → written_sum sums.new other ≡ written_sum sums.old other + (if is_same_owner owner other then pages else 0)) }
    ensures grows { OnOk result ((other : AnyOwner) → written_sum sums.new other < written_sum sums.old other + 2 ^ 64) }
{
    match owner {
        Owner::Space(sid) => add_at(&mut sums.spaces, sid, pages),
        Owner::Image(image) => add_at(&mut sums.images, image, pages),
    }
}

// Adds the pages of the transfer that an entry ends, where they were written.
fn add_written(sums: &mut WrittenSums, what: What, oldest: Flight) -> Result<(), AllocError>
    requires { (owner : AnyOwner) → written_sum sums.old owner + 2 ^ 64 ≤ 2 ^ 128 }
    ensures value { OnOk result ((owner : AnyOwner) → written_sum sums.new owner ≡ written_sum sums.old owner + pages_written owner what oldest) }
    ensures grows { OnOk result ((owner : AnyOwner) → written_sum sums.new owner < written_sum sums.old owner + 2 ^ 64) }
{
    match (what, oldest) {
        (What::Ended, Flight::ToSwap(owner, pages)) => add_pages(sums, owner, pages),
        _ => Ok(()),
    }
}

// Adds what an entry adds under the heads of the whole run.
fn add_run(sums: RunSums, note: &Note) -> RunSums
    requires { (head : AnyRunHead) → run_sum sums head + 2 ^ 64 ≤ 2 ^ 128 }
    ensures value { (head : AnyRunHead) → run_sum result head ≡ run_sum sums head + run_amount head note.now }
    ensures grows { (head : AnyRunHead) → run_sum result head < run_sum sums head + 2 ^ 64 }
{
    RunSums {
        hand_moves: sums.hand_moves + u128::from(run_amount(RunHead::HandMoves, note)),
        made_invalid: sums.made_invalid + u128::from(run_amount(RunHead::MadeInvalid, note)),
        freed_clean: sums.freed_clean + u128::from(run_amount(RunHead::FreedClean, note)),
        hand_writes: sums.hand_writes + u128::from(run_amount(RunHead::HandWrites, note)),
        reclaimed_between: sums.reclaimed_between
            + u128::from(run_amount(RunHead::ReclaimedBetween, note)),
        file_transfers: sums.file_transfers + u128::from(run_amount(RunHead::FileTransfers, note)),
        swap_transfers_in: sums.swap_transfers_in
            + u128::from(run_amount(RunHead::SwapTransfersIn, note)),
        swap_transfers_out: sums.swap_transfers_out
            + u128::from(run_amount(RunHead::SwapTransfersOut, note)),
        swap_requests: sums.swap_requests + u128::from(run_amount(RunHead::SwapRequests, note)),
    }
}

fn larger(a: u128, b: u128) -> u128
    ensures { result ≡ larger a b }
{
    if a < b { b } else { a }
}

fn smaller(a: u32, b: u32) -> u32
    ensures { result ≡ smaller a b }
{
    if b < a { b } else { a }
}

impl PagingSums {
    fn new(alloc: Global) -> PagingSums
        ensures { (pid : ℕ) (head : AnyPagingHead) → paging_sum result pid head ≡ 0 }
    {
        PagingSums {
            zero_fills: Vec::new(alloc),
            file_reads: Vec::new(alloc),
            file_pages: Vec::new(alloc),
            swap_reads: Vec::new(alloc),
            swap_pages: Vec::new(alloc),
            reclaims: Vec::new(alloc),
            copies: Vec::new(alloc),
        }
    }

    // The table of a head.
    fn table(&self, head: PagingHead) -> &[u128]
        ensures { result.now ≡ paging_table head self.now }
    {
        match head {
            PagingHead::ZeroFills => self.zero_fills.as_slice(),
            PagingHead::FileReads => self.file_reads.as_slice(),
            PagingHead::FilePages => self.file_pages.as_slice(),
            PagingHead::SwapReads => self.swap_reads.as_slice(),
            PagingHead::SwapPages => self.swap_pages.as_slice(),
            PagingHead::Reclaims => self.reclaims.as_slice(),
            PagingHead::Copies => self.copies.as_slice(),
        }
    }

    // What came while the process of this number ran, under a head.
    pub(crate) fn of(&self, pid: u32, head: PagingHead) -> u128
        ensures { result ≡ paging_sum self.now pid head }
    {
        count_at(self.table(head), pid)
    }
}

impl WrittenSums {
    fn new(alloc: Global) -> WrittenSums
        ensures { (owner : AnyOwner) → written_sum result owner ≡ 0 }
    {
        WrittenSums {
            spaces: Vec::new(alloc),
            images: Vec::new(alloc),
        }
    }

    // The pages of an owner.
    pub(crate) fn of(&self, owner: Owner) -> u128
        ensures { result ≡ written_sum self.now owner }
    {
        match owner {
            Owner::Space(sid) => count_at(self.spaces.as_slice(), sid),
            Owner::Image(image) => count_at(self.images.as_slice(), image),
        }
    }
}

impl RunSums {
    fn new() -> RunSums
        ensures { (head : AnyRunHead) → run_sum result head ≡ 0 }
    {
        RunSums {
            hand_moves: 0,
            made_invalid: 0,
            freed_clean: 0,
            hand_writes: 0,
            reclaimed_between: 0,
            file_transfers: 0,
            swap_transfers_in: 0,
            swap_transfers_out: 0,
            swap_requests: 0,
        }
    }

    // The sum under a head.
    pub(crate) fn of(&self, head: RunHead) -> u128
        ensures { result ≡ run_sum self.now head }
    {
        match head {
            RunHead::HandMoves => self.hand_moves,
            RunHead::MadeInvalid => self.made_invalid,
            RunHead::FreedClean => self.freed_clean,
            RunHead::HandWrites => self.hand_writes,
            RunHead::ReclaimedBetween => self.reclaimed_between,
            RunHead::FileTransfers => self.file_transfers,
            RunHead::SwapTransfersIn => self.swap_transfers_in,
            RunHead::SwapTransfersOut => self.swap_transfers_out,
            RunHead::SwapRequests => self.swap_requests,
        }
    }
}

impl Tally {
    /// The tally of no entry, where this is looked at first.
    pub fn new(alloc: Global, first: &Look) -> Tally
        ensures { Tallies result first.now [] }
    {
        Tally {
            paging: PagingSums::new(alloc),
            written: WrittenSums::new(alloc),
            run: RunSums::new(),
            most_held: first.held,
            least_free: first.free,
        }
    }

    /// Adds what is noted of one entry more. The one error is that no memory is left.
    pub fn add(&mut self, note: &Note) -> Result<(), AllocError>
        requires { (head : AnyHead) → sum_in self.old head + 2 ^ 64 ≤ 2 ^ 128 }
        ensures value { OnOk result ((head : AnyHead) → sum_in self.new head ≡ sum_in self.old head + head_amount head note.now) }
        ensures grows { OnOk result ((head : AnyHead) → sum_in self.new head < sum_in self.old head + 2 ^ 64) }
        ensures most { OnOk result (self.new.most_held ≡ larger self.old.most_held note.now.after.held) }
        ensures least { OnOk result (self.new.least_free ≡ smaller self.old.least_free note.now.after.free) }
    {
        add_paging(&mut self.paging, note)?;
        add_written(&mut self.written, note.what, note.before.oldest)?;
        self.run = add_run(self.run, note);
        self.most_held = larger(self.most_held, note.after.held);
        self.least_free = smaller(self.least_free, note.after.free);
        Ok(())
    }
}

/// The tally of all that is noted of a run, by what is looked at before its first entry. It takes one walk of the notes.
pub(crate) fn tally_of(alloc: Global, first: &Look, notes: &[Note]) -> Result<Tally, AllocError>
    ensures { IfOk result (λ tally. Tallies tally first.now notes.now) }
{
    let mut tally = Tally::new(alloc, first);
    for note in notes {
        tally.add(note)?;
    }
    Ok(tally)
}
