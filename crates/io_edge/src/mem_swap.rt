//! Swap devices in memory. One never fails; the other fails at numbered calls, and notes what was asked.
ghost use Rattle.std.specs.Prelude.{◌≡◌, ◌+◌, ◌-◌, ◌*◌, ◌%◌, ◌≤◌, ◌↔◌, ◌++◌, ℕ, Some, List, length, IfOk, replicate, refl, vec_capacity};
ghost use Rattle.std.proofs.Common.{◌∙◌, le_refl, le_trans, lit≤};
ghost use Rattle.io_edge.specs.Calls.{ReadsSwap, WritesSwap};
ghost use Rattle.io_edge.specs.Count.{Counts, OnDone, OnFailed};
ghost use Rattle.io_edge.specs.Plan.{FailsNext, IsNewPlan, LaterCalls, NextCall};
ghost use Rattle.io_edge.specs.PlanLaws.{later_itself, later_through};
ghost use Rattle.io_edge.specs.SwapImage.{bytes_told, HoldsPage, ReadsPage, WritesPage, SpoilsPage};
ghost use Rattle.vm_facts.specs.SwapImages.{unnoted};
ghost use Rattle.io_edge.specs.Zeros.{with_zeros, length-with_zeros};
ghost use Rattle.vm_facts.specs.Swap.{blocks_at, put_blocks};
ghost use Rattle.io_edge.specs.Told.{told_length};

use crate::count::{FaultPlan, raised};
use crate::{Moved, NoMemory, SwapDev};
use std::alloc::Global;

// Copies out the two blocks from this place on.
#[tactic(auto, unfolding(vm_facts::specs::Swap::blocks_at))]
fn copy_page(image: &[u8], block: usize, buf: &mut [u8; 1024])
    requires { 512 * (block + 2) ≤ length image.now }
    ensures { buf.new ≡ blocks_at image.now block }
{
    let start = 512 * block;
    buf.copy_from_slice(&image[start..start + 1024]);
}

// Copies in the two blocks from this place on.
#[tactic(auto, unfolding(vm_facts::specs::Swap::put_blocks))]
fn put_blocks(image: &mut [u8], block: usize, bytes: &[u8; 1024])
    requires { 512 * (block + 2) ≤ length image.old }
    ensures { image.new ≡ put_blocks image.old block bytes.now }
{
    let start = 512 * block;
    image[start..start + 1024].copy_from_slice(bytes);
}

fn clear(buf: &mut [u8; 1024])
    ensures { buf.new ≡ replicate 1024 0 }
{
    *buf = [0; 1024];
}

// Fills up with zeros to this length, for which there is room.
fn grow(bytes: &mut Vec<u8>, len: usize)
    requires { len ≤ vec_capacity bytes.old }
    ensures items { bytes.new.items ≡ bytes.old.items ++ replicate (len - length bytes.old.items) 0 }
    ensures capacity { vec_capacity bytes.old ≤ vec_capacity bytes.new }
{
    if bytes.len() < len {
        let _ = bytes.resize(len, 0);
    }
}

/// A swap device in memory that never fails, and notes nothing. It keeps the bytes up to the last page that was written;
/// the memory for all of them is had when it is made.
#[derive(Drop)]
pub struct SureSwap {
    written: Vec<u8>,
    blocks: u32,
    ghost pages: { length written.items % 1024 ≡ 0 },
    ghost within: { length written.items ≤ 512 * blocks },
    ghost room: { 512 * blocks ≤ vec_capacity written },
}

impl SureSwap {
    /// A device of this many blocks of zeros.
    pub fn new(alloc: Global, blocks: u32) -> Result<SureSwap, NoMemory>
        ensures blocks { IfOk result (λ swap. ⟦<SureSwap as SwapDev>⟧.blocks swap ≡ blocks) }
        ensures zeros { IfOk result (λ swap. ⟦<SureSwap as SwapDev>⟧.image swap ≡ Some (unnoted (replicate (512 * blocks) 0))) }
    {
        let written = Vec::with_capacity(alloc, blocks as usize * 512)?;
        Ok(SureSwap { written, blocks })
    }

    // Reads a page; what wasn't written is zeros.
    fn copy_out(&self, block: u32, buf: &mut [u8; 1024])
        requires even { block % 2 ≡ 0 }
        requires inside { block + 2 ≤ self.now.blocks }
        ensures { buf.new ≡ blocks_at (with_zeros (512 * self.now.blocks) self.now.written.items) block }
    {
        if block as usize * 512 < self.written.len() {
            copy_page(&self.written, block as usize, buf);
        } else {
            clear(buf);
        }
    }
}

impl SwapDev for SureSwap {
    ghost image = { λ d. Some (unnoted (with_zeros (512 * d.blocks) d.written.items)) };

    ghost blocks = { λ d. d.blocks };

    ghost read_faults = { λ _. 0 };

    ghost write_faults = { λ _. 0 };

    ghost leads = { λ a b. b.blocks ≡ a.blocks };

    fn blocks(&self) -> u32 {
        self.blocks
    }

    fn read(&mut self, block: u32, buf: &mut [u8; 1024]) -> Moved {
        self.copy_out(block, buf);
        Moved::Done
    }

    fn write(&mut self, block: u32, bytes: &[u8; 1024]) -> Moved {
        grow(&mut self.written, block as usize * 512 + 1024);
        put_blocks(&mut self.written, block as usize, bytes);
        Moved::Done
    }

    ghost whole = { λ d image told. told_length (unnoted (with_zeros (512 * d.blocks) d.written.items)) image (512 * d.blocks) told
        (length-with_zeros (512 * d.blocks) d.written.items d.within) };

    ghost leads_nowhere = { λ _. refl };

    ghost leads_through = { λ _ _ _ first then. then ∙ first };

    ghost blocks_stay = { λ _ _ led. led };

    ghost reads_grow = { λ _ _ _. lit≤ tt };

    ghost writes_grow = { λ _ _ _. lit≤ tt };
}

/// A swap device in memory with calls that are to fail. It notes nothing.
#[derive(Drop)]
pub struct MemSwap {
    store: SureSwap,
    reads: FaultPlan,
    writes: FaultPlan,
    read_faults: u64,
    write_faults: u64,
}

impl MemSwap {
    /// A device of this many blocks of zeros. `fail_reads` and `fail_writes` hold the numbers of the
    /// calls of `read` and of `write` that are to fail, each kind counted from 1. A failing `write`
    /// leaves the device as it was.
    pub fn new(
        alloc: Global,
        blocks: u32,
        fail_reads: Vec<u64>,
        fail_writes: Vec<u64>,
    ) -> Result<MemSwap, NoMemory>
        ensures blocks { IfOk result (λ swap. ⟦<MemSwap as SwapDev>⟧.blocks swap ≡ blocks) }
        ensures zeros { IfOk result (λ swap. ⟦<MemSwap as SwapDev>⟧.image swap ≡ Some (unnoted (replicate (512 * blocks) 0))) }
        ensures read_faults { IfOk result (λ swap. ⟦<MemSwap as SwapDev>⟧.read_faults swap ≡ 0) }
        ensures write_faults { IfOk result (λ swap. ⟦<MemSwap as SwapDev>⟧.write_faults swap ≡ 0) }
        ensures reads { IfOk result (λ swap. IsNewPlan swap.reads fail_reads.items) }
        ensures writes { IfOk result (λ swap. IsNewPlan swap.writes fail_writes.items) }
    {
        Ok(MemSwap {
            store: SureSwap::new(alloc, blocks)?,
            reads: FaultPlan::new(fail_reads),
            writes: FaultPlan::new(fail_writes),
            read_faults: 0,
            write_faults: 0,
        })
    }
}

impl SwapDev for MemSwap {
    ghost image = { λ d. Some (unnoted (with_zeros (512 * d.store.blocks) d.store.written.items)) };

    ghost blocks = { λ d. d.store.blocks };

    ghost read_faults = { λ d. d.read_faults };

    ghost write_faults = { λ d. d.write_faults };

    ghost leads = { λ a b. (b.store.blocks ≡ a.store.blocks) × (a.read_faults ≤ b.read_faults) × (a.write_faults ≤ b.write_faults)
        × LaterCalls a.reads b.reads × LaterCalls a.writes b.writes };

    fn blocks(&self) -> u32 {
        self.store.blocks
    }

    fn read(&mut self, block: u32, buf: &mut [u8; 1024]) -> Moved
        requires even { block % 2 ≡ 0 }
        requires inside { block + 2 ≤ self.old.store.blocks }
        ensures kept { ReadsSwap ⟦<MemSwap as SwapDev>⟧ self.old self.new }
        ensures image { ReadsPage (⟦<MemSwap as SwapDev>⟧.image self.old) block (⟦<MemSwap as SwapDev>⟧.image self.new) }
        ensures done { OnDone result (HoldsPage (bytes_told (⟦<MemSwap as SwapDev>⟧.image self.old)) block buf.new) }
        ensures read_faults { Counts result self.old.read_faults self.new.read_faults }

        // Just the reads whose numbers are listed fail.
        ensures fails { (result ≡ Moved.Failed) ↔ FailsNext self.old.reads }
        ensures reads { NextCall self.old.reads self.new.reads }
        ensures writes { self.new.writes ≡ self.old.writes }
    {
        if self.reads.next_fails() {
            self.read_faults = raised(self.read_faults);
            return Moved::Failed;
        }
        self.store.read(block, buf)
    }

    fn write(&mut self, block: u32, bytes: &[u8; 1024]) -> Moved
        requires even { block % 2 ≡ 0 }
        requires inside { block + 2 ≤ self.old.store.blocks }
        ensures kept { WritesSwap ⟦<MemSwap as SwapDev>⟧ self.old self.new }
        ensures done { OnDone result (WritesPage (⟦<MemSwap as SwapDev>⟧.image self.old) block bytes.now (⟦<MemSwap as SwapDev>⟧.image self.new)) }
        ensures failed { OnFailed result (SpoilsPage (⟦<MemSwap as SwapDev>⟧.image self.old) block (⟦<MemSwap as SwapDev>⟧.image self.new)) }
        ensures write_faults { Counts result self.old.write_faults self.new.write_faults }

        // Just the writes whose numbers are listed fail, and a failed one changes no block.
        ensures fails { (result ≡ Moved.Failed) ↔ FailsNext self.old.writes }
        ensures unchanged { OnFailed result (⟦<MemSwap as SwapDev>⟧.image self.new ≡ ⟦<MemSwap as SwapDev>⟧.image self.old) }
        ensures reads { self.new.reads ≡ self.old.reads }
        ensures writes { NextCall self.old.writes self.new.writes }
    {
        if self.writes.next_fails() {
            self.write_faults = raised(self.write_faults);
            return Moved::Failed;
        }
        self.store.write(block, bytes)
    }

    ghost whole = { λ d image told. told_length (unnoted (with_zeros (512 * d.store.blocks) d.store.written.items)) image (512 * d.store.blocks) told
        (length-with_zeros (512 * d.store.blocks) d.store.written.items d.store.within) };

    ghost leads_nowhere = { λ d. (refl, le_refl d.read_faults, le_refl d.write_faults, later_itself d.reads, later_itself d.writes) };

    ghost leads_through = { λ a b c first then. (
      then.0 ∙ first.0,
      le_trans first.1 then.1,
      le_trans first.2 then.2,
      later_through a.reads b.reads c.reads first.3 then.3,
      later_through a.writes b.writes c.writes first.4 then.4,
    ) };

    ghost blocks_stay = { λ _ _ led. led.0 };

    ghost reads_grow = { λ _ _ led. led.1 };

    ghost writes_grow = { λ _ _ led. led.2 };
}
