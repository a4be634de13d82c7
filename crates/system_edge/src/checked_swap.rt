//! A swap device that is checked: each page that is read is compared with the one of a copy.
ghost use Rattle.std.specs.Prelude.{◌≡◌, ◌*◌, ◌+◌, ◌%◌, ◌≤◌, Some, IfOk, length, replicate};
ghost use Rattle.std.proofs.Common.{le_refl, le_trans};
ghost use Rattle.io_edge.specs.Count.{OnDone, OnFailed};
ghost use Rattle.io_edge.specs.SwapRuns.{WritesPages, SpoilsPages};
ghost use Rattle.vm_facts.specs.SwapImages.{unnoted};

use crate::{FileSwap, Refusal};
use io_edge::{Moved, NoMemory, SureSwap, SwapDev, raised};
use std::alloc::Global;
use std::io;
use std::io::ErrorKind;
use system_calls::System;

/// A device and a copy of it, to which each page is written too. A page that is read is compared with that of the copy, and
/// another one is a failed read. It tells what the copy tells, whatever the device tells.
#[derive(Drop)]
pub struct CheckedSwap<D: SwapDev + Drop, C: SwapDev + Drop> {
    device: D,
    copy: C,
    came_other: bool,
    read_faults: u64,
    write_faults: u64,
    ghost same: { D.blocks device ≡ C.blocks copy },
}

// Writes pages that lie together to a copy, the first into the two blocks from this one on, up to the first that fails.
fn copy_pages<C: SwapDev>(copy: &mut C, block: u32, pages: &[[u8; 1024]]) -> Moved
    requires even { block % 2 ≡ 0 }
    requires inside { block + 2 * length pages.now ≤ C.blocks copy.old }
    ensures leads { C.leads copy.old copy.new }
    ensures blocks { C.blocks copy.new ≡ C.blocks copy.old }
    ensures done { OnDone result (WritesPages (C.image copy.old) block pages.now (C.image copy.new)) }
    ensures failed { OnFailed result (SpoilsPages (C.image copy.old) block pages.now (C.image copy.new)) }
{
    let _blocks = copy.blocks();
    match pages.split_first() {
        None => Moved::Done,
        Some((first, rest)) => match copy.write(block, first) {
            Moved::Done => copy_pages(copy, block + 2, rest),
            Moved::Failed => Moved::Failed,
        },
    }
}

impl<D: SwapDev + Drop> CheckedSwap<D, SureSwap> {
    /// This device, of which nothing was read or written so far, and a copy in memory.
    pub fn new(alloc: Global, device: D) -> Result<CheckedSwap<D, SureSwap>, NoMemory>
        ensures blocks { IfOk result (λ swap. ⟦<CheckedSwap<D, SureSwap> as SwapDev>⟧.blocks swap ≡ D.blocks device) }
        ensures zeros { IfOk result (λ swap. ⟦<CheckedSwap<D, SureSwap> as SwapDev>⟧.image swap ≡ Some (unnoted (replicate (512 * D.blocks device) 0))) }
        ensures read_faults { IfOk result (λ swap. ⟦<CheckedSwap<D, SureSwap> as SwapDev>⟧.read_faults swap ≡ 0) }
        ensures write_faults { IfOk result (λ swap. ⟦<CheckedSwap<D, SureSwap> as SwapDev>⟧.write_faults swap ≡ 0) }
    {
        let copy = SureSwap::new(alloc, device.blocks())?;
        Ok(CheckedSwap {
            device,
            copy,
            came_other: false,
            read_faults: 0,
            write_faults: 0,
        })
    }
}

impl<'r, S: System, C: SwapDev + Drop> CheckedSwap<FileSwap<'r, S>, C> {
    /// Why the last call that failed did: another page came than was written, or the system refused.
    pub fn last_refusal(&self) -> Option<Refusal<'r>> {
        if self.came_other {
            return Some(Refusal {
                name: self.device.name(),
                error: io::Error::new(ErrorKind::InvalidData, "other bytes came than were written"),
            });
        }
        self.device.last_refusal()
    }
}

impl<D: SwapDev + Drop, C: SwapDev + Drop> SwapDev for CheckedSwap<D, C> {
    ghost image = { λ d. C.image d.copy };

    ghost blocks = { λ d. C.blocks d.copy };

    ghost read_faults = { λ d. d.read_faults };

    ghost write_faults = { λ d. d.write_faults };

    ghost leads = { λ a b. C.leads a.copy b.copy × (a.read_faults ≤ b.read_faults) × (a.write_faults ≤ b.write_faults) };

    fn blocks(&self) -> u32 {
        self.copy.blocks()
    }

    fn read(&mut self, block: u32, buf: &mut [u8; 1024]) -> Moved {
        let mut page = [0; 1024];
        match self.copy.read(block, &mut page) {
            Moved::Done => match self.device.read(block, buf) {
                Moved::Done if *buf == page => Moved::Done,
                came => {
                    self.came_other = came == Moved::Done;
                    self.read_faults = raised(self.read_faults);
                    Moved::Failed
                }
            },
            Moved::Failed => {
                self.came_other = false;
                self.read_faults = raised(self.read_faults);
                Moved::Failed
            }
        }
    }

    // The copy has the page, also where the device fails: then a read of it fails, unless it is there all the same.
    #[tactic(auto, using(crate::proofs::CheckedPages::spoiled_by))]
    fn write(&mut self, block: u32, bytes: &[u8; 1024]) -> Moved {
        let kept = self.copy.write(block, bytes);
        match self.device.write(block, bytes) {
            Moved::Done if kept == Moved::Done => Moved::Done,
            _ => {
                self.came_other = false;
                self.write_faults = raised(self.write_faults);
                Moved::Failed
            }
        }
    }

    #[tactic(auto, using(io_edge::proofs::RunWrites::spoils_first, crate::proofs::CheckedPages::first_spoiled_by))]
    fn write_some(&mut self, block: u32, pages: &[[u8; 1024]]) -> Option<u32> {
        let Some((first, _)) = pages.split_first() else {
            unreachable!()
        };
        match self.device.write_some(block, pages) {
            Some(count) => match copy_pages(&mut self.copy, block, &pages[..count as usize]) {
                Moved::Done => Some(count),
                Moved::Failed => {
                    self.came_other = false;
                    self.write_faults = raised(self.write_faults);
                    None
                }
            },
            None => {
                let _ = self.copy.write(block, first);
                self.came_other = false;
                self.write_faults = raised(self.write_faults);
                None
            }
        }
    }

    ghost whole = { λ d image told. C.whole d.copy image told };

    ghost leads_nowhere = { λ d. (C.leads_nowhere d.copy, le_refl d.read_faults, le_refl d.write_faults) };

    ghost leads_through = { λ a b c first then. (
      C.leads_through a.copy b.copy c.copy first.0 then.0,
      le_trans first.1 then.1,
      le_trans first.2 then.2,
    ) };

    ghost blocks_stay = { λ a b led. C.blocks_stay a.copy b.copy led.0 };

    ghost reads_grow = { λ _ _ led. led.1 };

    ghost writes_grow = { λ _ _ led. led.2 };
}
