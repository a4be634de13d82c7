//! A swap device that returns other bytes than were written. The bytes of users and the registers of a process that
//! is out are on swap alone, so a run may be changed by it and not stopped.
ghost use Rattle.std.specs.Prelude.{◌≡◌, ◌*◌, None, refl};
ghost use Rattle.std.proofs.Common.{◌∙◌, le_refl};
ghost use Rattle.io_edge.specs.Told.{untold_length};

use io_edge::{Moved, NoMemory, SureSwap, SwapDev};
use std::alloc::Global;

/// Which byte is raised by one when it is read.
#[derive(Drop, Clone, Copy)]
pub enum Lie {
    /// The first byte of the first page that is read.
    FirstByte,
    /// The first byte of each page that is read.
    EachFirstByte,
    /// Byte 20 of the page from this block on.
    Byte20(u32),
    Nothing,
}

/// A device in memory that is true but for this.
#[derive(Drop)]
pub struct LyingSwap {
    store: SureSwap,
    lie: Lie,
}

impl LyingSwap {
    pub fn new(alloc: Global, blocks: u32, lie: Lie) -> Result<LyingSwap, NoMemory> {
        let store = SureSwap::new(alloc, blocks)?;
        Ok(LyingSwap { store, lie })
    }
}

impl SwapDev for LyingSwap {
    ghost image = { λ _. None };

    ghost blocks = { λ d. ⟦<SureSwap as SwapDev>⟧.blocks d.store };

    ghost read_faults = { λ _. 0 };

    ghost write_faults = { λ _. 0 };

    ghost leads = { λ a b. ⟦<SureSwap as SwapDev>⟧.blocks b.store ≡ ⟦<SureSwap as SwapDev>⟧.blocks a.store };

    fn blocks(&self) -> u32 {
        self.store.blocks()
    }

    fn read(&mut self, block: u32, buf: &mut [u8; 1024]) -> Moved {
        let _ = self.store.read(block, buf);
        match self.lie {
            Lie::FirstByte => {
                buf[0] = buf[0].wrapping_add(1);
                self.lie = Lie::Nothing;
            }
            Lie::EachFirstByte => buf[0] = buf[0].wrapping_add(1),
            Lie::Byte20(place) if place == block => buf[20] = buf[20].wrapping_add(1),
            Lie::Byte20(_) | Lie::Nothing => {}
        }
        Moved::Done
    }

    fn write(&mut self, block: u32, bytes: &[u8; 1024]) -> Moved {
        let _ = self.store.write(block, bytes);
        Moved::Done
    }

    ghost whole = { λ d image told. untold_length image (512 * ⟦<SureSwap as SwapDev>⟧.blocks d.store) told };

    ghost leads_nowhere = { λ _. refl };

    ghost leads_through = { λ _ _ _ first then. then ∙ first };

    ghost blocks_stay = { λ _ _ led. led };

    ghost reads_grow = { λ _ _ _. le_refl 0 };

    ghost writes_grow = { λ _ _ _. le_refl 0 };
}
