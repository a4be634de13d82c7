//! The faults of all policies at several numbers of frames. What doesn't depend on the frames is found once.
ghost use Rattle.std.specs.Prelude.{◌≡◌, ◌-◌, ◌≤◌, min, length, slice_index_or, IfOk, OnOk};
ghost use Rattle.reference_answers.specs.Texts.{frame_numbers};
ghost use Rattle.reference_answers.specs.Answers.{AreSweepLines};
ghost use Rattle.reference_answers.specs.Sweeps.{IsKnown, HasNextLine};

use crate::lines::put_policies_line;
use page_opt::least_faults_by_uses;
use policy_faults::{clock_faults, fifo_faults, hands_faults};
use std::alloc::Global;
use vm_facts::NoMemory;

/// What is known of references, whatever the number of frames.
#[derive(Clone, Copy, Drop)]
pub(crate) struct Known<'a> {
    /// The number of each reference's page.
    pub(crate) numbers: &'a [u32],
    /// The place where that page is used again.
    pub(crate) next: &'a [Option<u32>],
    /// The faults of LRU, with one frame and up.
    pub(crate) curve: &'a [u32],
}

/// The lines of numbers of frames: `from`, and each `every` more up to `to`.
pub(crate) fn sweep(
    alloc: Global,
    known: Known<'_>,
    from: u32,
    to: u32,
    every: u32,
) -> Result<Vec<u8>, NoMemory>
    requires some { 1 ≤ from }
    requires order { from ≤ to }
    requires every { 1 ≤ every }
    requires known { IsKnown known }
    ensures { IfOk result (λ text. AreSweepLines known.entry.numbers.now (frame_numbers from to every) text.items) }
{
    let mut text = Vec::new(alloc);
    for step in 0..(to - from) / every + 1 {
        put_line(alloc, &mut text, known, from + step * every)?;
    }
    Ok(text)
}

// Puts the line of a number of frames.
fn put_line(
    alloc: Global,
    text: &mut Vec<u8>,
    known: Known<'_>,
    frames: u32,
) -> Result<(), NoMemory>
    requires some { 1 ≤ frames }
    requires known { IsKnown known }
    ensures { OnOk result (HasNextLine known.entry.numbers.now frames text.old.items text.new.items) }
{
    let fifo = fifo_faults(alloc, known.numbers, frames)?;
    let clock = clock_faults(alloc, known.numbers, frames)?;
    let hands = hands_faults(alloc, known.numbers, frames, frames / 4)?;
    let lru = lru_with(known.curve, frames);
    let plan = least_faults_by_uses(alloc, known.numbers, known.next, frames)?;
    put_policies_line(text, frames, fifo, clock, hands, lru, plan.faults)?;
    Ok(())
}

// The faults of LRU with so many frames, by its curve, which stays as it is past its last entry.
fn lru_with(curve: &[u32], frames: u32) -> u32
    ensures { result ≡ slice_index_or curve.now (min frames (length curve.now) - 1) 0 }
{
    let entries = curve.len().min(frames as usize);
    match curve.get(entries.saturating_sub(1)) {
        Some(faults) => *faults,
        None => 0,
    }
}
