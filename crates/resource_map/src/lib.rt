//! A resource map: which blocks of a swap area are free, kept as a sorted list of free extents.
//!
//! The area is cut into units of 1,024 blocks, and no extent crosses from one unit into the next. Extents
//! that touch within a unit are merged. Allocation takes the front of the first extent that is large
//! enough, so it finds the lowest place at which the blocks lie free in one unit (first fit, as in the
//! 4.3BSD book; units are this project's profile).
//!
//! `alloc` reserves room for one more extent, so that `free` never needs memory: each range that is given
//! back adds at most one extent. Both look at the extents once, in order, and shift at most the list.
#![tactic(auto)]

ghost use Rattle.std.specs.Prelude.{◌≡◌, ℕ, ◌+◌, ◌-◌, ◌/◌, ◌<◌, ◌≤◌, ◌^◌, ◌==◌, nat_le, true, false, length, IfOk, OnErr, position, slice_index_or, vec_len, vec_capacity, All, HoldsAt};
ghost use Rattle.resource_map.specs.declared.Extent.{Extent as ExtentOf};
ghost use Rattle.resource_map.specs.Blocks.{is_free_block, all_free, lowest_start, taken, freed as after_free};
ghost use Rattle.resource_map.specs.Extents.{InOrder, free_blocks, covers, joins as is_join, given_back, joins_left, joins_right, cut_front, IsSmall};

use std::alloc::Global;
use std::marker::Model;
pub use vm_facts::NoMemory;

/// The blocks of one unit; no extent crosses a multiple of it.
const UNIT: u32 = 1024;

/// A run of free blocks.
#[derive(Clone, Copy, Debug, PartialEq, Eq)]
pub struct Extent {
    /// The first block.
    pub start: u32,
    /// How many blocks, at least 1.
    pub length: u32,
}

/// The free blocks of an area of blocks numbered from 0. Contracts see it as a set: for each block whether
/// it is free, and `spare`, how many ranges may still be given back without memory.
#[derive(Drop)]
pub struct ResourceMap {
    extents: Vec<Extent>,
    size: u32,
    spare: usize,
}

impl Model for ResourceMap {
    ghost use Rattle.resource_map.specs.Blocks.{Blocks};

    ghost Value = { Blocks };

    ghost use Rattle.resource_map.specs.Fields.{blocks_of, IsMap};

    ghost view = { blocks_of };

    ghost invariant = { IsMap };
}

impl ResourceMap {
    /// A map of `size` blocks, all free.
    pub fn new(alloc: Global, size: u32) -> Result<ResourceMap, NoMemory>
        ensures { IfOk result (λ m. m ≡ all_free size) }
    {
        let extents = whole_units(alloc, size)?;
        Ok(ResourceMap {
            extents,
            size,
            spare: 0,
        })
    }

    /// Takes `n` blocks at the lowest start from which `n` blocks are free within one unit, and answers
    /// that start. None comes exactly where there is none, and then nothing changes; nor does it after
    /// `NoMemory`. Each start that is given raises `spare` by one.
    pub fn alloc(&mut self, n: u32) -> Result<Option<u32>, NoMemory>
        requires { 0 < n }
        ensures lowest { IfOk result (λ start. start ≡ lowest_start self.old n) }
        ensures taken { IfOk result (λ start. self.new ≡ taken self.old n start) }
        ensures err { OnErr result (self.new ≡ self.old) }
    {
        let Some(at) = first_fit(&self.extents, n) else {
            return Ok(None);
        };
        self.extents.reserve(self.spare + 1)?;
        let start = take_front(&mut self.extents, at, n);
        self.spare += 1;
        Ok(Some(start))
    }

    /// Makes the `n` blocks from `start` on free again, and lowers `spare` by one. Takes no memory.
    pub fn free(&mut self, start: u32, n: u32)
        requires at_least_one { 0 < n }
        requires within { start + n ≤ length self.old.free }
        requires one_unit { start / 1024 ≡ (start + n - 1) / 1024 }
        requires not_free { (b : ℕ) → start ≤ b → b < start + n → is_free_block self.old.free b ≡ false }
        requires spare { 0 < self.old.spare }
        ensures { self.new ≡ after_free self.old start n }
    {
        let at = first_above(&self.extents, start);
        give_back(&mut self.extents, at, Extent { start, length: n });
        self.spare -= 1;
    }

    /// The free extents: sorted, each within one unit, and two of them touch only at a unit's start.
    pub fn extents(&self) -> &[Extent]
        ensures blocks { free_blocks (length self.now.free) result.now ≡ self.now.free }
        ensures order { InOrder 0 result.now (length self.now.free) }
    {
        &self.extents
    }

    /// How many blocks there are, free or not.
    pub fn size(&self) -> u32
        ensures { result ≡ length self.now.free }
    {
        self.size
    }
}

/// The extents of an area that is all free: each whole unit, and what is left of a last one.
fn whole_units(alloc: Global, size: u32) -> Result<Vec<Extent>, NoMemory>
    ensures order { IfOk result (λ es. InOrder 0 es.items size) }
    ensures all { IfOk result (λ es. (b : ℕ) → b < size → covers es.items b ≡ true) }
{
    let mut extents = Vec::new(alloc);
    let mut start = 0;
    while start < size {
        let length = (size - start).min(UNIT);
        extents.push(Extent { start, length })?;
        start += length;
    }
    Ok(extents)
}

/// The place of the first extent with at least `n` blocks.
fn first_fit(extents: &[Extent], n: u32) -> Option<usize>
    ensures { result ≡ position (λ e. nat_le n e.length) extents.now }
{
    extents.iter().position(|e| e.length >= n)
}

/// Takes the first `n` blocks of an extent, and answers where they begin.
fn take_front(extents: &mut Vec<Extent>, at: usize, n: u32) -> u32
    requires within { at < vec_len extents.old }
    requires fits { HoldsAt (λ e. n ≤ e.length) extents.old.items at }
    requires small { HoldsAt IsSmall extents.old.items at }
    ensures start { HoldsAt (λ e. result ≡ e.start) extents.old.items at }
    ensures cut { HoldsAt (λ e. extents.new.items ≡ cut_front extents.old.items at n e (e.length == n)) extents.old.items at }
    ensures len { vec_len extents.new ≤ vec_len extents.old }
    ensures capacity { vec_capacity extents.new ≡ vec_capacity extents.old }
{
    let Extent { start, length } = extents[at];
    if length == n {
        extents.remove(at);
    } else {
        extents[at] = Extent {
            start: start + n,
            length: length - n,
        };
    }
    start
}

/// The place of the first extent that begins above a block, or the number of extents.
fn first_above(extents: &[Extent], block: u32) -> usize
    ensures within { result ≤ length extents.now }
    ensures below { (k : ℕ) (d : ExtentOf) → k < result → (slice_index_or extents.now k d).start ≤ block }
    ensures above { (d : ExtentOf) → result < length extents.now → block < (slice_index_or extents.now result d).start }
{
    extents
        .iter()
        .position(|e| e.start > block)
        .unwrap_or(extents.len())
}

/// Whether two neighbours are to be one extent: the second begins where the first ends, and no unit does.
fn joins(left: Extent, right: Extent) -> bool
    requires { left.start + left.length < 2 ^ 32 }
    ensures { result ≡ is_join left right }
{
    left.start + left.length == right.start && right.start % UNIT != 0
}

/// Whether an extent that is put in at a place is to be one with the extent before that place.
fn joins_before(extents: &[Extent], at: usize, freed: Extent) -> bool
    requires within { at ≤ length extents.now }
    requires small { All IsSmall extents.now }
    ensures { result ≡ joins_left extents.now at freed }
{
    at > 0 && joins(extents[at - 1], freed)
}

/// Whether an extent that is put in at a place is to be one with the extent now at that place.
fn joins_after(extents: &[Extent], at: usize, freed: Extent) -> bool
    requires small { IsSmall freed }
    ensures { result ≡ joins_right extents.now at freed }
{
    at < extents.len() && joins(freed, extents[at])
}

/// Puts an extent in at its place, merged with the neighbours that it touches within its unit.
fn give_back(extents: &mut Vec<Extent>, at: usize, freed: Extent)
    requires within { at ≤ vec_len extents.old }
    requires room { vec_len extents.old < vec_capacity extents.old }
    requires small { All IsSmall extents.old.items }
    requires small_too { IsSmall freed }
    ensures put_in { extents.new.items ≡ given_back extents.old.items at freed }
    ensures len { vec_len extents.new ≤ vec_len extents.old + 1 }
    ensures capacity { vec_capacity extents.new ≡ vec_capacity extents.old }
{
    let before = joins_before(extents, at, freed);
    let after = joins_after(extents, at, freed);
    match (before, after) {
        (false, false) => {
            let Ok(()) = extents.insert(at, freed) else {
                unreachable!()
            };
        }
        (true, false) => extents[at - 1].length += freed.length,
        (false, true) => {
            extents[at] = Extent {
                start: freed.start,
                length: freed.length + extents[at].length,
            };
        }
        (true, true) => {
            extents[at - 1].length += freed.length + extents[at].length;
            extents.remove(at);
        }
    }
}
