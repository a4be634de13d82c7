//! Two swap devices as one, striped by units of 1,024 blocks. Pages handed over together are cut where a unit ends.
ghost use Rattle.std.specs.Prelude.{◌≡◌, ◌+◌, ◌*◌, ◌%◌, ◌≤◌, ◌<◌, ◌↔◌, IsTrue, IsNone, IfSome, None, length, refl};
ghost use Rattle.std.proofs.Common.{sym, ◌∙◌, ap};
ghost use Rattle.io_edge.specs.Count.{Counts, OnDone, OnFailed, next_count};
ghost use Rattle.io_edge.specs.SwapImage.{bytes_told, HoldsPage, ReadsPage, WritesPage, SpoilsPage, LeavesPage};
ghost use Rattle.io_edge.specs.SwapRuns.{WritesSomePages, moved_of, pages_of_unit};
ghost use Rattle.io_edge.specs.Striping.{device_of, place_of, pair_blocks, pair_image, zero_needs, one_needs, IsDevice, IsLargestSwap, KeepsBeyond};
ghost use Rattle.io_edge.specs.Beyond.{zero_through, one_through};
ghost use Rattle.io_edge.specs.PairFailures.{AddsFailures};
ghost use Rattle.io_edge.specs.PairLeads.{adds_grow, adds_nothing, adds_through};
ghost use Rattle.io_edge.specs.StripeSizes.{tell_blocks, pair_whole};

use crate::failures::Failures;
use crate::{Moved, SwapDev};

// The device of a block.
#[tactic(auto, unfolding(crate::specs::Striping::device_of))]
fn device_number(block: u32) -> u32
    ensures { result ≡ device_of block }
{
    block / 1024 % 2
}

// Its block there.
#[tactic(auto, unfolding(crate::specs::Striping::place_of))]
fn place_on_device(block: u32) -> u32
    ensures { result ≡ place_of block }
{
    block / 1024 / 2 * 1024 + block % 1024
}

// How a call ended by which so many pages were written, or none.
fn moved_of(wrote: Option<u32>) -> Moved
    ensures { result ≡ moved_of wrote }
{
    match wrote {
        Some(_) => Moved::Done,
        None => Moved::Failed,
    }
}

// Of pages that lie together those in the unit of the first one's block.
#[tactic(auto, using(std::proofs::lemmas::List::take_min))]
fn in_unit(pages: &[[u8; 1024]], block: u32) -> &[[u8; 1024]]
    ensures { result.now ≡ pages_of_unit block pages.now }
{
    let room = (1024 - block % 1024) as usize / 2;
    pages.split_at(room.min(pages.len())).0
}

// How many blocks two devices of these sizes make together.
#[tactic(auto, unfolding(crate::specs::Striping::pair_blocks))]
fn striped_blocks(zero: u32, one: u32) -> u32
    ensures { result ≡ pair_blocks zero one }
{
    let (zero, one) = (u64::from(zero), u64::from(one));
    let zero_reach = zero / 1024 * 2048 + zero % 1024;
    let one_reach = 1024 + one / 1024 * 2048 + one % 1024;
    zero_reach.min(one_reach).min(131_072) as u32
}

/// Two swap devices as one, striped by units of 1,024 blocks: the even units are those of device 0, in
/// their order, and the odd ones those of device 1. It has as many blocks as both devices have room
/// for, and 131,072 at most (this project's profile). Its image is told where both devices tell theirs.
///
/// It counts its own failed calls, in a `u64` that stands still at its last value. Where calls lead from
/// one state of the pair to a later one, its two references are the same, calls lead from each device's
/// earlier state to its later one, the pair's count of a kind rose by the failed calls of both devices
/// together, each device's by its own, and a device that is named anew for a failed call is one on which
/// a call failed. What a device has beyond the blocks that the pair needs of it is as it was.
#[derive(Drop)]
pub struct SwapPair<'a, D, E> {
    /// Device 0.
    pub zero: &'a mut D,

    /// Device 1.
    pub one: &'a mut E,
    reads: Failures,
    writes: Failures,
}

impl<'a, D: SwapDev, E: SwapDev> SwapPair<'a, D, E> {
    ghost use Rattle.io_edge.specs.FailedDevice.{failed_read_of, failed_write_of};

    /// Device 0 and device 1, with no failed call so far.
    pub fn new(zero: &'a mut D, one: &'a mut E) -> SwapPair<'a, D, E>
        ensures zero_reference { result.zero.ghost_name ≡ zero.entry.ghost_name }
        ensures one_reference { result.one.ghost_name ≡ one.entry.ghost_name }
        ensures zero { result.zero.now ≡ zero.old }
        ensures one { result.one.now ≡ one.old }
        ensures read_faults { ⟦<SwapPair<'a, D, E> as SwapDev>⟧.read_faults result ≡ 0 }
        ensures write_faults { ⟦<SwapPair<'a, D, E> as SwapDev>⟧.write_faults result ≡ 0 }
        ensures failed_read { failed_read_of result ≡ None }
        ensures failed_write { failed_write_of result ≡ None }
        ensures blocks { IsLargestSwap (D.blocks zero.old) (E.blocks one.old)
            (⟦<SwapPair<'a, D, E> as SwapDev>⟧.blocks result) }
    {
        SwapPair {
            zero,
            one,
            reads: Failures::none(),
            writes: Failures::none(),
        }
    }

    /// The device of the last failed `read`: 0 or 1. Its own count of failed reads rose since the pair
    /// was made.
    pub fn failed_read(&self) -> Option<u32>
        ensures none { IsNone result ↔ (⟦<SwapPair<'a, D, E> as SwapDev>⟧.read_faults self.now ≡ 0) }
        ensures device { result ≡ failed_read_of self.now }
        ensures within { IfSome result IsDevice }
    {
        self.reads.last
    }

    /// The device of the last failed `write`: 0 or 1. Its own count of failed writes rose since the
    /// pair was made.
    pub fn failed_write(&self) -> Option<u32>
        ensures none { IsNone result ↔ (⟦<SwapPair<'a, D, E> as SwapDev>⟧.write_faults self.now ≡ 0) }
        ensures device { result ≡ failed_write_of self.now }
        ensures within { IfSome result IsDevice }
    {
        self.writes.last
    }
}

impl<'a, D: SwapDev, E: SwapDev> SwapDev for SwapPair<'a, D, E> {
    ghost image = { λ p. pair_image (pair_blocks (D.blocks p.zero.now) (E.blocks p.one.now))
        (D.image p.zero.now) (E.image p.one.now) };

    ghost blocks = { λ p. pair_blocks (D.blocks p.zero.now) (E.blocks p.one.now) };

    ghost read_faults = { λ p. p.reads.count };

    ghost write_faults = { λ p. p.writes.count };

    ghost leads = { λ p q. (p.zero.ghost_name ≡ q.zero.ghost_name)
        × (p.one.ghost_name ≡ q.one.ghost_name)
        × D.leads p.zero.now q.zero.now × E.leads p.one.now q.one.now
        × AddsFailures p.reads.count q.reads.count p.reads.last q.reads.last
        (D.read_faults p.zero.now) (D.read_faults q.zero.now)
        (E.read_faults p.one.now) (E.read_faults q.one.now)
        × AddsFailures p.writes.count q.writes.count p.writes.last q.writes.last
        (D.write_faults p.zero.now) (D.write_faults q.zero.now)
        (E.write_faults p.one.now) (E.write_faults q.one.now)
        × KeepsBeyond (zero_needs (pair_blocks (D.blocks p.zero.now) (E.blocks p.one.now)))
        (D.image p.zero.now) (D.image q.zero.now)
        × KeepsBeyond (one_needs (pair_blocks (D.blocks p.zero.now) (E.blocks p.one.now)))
        (E.image p.one.now) (E.image q.one.now) };

    fn blocks(&self) -> u32 {
        striped_blocks(self.zero.blocks(), self.one.blocks())
    }

    fn read(&mut self, block: u32, buf: &mut [u8; 1024]) -> Moved
        requires even { block % 2 ≡ 0 }
        requires inside { block + 2 ≤ ⟦<SwapPair<'a, D, E> as SwapDev>⟧.blocks self.old }
        ensures leads { ⟦<SwapPair<'a, D, E> as SwapDev>⟧.leads self.old self.new }
        ensures blocks { ⟦<SwapPair<'a, D, E> as SwapDev>⟧.blocks self.new
            ≡ ⟦<SwapPair<'a, D, E> as SwapDev>⟧.blocks self.old }
        ensures image { ReadsPage (⟦<SwapPair<'a, D, E> as SwapDev>⟧.image self.old) block
            (⟦<SwapPair<'a, D, E> as SwapDev>⟧.image self.new) }
        ensures bytes { bytes_told (⟦<SwapPair<'a, D, E> as SwapDev>⟧.image self.new)
            ≡ bytes_told (⟦<SwapPair<'a, D, E> as SwapDev>⟧.image self.old) }
        ensures done { OnDone result
            (HoldsPage (bytes_told (⟦<SwapPair<'a, D, E> as SwapDev>⟧.image self.old)) block buf.new) }
        ensures read_faults { Counts result
            (⟦<SwapPair<'a, D, E> as SwapDev>⟧.read_faults self.old)
            (⟦<SwapPair<'a, D, E> as SwapDev>⟧.read_faults self.new) }
        ensures write_faults { ⟦<SwapPair<'a, D, E> as SwapDev>⟧.write_faults self.new
            ≡ ⟦<SwapPair<'a, D, E> as SwapDev>⟧.write_faults self.old }

        // Its own failed calls, one by one.
        ensures failed_calls { OnFailed result (⟦<SwapPair<'a, D, E> as SwapDev>⟧.read_faults self.new
            ≡ next_count (⟦<SwapPair<'a, D, E> as SwapDev>⟧.read_faults self.old)) }

        // The block's device is asked for the page at its place, and the other device not at all.
        ensures on_zero { device_of block ≡ 0 → ReadsPage (D.image self.old.zero.now) (place_of block)
            (D.image self.new.zero.now) }
        ensures not_on_zero { device_of block ≡ 1 → self.new.zero.now ≡ self.old.zero.now }
        ensures on_one { device_of block ≡ 1 → ReadsPage (E.image self.old.one.now) (place_of block)
            (E.image self.new.one.now) }
        ensures not_on_one { device_of block ≡ 0 → self.new.one.now ≡ self.old.one.now }
    {
        let place = place_on_device(block);
        if device_number(block) == 0 {
            let moved = self.zero.read(place, buf);
            self.reads.note(moved, 0);
            moved
        } else {
            let moved = self.one.read(place, buf);
            self.reads.note(moved, 1);
            moved
        }
    }

    fn write(&mut self, block: u32, bytes: &[u8; 1024]) -> Moved
        requires even { block % 2 ≡ 0 }
        requires inside { block + 2 ≤ ⟦<SwapPair<'a, D, E> as SwapDev>⟧.blocks self.old }
        ensures leads { ⟦<SwapPair<'a, D, E> as SwapDev>⟧.leads self.old self.new }
        ensures blocks { ⟦<SwapPair<'a, D, E> as SwapDev>⟧.blocks self.new
            ≡ ⟦<SwapPair<'a, D, E> as SwapDev>⟧.blocks self.old }
        ensures done { OnDone result
            (WritesPage (⟦<SwapPair<'a, D, E> as SwapDev>⟧.image self.old) block bytes.now
            (⟦<SwapPair<'a, D, E> as SwapDev>⟧.image self.new)) }
        ensures failed { OnFailed result
            (SpoilsPage (⟦<SwapPair<'a, D, E> as SwapDev>⟧.image self.old) block
            (⟦<SwapPair<'a, D, E> as SwapDev>⟧.image self.new)) }
        ensures read_faults { ⟦<SwapPair<'a, D, E> as SwapDev>⟧.read_faults self.new
            ≡ ⟦<SwapPair<'a, D, E> as SwapDev>⟧.read_faults self.old }
        ensures write_faults { Counts result
            (⟦<SwapPair<'a, D, E> as SwapDev>⟧.write_faults self.old)
            (⟦<SwapPair<'a, D, E> as SwapDev>⟧.write_faults self.new) }

        // Its own failed calls, one by one.
        ensures failed_calls { OnFailed result (⟦<SwapPair<'a, D, E> as SwapDev>⟧.write_faults self.new
            ≡ next_count (⟦<SwapPair<'a, D, E> as SwapDev>⟧.write_faults self.old)) }

        // The block's device changes at its place alone, and the other device not at all.
        ensures on_zero { device_of block ≡ 0 → LeavesPage result (D.image self.old.zero.now)
            (place_of block) bytes.now (D.image self.new.zero.now) }
        ensures not_on_zero { device_of block ≡ 1 → self.new.zero.now ≡ self.old.zero.now }
        ensures on_one { device_of block ≡ 1 → LeavesPage result (E.image self.old.one.now)
            (place_of block) bytes.now (E.image self.new.one.now) }
        ensures not_on_one { device_of block ≡ 0 → self.new.one.now ≡ self.old.one.now }
    {
        let place = place_on_device(block);
        if device_number(block) == 0 {
            let moved = self.zero.write(place, bytes);
            self.writes.note(moved, 0);
            moved
        } else {
            let moved = self.one.write(place, bytes);
            self.writes.note(moved, 1);
            moved
        }
    }

    fn write_some(&mut self, block: u32, pages: &[[u8; 1024]]) -> Option<u32>
        requires even { block % 2 ≡ 0 }
        requires some { 0 < length pages.now }
        requires inside { block + 2 * length pages.now ≤ ⟦<SwapPair<'a, D, E> as SwapDev>⟧.blocks self.old }
        ensures leads { ⟦<SwapPair<'a, D, E> as SwapDev>⟧.leads self.old self.new }
        ensures blocks { ⟦<SwapPair<'a, D, E> as SwapDev>⟧.blocks self.new
            ≡ ⟦<SwapPair<'a, D, E> as SwapDev>⟧.blocks self.old }
        ensures written { WritesSomePages result (⟦<SwapPair<'a, D, E> as SwapDev>⟧.image self.old) block pages.now
            (⟦<SwapPair<'a, D, E> as SwapDev>⟧.image self.new) }
        ensures read_faults { ⟦<SwapPair<'a, D, E> as SwapDev>⟧.read_faults self.new
            ≡ ⟦<SwapPair<'a, D, E> as SwapDev>⟧.read_faults self.old }
        ensures write_faults { Counts (moved_of result)
            (⟦<SwapPair<'a, D, E> as SwapDev>⟧.write_faults self.old)
            (⟦<SwapPair<'a, D, E> as SwapDev>⟧.write_faults self.new) }

        // Its own failed calls, one by one.
        ensures failed_calls { OnFailed (moved_of result) (⟦<SwapPair<'a, D, E> as SwapDev>⟧.write_faults self.new
            ≡ next_count (⟦<SwapPair<'a, D, E> as SwapDev>⟧.write_faults self.old)) }

        // The block's device is handed the pages of the block's unit, and the other device is left alone.
        ensures on_zero { device_of block ≡ 0 → WritesSomePages result (D.image self.old.zero.now)
            (place_of block) (pages_of_unit block pages.now) (D.image self.new.zero.now) }
        ensures not_on_zero { device_of block ≡ 1 → self.new.zero.now ≡ self.old.zero.now }
        ensures on_one { device_of block ≡ 1 → WritesSomePages result (E.image self.old.one.now)
            (place_of block) (pages_of_unit block pages.now) (E.image self.new.one.now) }
        ensures not_on_one { device_of block ≡ 0 → self.new.one.now ≡ self.old.one.now }
    {
        let place = place_on_device(block);
        let here = in_unit(pages, block);
        if device_number(block) == 0 {
            let wrote = self.zero.write_some(place, here);
            self.writes.note(moved_of(wrote), 0);
            wrote
        } else {
            let wrote = self.one.write_some(place, here);
            self.writes.note(moved_of(wrote), 1);
            wrote
        }
    }

    ghost whole = { λ p bytes told. pair_whole
        (pair_blocks (D.blocks p.zero.now) (E.blocks p.one.now))
        (D.image p.zero.now) (E.image p.one.now) bytes
        (tell_blocks (D.blocks p.zero.now) (E.blocks p.one.now) (D.image p.zero.now)
        (E.image p.one.now) (D.whole p.zero.now) (E.whole p.one.now)) told };

    ghost leads_nowhere = { λ p. (
      refl,
      refl,
      D.leads_nowhere p.zero.now,
      E.leads_nowhere p.one.now,
      adds_nothing p.reads.count p.reads.last (D.read_faults p.zero.now) (E.read_faults p.one.now),
      adds_nothing p.writes.count p.writes.last (D.write_faults p.zero.now) (E.write_faults p.one.now),
      refl,
      refl,
    ) };

    ghost leads_through = { λ p q r first then. (
      first.0 ∙ then.0,
      first.1 ∙ then.1,
      D.leads_through p.zero.now q.zero.now r.zero.now first.2 then.2,
      E.leads_through p.one.now q.one.now r.one.now first.3 then.3,
      adds_through p.reads.count q.reads.count r.reads.count p.reads.last q.reads.last r.reads.last
          (D.read_faults p.zero.now) (D.read_faults q.zero.now) (D.read_faults r.zero.now)
          (E.read_faults p.one.now) (E.read_faults q.one.now) (E.read_faults r.one.now) first.4 then.4,
      adds_through p.writes.count q.writes.count r.writes.count p.writes.last q.writes.last r.writes.last
          (D.write_faults p.zero.now) (D.write_faults q.zero.now) (D.write_faults r.zero.now)
          (E.write_faults p.one.now) (E.write_faults q.one.now) (E.write_faults r.one.now) first.5 then.5,
      zero_through (D.blocks p.zero.now) (E.blocks p.one.now) (D.blocks q.zero.now) (E.blocks q.one.now)
          (D.image p.zero.now) (D.image q.zero.now) (D.image r.zero.now)
          (D.blocks_stay p.zero.now q.zero.now first.2) (E.blocks_stay p.one.now q.one.now first.3) first.6 then.6,
      one_through (D.blocks p.zero.now) (E.blocks p.one.now) (D.blocks q.zero.now) (E.blocks q.one.now)
          (E.image p.one.now) (E.image q.one.now) (E.image r.one.now)
          (D.blocks_stay p.zero.now q.zero.now first.2) (E.blocks_stay p.one.now q.one.now first.3) first.7 then.7,
    ) };

    ghost blocks_stay = { λ p q led.
        ap (λ size. pair_blocks size (E.blocks q.one.now))
        (D.blocks_stay p.zero.now q.zero.now led.2)
        ∙ ap (λ size. pair_blocks (D.blocks p.zero.now) size)
        (E.blocks_stay p.one.now q.one.now led.3) };

    ghost reads_grow = { λ p q led. adds_grow p.reads.count q.reads.count p.reads.last q.reads.last
        (D.read_faults p.zero.now) (D.read_faults q.zero.now)
        (E.read_faults p.one.now) (E.read_faults q.one.now) led.4 };

    ghost writes_grow = { λ p q led. adds_grow p.writes.count q.writes.count p.writes.last q.writes.last
        (D.write_faults p.zero.now) (D.write_faults q.zero.now)
        (E.write_faults p.one.now) (E.write_faults q.one.now) led.5 };
}
