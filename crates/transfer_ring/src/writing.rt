//! Hands pages that lie together on swap to the device by one call, others one by one. Where a call took fewer, the
//! next goes on behind them. Only ring.rt may call.
ghost use Rattle.std.specs.Prelude.{◌≡◌, ◌+◌, ◌*◌, ◌%◌, ◌≤◌, IfSome, length};
ghost use Rattle.transfer_ring.specs.Sound.{AreBlocks};
ghost use Rattle.transfer_ring.specs.Parts.{WritesParts, SpoilsParts};
ghost use Rattle.transfer_ring.specs.Together.{are_together, AreTogether, CopiesOut};
ghost use Rattle.io_edge.specs.Calls.{WritesSwap};
ghost use Rattle.io_edge.specs.Count.{Counts, OnDone, OnFailed};
ghost use Rattle.io_edge.specs.SwapRuns.{WritesPages, SpoilsPages};

use crate::{Outbound, moving};
use io_edge::{Moved, SwapDev};

// The block behind the two of a page.
fn block_behind(block: u32) -> u64
    ensures { result ≡ block + 2 }
{
    u64::from(block) + 2
}

// Whether the parts are in blocks that follow one another, the first from this one on.
fn are_together(parts: &[Outbound], block: u64) -> bool
    ensures { result ≡ are_together block parts.now }
{
    match parts {
        [] => true,
        [first, rest @ ..] => {
            u64::from(first.block) == block && are_together(rest, block_behind(first.block))
        }
    }
}

// The first block of parts that are in blocks that follow one another, where they are more than one, and no more than there is room for.
fn first_together(parts: &[Outbound], room: usize) -> Option<u32>
    ensures { IfSome result (AreTogether parts.now room) }
{
    if parts.len() < 2 {
        return None;
    }
    if parts.len() > room {
        return None;
    }
    let block = parts.first()?.block;
    if are_together(parts, u64::from(block)) {
        Some(block)
    } else {
        None
    }
}

// Copies the pages of parts out, the first to the front.
fn copy_out(parts: &[Outbound], pages: &mut [[u8; 1024]])
    requires { length parts.now ≤ length pages.old }
    ensures { CopiesOut parts.now pages.new }
{
    match parts {
        [] => {}
        [first, rest @ ..] => match pages.split_first_mut() {
            None => unreachable!(),
            Some((page, more)) => {
                *page = *first.token.bytes();
                copy_out(rest, more);
            }
        },
    }
}

// Writes pages that lie together, the first in the two blocks from this one on, up to the first fault.
fn write_pages<D: SwapDev>(block: u32, pages: &[[u8; 1024]], swap: &mut D) -> Moved
    requires even { block % 2 ≡ 0 }
    requires inside { block + 2 * length pages.now ≤ D.blocks swap.old }
    ensures done { OnDone result (WritesPages (D.image swap.old) block pages.now (D.image swap.new)) }
    ensures failed { OnFailed result (SpoilsPages (D.image swap.old) block pages.now (D.image swap.new)) }
    ensures swap { WritesSwap D.SwapDev swap.old swap.new }
    ensures write_faults { Counts result (D.write_faults swap.old) (D.write_faults swap.new) }
{
    let _blocks = swap.blocks();
    if pages.is_empty() {
        return Moved::Done;
    }
    match swap.write_some(block, pages) {
        Some(count) => write_pages(block + 2 * count, pages.split_at(count as usize).1, swap),
        None => Moved::Failed,
    }
}

// Writes the pages of parts that are in blocks that follow one another, the first from this one on.
fn write_together<D: SwapDev>(
    parts: &[Outbound],
    block: u32,
    room: &mut [[u8; 1024]],
    swap: &mut D,
) -> Moved
    requires together { AreTogether parts.now (length room.old) block }
    requires there { AreBlocks (D.blocks swap.old) parts.now }
    ensures done { OnDone result (WritesParts parts.now (D.image swap.old) (D.image swap.new)) }
    ensures failed { OnFailed result (SpoilsParts parts.now (D.image swap.old) (D.image swap.new)) }
    ensures swap { WritesSwap D.SwapDev swap.old swap.new }
    ensures write_faults { Counts result (D.write_faults swap.old) (D.write_faults swap.new) }
{
    copy_out(parts, room);
    let (pages, _) = room.split_at(parts.len());
    write_pages(block, pages, swap)
}

/// Writes the pages of all parts in turn, up to the first fault. Those that lie together are handed to the device together, where
/// there is room to put them one behind another.
pub(crate) fn write_parts<D: SwapDev>(
    parts: &[Outbound],
    room: &mut [[u8; 1024]],
    swap: &mut D,
) -> Moved
    requires { AreBlocks (D.blocks swap.old) parts.now }
    ensures done { OnDone result (WritesParts parts.now (D.image swap.old) (D.image swap.new)) }
    ensures failed { OnFailed result (SpoilsParts parts.now (D.image swap.old) (D.image swap.new)) }
    ensures swap { WritesSwap D.SwapDev swap.old swap.new }
    ensures write_faults { Counts result (D.write_faults swap.old) (D.write_faults swap.new) }
{
    match first_together(parts, room.len()) {
        Some(block) => write_together(parts, block, room, swap),
        None => moving::write_all(parts, swap),
    }
}
