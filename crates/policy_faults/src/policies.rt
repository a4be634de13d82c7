//! The policies: what makes room for a page, what a reference does, and how many faults there are.
ghost use Rattle.std.specs.Prelude.{◌≡◌, ◌≤◌, ◌<◌, ℕ, true, length, OnOk, IfOk, if◌then◌else◌};
ghost use Rattle.page_opt.specs.Plans.{has};
ghost use Rattle.policy_faults.specs.Ring.{ring_pages, is_in_memory};
ghost use Rattle.policy_faults.specs.Policies.{fifo_room, fifo_after, fifo_faults, ring_after, swept, clock_room, clock_faults, hands_moved, hands_room, hands_faults};

use crate::page_ring::PageRing;
use std::alloc::Global;
use vm_facts::NoMemory;

/// The page faults under first in, first out, with 1 or more frames: where there is no room, the page leaves that came first.
/// At most 4,000,000 references, each of which is served in O(1). Takes memory in proportion to the highest page. The one error is
/// that there is no memory left.
pub fn fifo_faults(alloc: Global, refs: &[u32], frames: u32) -> Result<u32, NoMemory>
    requires { length refs.now ≤ 4000000 }
    ensures { IfOk result (λ faults. faults ≡ fifo_faults refs.now frames) }
{
    let mut ring = PageRing::new(alloc);
    let mut faults = 0;
    for page in refs {
        faults += fifo_reference(&mut ring, *page, frames)?;
    }
    Ok(faults)
}

/// The page faults under the clock with one hand: each page has a bit that is set when it is referenced. Where there is no room,
/// the hand goes round the frames. It clears each bit that is set, and takes the first frame whose bit is clear (Corbato, "A
/// Paging Experiment with the Multics System"). A page comes in with its bit set. At most 4,000,000 references. Each move of the
/// hand clears a bit that a reference set, so there are no more of them. Takes memory in proportion to the highest page. The one
/// error is that there is no memory left.
pub fn clock_faults(alloc: Global, refs: &[u32], frames: u32) -> Result<u32, NoMemory>
    requires { length refs.now ≤ 4000000 }
    ensures { IfOk result (λ faults. faults ≡ clock_faults refs.now frames) }
{
    let mut ring = PageRing::new(alloc);
    let mut faults = 0;
    for page in refs {
        faults += clock_reference(&mut ring, *page, frames)?;
    }
    Ok(faults)
}

/// The page faults under the clock with two hands and no bit of reference, the rule of 4.3BSD's kernel in its simplest form: the
/// hands move only where there is no room, nothing is written, and a page's frame is given to the page that comes. The front hand
/// is `spread` frames ahead, 0 to `frames - 1` of them: the kernel's handspread. At each frame it makes its page invalid, and the
/// back hand takes its frame where that page is invalid. An invalid page that is referenced is valid again, and that is no fault. A
/// page comes in valid. Where both hands are at one frame, the page that came first leaves. Where the front hand is right behind
/// the back hand, at `frames - 1`, a page has nearly a round to be referenced in, as under a clock with one hand. From `frames` on
/// the front hand is at no page, and no page leaves but after a whole round. At most 4,000,000 references. Takes memory in
/// proportion to the highest page. The one error is that there is no memory left.
pub fn hands_faults(alloc: Global, refs: &[u32], frames: u32, spread: u32) -> Result<u32, NoMemory>
    requires { length refs.now ≤ 4000000 }
    ensures { IfOk result (λ faults. faults ≡ hands_faults refs.now frames spread) }
{
    let mut ring = PageRing::new(alloc);
    let mut faults = 0;
    for page in refs {
        faults += hands_reference(&mut ring, *page, frames, spread)?;
    }
    Ok(faults)
}

// A reference under first in, first out, and how many faults it is.
#[tactic(auto, unfolding(crate::specs::Policies::fifo_after))]
fn fifo_reference(ring: &mut PageRing, page: u32, frames: u32) -> Result<u32, NoMemory>
    ensures after { OnOk result (ring_pages ring.new ≡ fifo_after frames page (ring_pages ring.old)) }
    ensures faults { IfOk result (λ faults. faults ≡ (if has page (ring_pages ring.old) then 0 else 1)) }
{
    if ring.contains(page) {
        return Ok(0);
    }
    make_fifo_room(ring, frames);
    ring.page_in(page)?;
    Ok(1)
}

// A reference under the clock with one hand, and how many faults it is.
#[tactic(auto, unfolding(crate::specs::Policies::ring_after))]
fn clock_reference(ring: &mut PageRing, page: u32, frames: u32) -> Result<u32, NoMemory>
    ensures after { OnOk result (ring.new ≡ ring_after (clock_room frames) page ring.old) }
    ensures faults { IfOk result (λ faults. faults ≡ (if is_in_memory page ring.old then 0 else 1)) }
{
    if ring.touch(page) {
        return Ok(0);
    }
    make_clock_room(ring, frames);
    ring.page_in(page)?;
    Ok(1)
}

// A reference under the clock with two hands, and how many faults it is.
#[tactic(auto, unfolding(crate::specs::Policies::ring_after))]
fn hands_reference(
    ring: &mut PageRing,
    page: u32,
    frames: u32,
    spread: u32,
) -> Result<u32, NoMemory>
    ensures after { OnOk result (ring.new ≡ ring_after (hands_room frames spread) page ring.old) }
    ensures faults { IfOk result (λ faults. faults ≡ (if is_in_memory page ring.old then 0 else 1)) }
{
    if ring.touch(page) {
        return Ok(0);
    }
    make_hands_room(ring, frames, spread);
    ring.page_in(page)?;
    Ok(1)
}

// Where there is no room, the page that came first leaves.
fn make_fifo_room(ring: &mut PageRing, frames: u32)
    ensures { ring_pages ring.new ≡ fifo_room frames (ring_pages ring.old) }
{
    if ring.len() >= frames as usize {
        ring.drop_first();
    }
}

// Where there is no room, the page leaves at which the hand stops.
fn make_clock_room(ring: &mut PageRing, frames: u32)
    ensures { ring.new ≡ clock_room frames ring.old }
{
    if ring.len() >= frames as usize {
        sweep(ring, frames);
        ring.drop_first();
    }
}

// Where there is no room, the page leaves at which the back hand stops.
fn make_hands_room(ring: &mut PageRing, frames: u32, spread: u32)
    ensures { ring.new ≡ hands_room frames spread ring.old }
{
    if ring.len() >= frames as usize {
        move_hands(ring, spread as usize, frames);
        ring.drop_first();
    }
}

// The hand goes on over marked pages, which lose their marks.
fn sweep(ring: &mut PageRing, moves: u32)
    ensures { ring.new ≡ swept moves ring.old }
{
    for moved in 0..moves {
        if !ring.is_hand_marked() {
            return;
        }
        ring.unmark(0);
        ring.pass_hand();
    }
}

// Both hands go on until the back hand is at a page without a mark.
fn move_hands(ring: &mut PageRing, ahead: usize, moves: u32)
    ensures { ring.new ≡ hands_moved ahead moves ring.old }
{
    for moved in 0..moves {
        ring.unmark(ahead);
        if !ring.is_hand_marked() {
            return;
        }
        ring.pass_hand();
    }
}
