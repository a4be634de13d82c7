//! What the machine tells of a page, of frames and of what is due, as reasons. Nothing may change here.
ghost use Rattle.std.specs.Prelude.{◌≡◌};
ghost use Rattle.vm_facts.specs.declared.page.PageState.TheVariants.{Unfilled};
ghost use Rattle.page_model.specs.Placement.{IsThere, state_of, filling_of};
ghost use Rattle.page_model.specs.Runs.{is_near, chunk_of};
ghost use Rattle.machine_state.specs.Going.{IsRunning};
ghost use Rattle.paged_model.specs.Moves.{has_zeros, no_frame, few_frames, no_room, is_shared, unshared, due_first, zero_due, wrong_length, apart, not_among};

use crate::reasons::{or_reason, unless};
use flat_state::{beside, is_same, number_of};
use machine_state::Machine;
use paged_model::Reason;
use swap_dmap::{place_of, text_place_of};
use vm_facts::{MOST_IN_FLIGHT, Page, PageState};

/// The pages of one transfer at most.
const MOST_MOVED: u32 = 16;

// The chunk of a data or stack page, or the piece of a text page.
fn chunk_of(page: Page) -> u32
    ensures { result ≡ chunk_of page }
{
    match page {
        Page::Data { v, .. } => place_of(v, false).0,
        Page::Stack { v, .. } => place_of(v, true).0,
        Page::Text { v, .. } => text_place_of(v).0,
    }
}

fn is_near(page: Page, other: u32) -> bool
    ensures { result ≡ is_near page other }
{
    chunk_of(page) == chunk_of(beside(page, other))
}

/// A page that isn't near another, with which it would be moved.
pub fn apart(page: Page, other: Page) -> Option<Reason>
    ensures { result ≡ apart page other }
{
    unless(is_near(page, number_of(other)), Reason::InOtherChunk(other))
}

/// A transfer has 1 to 16 pages.
pub fn wrong_length(n: u32) -> Option<Reason>
    ensures { result ≡ wrong_length n }
{
    unless(n > 0 && n <= MOST_MOVED, Reason::WrongLength)
}

/// The state of a page; that of one that was never filled where it isn't there.
pub fn state(m: &Machine, page: Page) -> PageState
    requires { IsRunning m.now }
    ensures { result ≡ state_of m.now.kernel.place page }
{
    match m.state_of(page) {
        Some(state) => state,
        None => PageState::Unfilled,
    }
}

/// Whether a page that was never filled is filled with zeros.
pub fn has_zeros(m: &Machine, page: Page) -> bool
    requires running { IsRunning m.now }
    requires there { IsThere m.now.kernel.place page }
    requires unfilled { state_of m.now.kernel.place page ≡ Unfilled }
    ensures { result ≡ has_zeros (filling_of m.now.kernel.place page) }
{
    m.is_blank(page)
}

/// No frame is free.
pub fn no_frame(m: &Machine) -> Option<Reason>
    ensures { result ≡ no_frame m.now.kernel.place.free }
{
    unless(m.free_frames() > 0, Reason::NoFrame)
}

/// Fewer frames are free than so many.
pub fn few_frames(m: &Machine, n: u32) -> Option<Reason>
    ensures { result ≡ few_frames m.now.kernel.place.free n }
{
    let free = m.free_frames();
    if free == 0 {
        return Some(Reason::NoFrame);
    }
    unless(n <= free, Reason::FewFrames(free))
}

/// As many transfers are in flight as may be.
pub fn no_room(m: &Machine) -> Option<Reason>
    ensures { result ≡ no_room m.now.kernel.place }
{
    unless(m.in_flight() < MOST_IN_FLIGHT, Reason::FullFlight)
}

fn is_shared(m: &Machine, page: Page) -> bool
    requires { IsRunning m.now }
    ensures { result ≡ is_shared m.now.kernel.place page }
{
    match page {
        Page::Data { .. } | Page::Stack { .. } => true,
        Page::Text { image, .. } => m.sharer(image).is_some(),
    }
}

/// No space shares the text of the page.
pub fn unshared(m: &Machine, page: Page) -> Option<Reason>
    requires { IsRunning m.now }
    ensures { result ≡ unshared m.now.kernel.place page }
{
    unless(is_shared(m, page), Reason::Unshared(page))
}

/// Another page is due first than this one, or a copy is.
pub fn zero_due(m: &Machine, page: Page) -> Option<Reason>
    ensures { result ≡ zero_due m.now.kernel.place.due page }
{
    match m.due_at(0) {
        None => None,
        Some((due, None)) => unless(is_same(due, page), Reason::DueFirst(due)),
        Some((due, Some(_))) => Some(Reason::DueFirst(due)),
    }
}

/// The page is none of 1 to 16 pages from this one on.
pub fn not_among(page: Page, lo: u32, n: u32) -> Option<Reason>
    ensures { result ≡ not_among page lo n }
{
    let number = number_of(page);
    or_reason(
        wrong_length(n),
        unless(lo <= number && number - lo < n, Reason::NotAmong(page)),
    )
}

/// A page is due.
pub fn due_first(m: &Machine) -> Option<Reason>
    ensures { result ≡ due_first m.now.kernel.place.due }
{
    match m.due() {
        None => None,
        Some(page) => Some(Reason::DueFirst(page)),
    }
}
