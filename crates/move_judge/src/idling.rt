//! Whether a page is invalid in a frame off the free list, and why not. Nothing may change here.
ghost use Rattle.std.specs.Prelude.{◌≡◌, ◌==◌, true};
ghost use Rattle.vm_facts.specs.Lists.{times};
ghost use Rattle.page_model.specs.Placement.{is_dirty};
ghost use Rattle.page_model.specs.Runs.{is_idle};
ghost use Rattle.machine_state.specs.Going.{IsRunning};
ghost use Rattle.paged_model.specs.Leaving.{unseated_by};
ghost use Rattle.paged_model.specs.Parts.{busy_if, busy};

use crate::looking::state;
use core_map::{CoreMap, Whose};
use machine_state::Machine;
use paged_model::Reason;
use vm_facts::{Page, PageState};

// Whether a frame is off the free list.
fn is_off_list(core: &CoreMap, frame: u32) -> bool
    ensures { result ≡ (times frame core.now.free == 0) }
{
    !matches!(core.owner(frame), Whose::Free(_))
}

/// Whether a page is invalid in a frame off the free list.
pub(crate) fn is_idle(m: &Machine, page: Page) -> bool
    requires { IsRunning m.now }
    ensures { result ≡ is_idle m.now.kernel.place page }
{
    match state(m, page) {
        PageState::Invalid(frame) => is_off_list(m.core(), frame),
        _ => false,
    }
}

/// Whether such a page has to be written.
pub(crate) fn is_dirty(m: &Machine, page: Page) -> bool
    requires running { IsRunning m.now }
    requires idle { is_idle m.now.kernel.place page ≡ true }
    ensures { result ≡ is_dirty m.now.kernel.place page }
{
    match state(m, page) {
        PageState::Invalid(frame) => m.core().is_dirty(frame),
        _ => unreachable!(),
    }
}

// Why a page in this state isn't invalid in a frame off the free list.
fn unseated_by(page: Page, state: PageState) -> Option<Reason>
    ensures { result ≡ unseated_by page state }
{
    match state {
        PageState::Invalid(_) => Some(Reason::FrameIsFree(page)),
        state => Some(Reason::InState(page, state)),
    }
}

fn busy_if(m: &Machine, page: Page, idle: bool) -> Option<Reason>
    requires { IsRunning m.now }
    ensures { result ≡ busy_if m.now.kernel.place page idle }
{
    if idle {
        None
    } else {
        unseated_by(page, state(m, page))
    }
}

/// A page isn't invalid in a frame off the free list.
pub(crate) fn busy(m: &Machine, page: Page) -> Option<Reason>
    requires { IsRunning m.now }
    ensures { result ≡ busy m.now.kernel.place page }
{
    busy_if(m, page, is_idle(m, page))
}
