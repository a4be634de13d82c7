//! What the next move of the hands will do, told without moving them. Who moves the hands looks first, because a
//! write needs room among the transfers. The machine may not change here.
ghost use Rattle.std.specs.Prelude.{◌≡◌, ◌<◌, ◌/◌, length, IfSome, IsSome};
ghost use Rattle.page_model.specs.Pages.{is_valid};
ghost use Rattle.page_model.specs.Placement.{state_of, IsThere};
ghost use Rattle.page_model.specs.Hands.{hand_run};
ghost use Rattle.page_model.specs.Conditions.{IsShared};
ghost use Rattle.paging_units.specs.Going.{IsRunning};
ghost use Rattle.paging_units.specs.Calls.{IsRunOf};
ghost use Rattle.kluster_io.specs.Front.{Expires};
ghost use Rattle.clock_hands.specs.Seen.{IsUnlocked, IsToWrite, IsHome};

use core_map::Whose;
use flat_state::is_among;
use kluster_io::pick_out;
use paging_units::machine_state::Machine;
use space_map::SpaceMap;
use vm_facts::{Page, PageState};

// The space of a page, or the lowest one that shares its text.
fn space_of(m: &Machine, page: Page) -> Option<&SpaceMap>
    requires running { IsRunning m.now }
    requires there { IsThere m.now.kernel.place page }
    requires shared { IsShared m.now.kernel.place page }
    ensures found { IsSome result }
    ensures home { IfSome result (λ s. IsHome m.now.kernel.place page s.now) }
{
    match page {
        Page::Data { sid, .. } | Page::Stack { sid, .. } => m.space(sid),
        Page::Text { image, .. } => m.space(m.sharer(image)?),
    }
}

// The page of a frame off the free list, unless it is locked.
fn unlocked_page(m: &Machine, frame: u32, locked: &[Page]) -> Option<Page>
    requires { IsRunning m.now }
    ensures { IsUnlocked m.now.kernel.place locked.now frame result }
{
    let core = m.core();
    let Whose::Resident(page) = core.owner(frame) else {
        return None;
    };
    if is_among(page, locked) {
        None
    } else {
        Some(page)
    }
}

fn is_valid(m: &Machine, page: Page) -> bool
    requires running { IsRunning m.now }
    requires there { IsThere m.now.kernel.place page }
    ensures { result ≡ is_valid (state_of m.now.kernel.place page) }
{
    matches!(m.state_of(page), Some(PageState::Valid(_)))
}

/// The page that the front hand's next move makes invalid; None where it makes none so.
pub(crate) fn expiring(m: &Machine, locked: &[Page]) -> Option<Page>
    requires { IsRunning m.now }
    ensures { Expires m.now.kernel.place locked.now result }
{
    let page = unlocked_page(m, m.hands().0, locked)?;
    if is_valid(m, page) { Some(page) } else { None }
}

/// The page whose write the back hand's next move begins; None where it begins none. The entry of a page is looked at only where the
/// frame's mark says that it is dirty.
pub(crate) fn to_write(m: &Machine, locked: &[Page]) -> Option<Page>
    requires running { IsRunning m.now }
    requires quarter { 0 < length m.now.kernel.place.holds / 4 }
    ensures { IsToWrite m.now.kernel.place locked.now result }
{
    let back = m.hands().1;
    let page = unlocked_page(m, back, locked)?;
    if !m.core().is_dirty(back) {
        return None;
    }
    if is_valid(m, page) { None } else { Some(page) }
}

/// The run of the write that the next move begins: its lowest page and its count, which is 0 where it begins none.
pub fn next_write(m: &Machine, locked: &[Page]) -> (u32, u32)
    requires running { IsRunning m.now }
    requires quarter { 0 < length m.now.kernel.place.holds / 4 }
    ensures { IsRunOf (hand_run m.now.kernel.place locked.now) result.0 result.1 }
{
    let Some(page) = to_write(m, locked) else {
        return (0, 0);
    };
    match space_of(m, page) {
        Some(space) => pick_out(space, m.core(), page, locked, expiring(m, locked)),
        None => (0, 0),
    }
}
