//! The state of a page, by its entry and the core map. It may be stored nowhere: it is told anew each time.
ghost use Rattle.std.specs.Prelude.{◌≡◌};
ghost use Rattle.core_map.specs.Slots.{slot_at};
ghost use Rattle.kernel_tables.specs.TableViewShown.{is_away, idle_state, state_shown};

use core_map::{CoreMap, Whose};
use vax_pte::Place;
use vm_facts::PageState;

// The state of a page that has this frame, and isn't valid.
fn idle_state(core: &CoreMap, frame: u32, changed: bool) -> PageState
    ensures { result ≡ idle_state frame (is_away (slot_at core.now.slots frame)) changed }
{
    match core.owner(frame) {
        Whose::Free(_) | Whose::Resident(_) => PageState::Invalid(frame),
        Whose::Away => {
            if changed {
                PageState::Going(frame)
            } else {
                PageState::Coming(frame)
            }
        }
    }
}

/// The state of a page, by its entry.
pub fn state_shown(core: &CoreMap, place: Place) -> PageState
    ensures { result ≡ state_shown core.now.slots place }
{
    match place {
        Place::Zero | Place::Image(_) => PageState::Unfilled,
        Place::Swap => PageState::OnSwap,
        Place::Frame { f, valid: true, .. } => PageState::Valid(f),
        Place::Frame { f, changed, .. } => idle_state(core, f, changed),
    }
}
