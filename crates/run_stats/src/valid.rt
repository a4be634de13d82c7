//! How many frames hold a valid page, counted over the core map.
ghost use Rattle.std.specs.Prelude.{◌≡◌, ◌≤◌};
ghost use Rattle.page_model.specs.Placement.{IsFrame, state_of};
ghost use Rattle.machine_state.specs.Going.{IsRunning};
ghost use Rattle.machine_state.specs.Showing.{ShowsCore};
ghost use Rattle.run_stats.specs.Looks.{valid_one, valid_frame, valid_frames};
ghost use Rattle.run_stats.specs.Seen.{valid_by};

use core_map::{CoreMap, Whose};
use machine_state::Machine;
use vm_facts::{Page, PageState};

// 1 for a page that is valid.
fn valid_page(machine: &Machine, page: Page) -> u32
    requires { IsRunning machine.now }
    ensures value { result ≡ valid_one (state_of machine.now.kernel.place page) }
    ensures most { result ≤ 1 }
{
    match machine.state_of(page) {
        Some(PageState::Valid(_)) => 1,
        _ => 0,
    }
}

// 1 for the page of a frame that is neither free nor in a transfer, where that page is valid.
fn valid_by(machine: &Machine, whose: Whose) -> u32
    requires { IsRunning machine.now }
    ensures value { result ≡ valid_by machine.now.kernel.place whose }
    ensures most { result ≤ 1 }
{
    match whose {
        Whose::Resident(page) => valid_page(machine, page),
        Whose::Free(_) | Whose::Away => 0,
    }
}

// 1 for a frame whose page is valid.
fn valid_frame(machine: &Machine, core: &CoreMap, frame: u32) -> u32
    requires running { IsRunning machine.now }
    requires shows { ShowsCore machine.now.kernel.place core.now }
    requires frame { IsFrame machine.now.kernel.place frame }
    ensures value { result ≡ valid_frame machine.now.kernel.place frame }
    ensures most { result ≤ 1 }
{
    valid_by(machine, core.owner(frame))
}

/// How many frames have a page that is valid.
pub(crate) fn valid_frames(machine: &Machine) -> u32
    requires { IsRunning machine.now }
    ensures { result ≡ valid_frames machine.now.kernel.place }
{
    let core = machine.core();
    let mut valid = 0;
    for before in 0..core.frames() {
        valid += valid_frame(machine, core, before + 1);
    }
    valid
}
