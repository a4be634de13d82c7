//! Runs: which neighbours of a page are read or written with it (the 4.3BSD book has klustering; the rules are this
//! project's profile). The tables are looked at alone; to move the pages is the caller's matter.
#![tactic(auto)]

ghost use Rattle.std.specs.Prelude.{◌≡◌, ℕ, ◌+◌, ◌≤◌, true, IsSome};
ghost use Rattle.space_map.specs.Space.{place_in};
ghost use Rattle.page_model.specs.Placement.{Placement};
ghost use Rattle.page_model.specs.Runs.{spare_frames, run_in, run_in_by, run_out, run_put, is_seated};
ghost use Rattle.page_model.specs.Hands.{expire};
ghost use Rattle.vm_facts.specs.declared.page.PageState.TheVariants as PageState;
ghost use Rattle.table_view.specs.Views.{ShowsSpace};
ghost use Rattle.kluster_io.specs.Front.{Expires};

mod search;

use core_map::CoreMap;
use flat_state::number_of;
pub use search::is_dirty_seat;
use search::{Kin, Search};
use space_map::SpaceMap;
use vm_facts::Page;

/// The data or stack pages of one read at most.
const MOST_READ: u32 = 4;

/// The text pages of one read at most.
const MOST_TEXT_READ: u32 = 2;

/// The pages of one write at most.
const MOST_WRITTEN: u32 = 16;

// The run of a read from swap.
fn pick_from_swap(space: &SpaceMap, core: &CoreMap, page: Page, spare: u32) -> (u32, u32)
    requires of_space { IsSome (place_in space.now page) }
    requires some { 1 ≤ spare }
    ensures { (p : Placement) → ShowsSpace p core.now space.now
        → run_in_by p page PageState.OnSwap spare ≡ record { lo = result.0; n = result.1 } }
{
    let search = Search {
        space,
        core,
        page,
        kin: Kin::OnSwap,
    };
    match page {
        Page::Data { .. } | Page::Stack { .. } => search.both(MOST_READ.min(spare)),
        Page::Text { v, .. } => (v, search.up(MOST_TEXT_READ.min(spare))),
    }
}

// The run of a read from the file.
fn pick_from_file(space: &SpaceMap, core: &CoreMap, page: Page, spare: u32) -> (u32, u32)
    requires of_space { IsSome (place_in space.now page) }
    requires some { 1 ≤ spare }
    ensures { (p : Placement) → ShowsSpace p core.now space.now
        → run_in_by p page PageState.Unfilled spare ≡ record { lo = result.0; n = result.1 } }
{
    let search = Search {
        space,
        core,
        page,
        kin: Kin::Unfilled,
    };
    match page {
        Page::Data { v, .. } | Page::Stack { v, .. } => (v, 1),
        Page::Text { v, .. } => (v, search.up(MOST_TEXT_READ.min(spare))),
    }
}

/// The run of a read that begins for a page of the space: its lowest page and its count. Of data and stack it has at
/// most 4 pages of one chunk that are on swap; of text at most 2, both on swap in one piece or both only in the file; and
/// of any other page the page alone. At most `spare` frames may be taken, at least 1.
pub fn pick_in(space: &SpaceMap, core: &CoreMap, page: Page, spare: u32) -> (u32, u32)
    requires of_space { IsSome (place_in space.now page) }
    requires some { 1 ≤ spare }
    ensures { (p : Placement) → ShowsSpace p core.now space.now → spare ≡ spare_frames p
        → run_in p page ≡ record { lo = result.0; n = result.1 } }
{
    match space.place(page) {
        Some(place) if search::is_on_swap(place) => pick_from_swap(space, core, page, spare),
        Some(place) if search::is_unfilled(place) => pick_from_file(space, core, page, spare),
        _ => (number_of(page), 1),
    }
}

/// The run of a write that the back hand begins with a page of the space: its lowest page and its count, at most 16.
/// The others wait to be written too: each is invalid in a frame off the free list, dirty, not locked, and of one chunk
/// with the page. `front` is the page that the same move makes invalid, and counts as such.
pub fn pick_out(
    space: &SpaceMap,
    core: &CoreMap,
    page: Page,
    locked: &[Page],
    front: Option<Page>,
) -> (u32, u32)
    requires { IsSome (place_in space.now page) }
    ensures { (p : Placement) → ShowsSpace p core.now space.now → Expires p locked.now front
        → run_out (expire p locked.now) locked.now page ≡ record { lo = result.0; n = result.1 } }
{
    let search = Search {
        space,
        core,
        page,
        kin: Kin::Idle { locked, front },
    };
    search.both(MOST_WRITTEN)
}

/// The count of the run of a `Put` from a page of the space on, upwards: at most 16 dirty pages of one chunk, each in a
/// frame off the free list; 1 for a clean page. The page is in a frame off the free list.
pub fn pick_put(space: &SpaceMap, core: &CoreMap, page: Page) -> u32
    requires { IsSome (place_in space.now page) }
    ensures { (p : Placement) → ShowsSpace p core.now space.now → is_seated p page ≡ true
        → result ≡ (run_put p page).n }
{
    match space.place(page) {
        Some(place) if search::is_dirty_seat(core, place) => {
            let search = Search {
                space,
                core,
                page,
                kin: Kin::Seated,
            };
            search.up(MOST_WRITTEN)
        }
        _ => 1,
    }
}
