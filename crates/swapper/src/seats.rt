//! Which pages of a space are in frames off the free list, data before stack. Nothing may be moved here.
ghost use Rattle.std.specs.Prelude.{◌≡◌, ℕ, ◌≤◌, Bool, true};
ghost use Rattle.flat_state.specs.PageNames.{beside, pages_from};
ghost use Rattle.page_model.specs.Placement.{Placement, is_dirty};
ghost use Rattle.page_model.specs.Runs.{is_seated, is_seated_by};
ghost use Rattle.page_model.specs.Swapper.{first_seated, seated_count};
ghost use Rattle.page_model.specs.Place.{pages_of_space};
ghost use Rattle.table_view.specs.Shown.{state_shown, ShowsMark};
ghost use Rattle.table_view.specs.Views.{IsNamedBy, ShowsSpace};

use core_map::{CoreMap, Whose};
use flat_state::beside;
use kluster_io::is_dirty_seat;
use space_map::SpaceMap;
use vax_pte::Place;
use vm_facts::Page;

// Whether a page in this place is in a frame off the free list.
fn is_seat(core: &CoreMap, place: Place) -> bool
    ensures { (p : Placement) (dirty : Bool) → p.free ≡ core.now.free → ShowsMark core.now.slots place dirty
        → result ≡ is_seated_by p (state_shown core.now.slots place) }
{
    let Place::Frame { f, .. } = place else {
        return false;
    };
    matches!(core.owner(f), Whose::Resident(_))
}

/// Whether a page of the space is in a frame off the free list.
pub fn is_seated(core: &CoreMap, space: &SpaceMap, page: Page) -> bool
    ensures { (p : Placement) → ShowsSpace p core.now space.now → IsNamedBy space.now page → result ≡ is_seated p page }
{
    match space.place(page) {
        Some(place) => is_seat(core, place),
        None => false,
    }
}

/// Whether a page of the space is dirty in a frame off the free list.
pub fn is_dirty(core: &CoreMap, space: &SpaceMap, page: Page) -> bool
    ensures { (p : Placement) → ShowsSpace p core.now space.now → IsNamedBy space.now page → is_seated p page ≡ true
        → result ≡ is_dirty p page }
{
    match space.place(page) {
        Some(place) => is_dirty_seat(core, place),
        None => false,
    }
}

// The first of so many pages of a segment that is in a frame off the free list.
fn first_in(core: &CoreMap, space: &SpaceMap, segment: Page, pages: u32) -> Option<Page>
    ensures { (p : Placement) → ShowsSpace p core.now space.now → ((v : ℕ) → IsNamedBy space.now (beside segment v))
        → result ≡ first_seated p (pages_from segment 0 pages) }
{
    let mut v = 0;
    while let Some(framed) = space.next_in_frame(segment, v, pages) {
        let page = beside(segment, framed);
        if is_seated(core, space, page) {
            return Some(page);
        }
        v = framed + 1;
    }
    None
}

// How many of so many pages of a segment are in frames off the free list.
fn count_in(core: &CoreMap, space: &SpaceMap, segment: Page, pages: u32) -> u32
    ensures few { result ≤ pages }
    ensures count { (p : Placement) → ShowsSpace p core.now space.now → ((v : ℕ) → IsNamedBy space.now (beside segment v))
        → result ≡ seated_count p (pages_from segment 0 pages) }
{
    let mut count = 0;
    let mut v = 0;
    while let Some(framed) = space.next_in_frame(segment, v, pages) {
        if is_seated(core, space, beside(segment, framed)) {
            count += 1;
        }
        v = framed + 1;
    }
    count
}

/// The first page of a space, data first, that is in a frame off the free list.
pub(crate) fn first_seated(core: &CoreMap, space: &SpaceMap) -> Option<Page>
    ensures { (p : Placement) → ShowsSpace p core.now space.now → result ≡ first_seated p (pages_of_space p space.now.sid) }
{
    let sid = space.sid();
    match first_in(core, space, Page::Data { sid, v: 0 }, space.data_pages()) {
        Some(page) => Some(page),
        None => first_in(core, space, Page::Stack { sid, v: 0 }, space.stack_pages()),
    }
}

/// How many pages of a space's data and stack are in frames off the free list.
pub(crate) fn seated_count(core: &CoreMap, space: &SpaceMap) -> u32
    ensures { (p : Placement) → ShowsSpace p core.now space.now → result ≡ seated_count p (pages_of_space p space.now.sid) }
{
    let sid = space.sid();
    count_in(core, space, Page::Data { sid, v: 0 }, space.data_pages())
        + count_in(core, space, Page::Stack { sid, v: 0 }, space.stack_pages())
}
