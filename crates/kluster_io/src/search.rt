//! Walks from a page to its neighbours, as far as they go along. What goes along is for the kind of search to say. A
//! run may not leave its chunk of swap, nor the bounds of its segment.
ghost use Rattle.std.specs.Prelude.{◌≡◌, ℕ, ◌+◌, ◌-◌, ◌<◌, ◌≤◌, ◌&&◌, ◌||◌, not, Bool, IsTrue, IsSome, Some, List};
ghost use Rattle.core_map.specs.declared.slot.Slot.{Slot};
ghost use Rattle.flat_state.specs.PageNames.{number_of, beside, is_among};
ghost use Rattle.space_map.specs.Space.{place_in};
ghost use Rattle.page_model.specs.Placement.{Placement};
ghost use Rattle.page_model.specs.Pages.{is_on_swap, is_unfilled, is_valid};
ghost use Rattle.page_model.specs.Runs.{chunk_of, is_seated_by, passing_above, passing_below, run_both, run_up};
ghost use Rattle.table_view.specs.Shown.{state_shown, ShowsMark};
ghost use Rattle.kluster_io.specs.Front.{is_front};
ghost use Rattle.kluster_io.specs.Joining.{joins, IsShownBy, SaysTaken};

use core_map::{CoreMap, Whose};
use flat_state::{beside, is_among, is_same, number_of};
use space_map::SpaceMap;
use swap_dmap::{place_of, text_place_of};
use vax_pte::Place;
use vm_facts::Page;

/// What neighbours are sought for.
#[derive(Clone, Copy, Drop)]
pub(crate) enum Kin<'l> {
    /// To be read from swap with the page: those that are only on swap, near it.
    OnSwap,
    /// To be read from the file with a page of text: those that are unfilled.
    Unfilled,
    /// To be written with the page by the back hand: those near it that are dirty and invalid in a frame off the free
    /// list, where they aren't locked. The page that the front hand makes invalid in the same move counts as such.
    Idle {
        locked: &'l [Page],
        front: Option<Page>,
    },
    /// To be written with the page at a swap-out: those near it that are dirty in a frame off the free list.
    Seated,
}

/// The neighbours of a page that are sought.
#[derive(Clone, Copy, Drop)]
pub(crate) struct Search<'s, 'c, 'l> {
    pub(crate) space: &'s SpaceMap,
    pub(crate) core: &'c CoreMap,
    pub(crate) page: Page,
    pub(crate) kin: Kin<'l>,
}

// The chunk of a data or stack page, or the piece of a text page.
fn chunk_of(page: Page) -> u32
    ensures { result ≡ chunk_of page }
{
    match page {
        Page::Data { v, .. } => place_of(v, false).0,
        Page::Stack { v, .. } => place_of(v, true).0,
        Page::Text { v, .. } => text_place_of(v).0,
    }
}

/// Whether a page in this place is only on swap.
pub(crate) fn is_on_swap(place: Place) -> bool
    ensures { (slots : List Slot) → result ≡ is_on_swap (state_shown slots place) }
{
    matches!(place, Place::Swap)
}

/// Whether a page in this place is unfilled.
pub(crate) fn is_unfilled(place: Place) -> bool
    ensures { (slots : List Slot) → result ≡ is_unfilled (state_shown slots place) }
{
    matches!(place, Place::Zero | Place::Image(_))
}

fn is_valid(place: Place) -> bool
    ensures { (slots : List Slot) → result ≡ is_valid (state_shown slots place) }
{
    matches!(place, Place::Frame { valid: true, .. })
}

/// Whether a page is dirty in a frame off the free list.
pub fn is_dirty_seat(core: &CoreMap, place: Place) -> bool
    ensures { (p : Placement) (dirty : Bool) → p.free ≡ core.now.free → ShowsMark core.now.slots place dirty
        → result ≡ (is_seated_by p (state_shown core.now.slots place) && dirty) }
{
    let Place::Frame { f, .. } = place else {
        return false;
    };
    match core.owner(f) {
        Whose::Resident(_) => core.is_dirty(f),
        Whose::Free(_) | Whose::Away => false,
    }
}

// Whether a page isn't valid once the front hand has made its page invalid.
fn is_open(page: Page, place: Place, front: Option<Page>) -> bool
    ensures { (slots : List Slot) → result ≡ (is_front page front || not (is_valid (state_shown slots place))) }
{
    match front {
        Some(other) if is_same(page, other) => true,
        _ => !is_valid(place),
    }
}

// Whether the back hand may take a page: it isn't locked, nor valid once the front hand has made its page invalid.
fn may_take(page: Page, place: Place, locked: &[Page], front: Option<Page>) -> bool
    ensures { (slots : List Slot)
        → result ≡ (not (is_among page locked.now)
        && (is_front page front || not (is_valid (state_shown slots place)))) }
{
    !is_among(page, locked) && is_open(page, place, front)
}

// Whether the back hand takes a page along: it is dirty in a frame off the free list, and may be taken.
fn is_taken(core: &CoreMap, page: Page, place: Place, locked: &[Page], front: Option<Page>) -> bool
    ensures { SaysTaken core.now.free core.now.slots page place locked.now front result }
{
    core.stands();
    is_dirty_seat(core, place) && may_take(page, place, locked, front)
}

impl Search<'_, '_, '_> {
    // Whether page `v` of the segment goes along, which is in this place.
    fn goes(&self, v: u32, place: Place) -> bool
        ensures { (p : Placement) → IsShownBy p self.now
            → place_in self.now.space.now (beside self.now.page v) ≡ Some place
            → result ≡ joins p self.now.kin self.now.page v }
    {
        let page = beside(self.page, v);
        let near = chunk_of(self.page) == chunk_of(page);
        match self.kin {
            Kin::OnSwap => is_on_swap(place) && near,
            Kin::Unfilled => is_unfilled(place),
            Kin::Idle { locked, front } => is_taken(self.core, page, place, locked, front) && near,
            Kin::Seated => is_dirty_seat(self.core, place) && near,
        }
    }

    // Whether page `v` of the segment goes along.
    fn passes(&self, v: u32) -> bool
        ensures joins { (p : Placement) → IsShownBy p self.now → result ≡ joins p self.now.kin self.now.page v }
        ensures there { IsTrue result → IsSome (place_in self.now.space.now (beside self.now.page v)) }
    {
        match self.space.place(beside(self.page, v)) {
            Some(place) => self.goes(v, place),
            None => false,
        }
    }

    // The pages of the segment are few.
    fn are_few(&self)
        ensures { (v : ℕ) → IsSome (place_in self.now.space.now (beside self.now.page v)) → v < 4096 }
    {
        self.space.fits();
    }

    // How many pages above page `v` go along in turn, at most so many.
    fn above(&self, v: u32, room: u32) -> u32
        requires { IsSome (place_in self.now.space.now (beside self.now.page v)) }
        ensures count { (p : Placement) → IsShownBy p self.now
            → result ≡ passing_above (joins p self.now.kin self.now.page) v room }
        ensures few { result ≤ room }
    {
        self.are_few();
        if room == 0 || !self.passes(v + 1) {
            return 0;
        }
        1 + self.above(v + 1, room - 1)
    }

    // How many pages below page `v` go along in turn, at most so many.
    fn below(&self, v: u32, room: u32) -> u32
        ensures count { (p : Placement) → IsShownBy p self.now
            → result ≡ passing_below (joins p self.now.kin self.now.page) v room }
        ensures few { result ≤ room }
        ensures within { result ≤ v }
    {
        if v == 0 || room == 0 || !self.passes(v - 1) {
            return 0;
        }
        1 + self.below(v - 1, room - 1)
    }

    /// The page and its neighbours that go along, those above first, at most so many in all: the lowest page and the
    /// count.
    pub(crate) fn both(&self, most: u32) -> (u32, u32)
        requires of_space { IsSome (place_in self.now.space.now self.now.page) }
        requires some { 1 ≤ most }
        ensures { (p : Placement) → IsShownBy p self.now
            → run_both (joins p self.now.kin self.now.page) (number_of self.now.page) most
            ≡ record { lo = result.0; n = result.1 } }
    {
        let v = number_of(self.page);
        let above = self.above(v, most - 1);
        let below = self.below(v, most - 1 - above);
        (v - below, below + 1 + above)
    }

    /// How many pages the page and its neighbours above are that go along, at most so many in all.
    pub(crate) fn up(&self, most: u32) -> u32
        requires of_space { IsSome (place_in self.now.space.now self.now.page) }
        requires some { 1 ≤ most }
        ensures { (p : Placement) → IsShownBy p self.now
            → run_up (joins p self.now.kin self.now.page) (number_of self.now.page) most
            ≡ record { lo = number_of self.now.page; n = result } }
    {
        1 + self.above(number_of(self.page), most - 1)
    }
}
