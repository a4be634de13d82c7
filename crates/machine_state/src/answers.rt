//! What the machine tells of its tables to the crates above. Nothing may change here.
ghost use Rattle.std.specs.Prelude.{◌≡◌, ◌↔◌, false, length, map, IsSome, IfSome, slice_get, option_copied, option_map};
ghost use Rattle.core_map.specs.Frames.{Frames};
ghost use Rattle.table_steps.specs.Views.{ShowsSpace};
ghost use Rattle.kernel_model.specs.Asks.{HasSpace};
ghost use Rattle.proc_table.specs.Records.{Lowest};
ghost use Rattle.page_model.specs.Placement.{image_of, parts_of};
ghost use Rattle.table_steps.specs.Machine.{image_shown};
ghost use Rattle.table_steps.specs.Calls.{first_due, due_and_parent};
ghost use Rattle.table_steps.specs.Sharing.{IsSharer};
ghost use Rattle.table_steps.specs.Sourced.{IsFlightSourced};
ghost use Rattle.table_steps.specs.View.{transfer_shown};
ghost use Rattle.machine_state.specs.Going.{IsRunning};
ghost use Rattle.machine_state.specs.Showing.{ShowsCore, IsShown};

use crate::machine::Machine;
use core_map::CoreMap;
use swap_book::Held;
use table_steps::kernel_tables::Named;
use table_steps::space_map::SpaceMap;
use transfer_ring::Transfer;
use vm_facts::{Page, Params};

impl Machine {
    /// How many transfers are in flight.
    pub fn in_flight(&self) -> u32
        ensures { result ≡ length self.now.kernel.place.transfers }
    {
        self.tables.ring.len()
    }

    /// The transfer in flight at this place, 0 for the oldest; None where there are not so many. In a machine that runs
    /// each of its pages is moved from or to its own two blocks of swap, or comes from a range of its image's file.
    pub fn transfer(&self, place: u32) -> Option<&Transfer>
        ensures transfer { option_map transfer_shown (option_copied result) ≡ slice_get self.now.kernel.place.transfers place }
        ensures sources { self.now.kernel.stopped ≡ false
            → IfSome result (λ t. IsFlightSourced self.now.images (image_of self.now.kernel.place) self.now.before self.now.params.swap_blocks t.now) }
    {
        self.tables.ring.get(place)
    }

    /// How many frames are in transfers.
    pub fn moving_frames(&self) -> u32
        ensures { result ≡ length (parts_of self.now.kernel.place.transfers) }
    {
        self.tables.ring.pages()
    }

    /// The core map.
    pub fn core(&self) -> &CoreMap
        requires { IsRunning self.now }
        ensures { ShowsCore self.now.kernel.place result.now }
    {
        self.tables.core.stands();
        &self.tables.core
    }

    /// The page places of the space with this number; None exactly where there is none. With any core map that shows
    /// the placement they tell the state of each page of the space and of its text, and where it is in a frame off the
    /// free list, whether it is dirty.
    pub fn space(&self, sid: u32) -> Option<&SpaceMap>
        requires { IsRunning self.now }
        ensures there { IsSome result ↔ HasSpace self.now.kernel.place sid }
        ensures named { IfSome result (λ s. s.now.sid ≡ sid) }
        ensures of_image { IfSome result (λ s. s.now.image ≡ image_of self.now.kernel.place sid) }
        ensures shows { IfSome result (λ s. (core : Frames) → ShowsCore self.now.kernel.place core → ShowsSpace self.now.kernel.place core s.now) }
        ensures shown { IfSome result (λ s. IsShown self.now.kernel.place s.now) }
    {
        self.tables.core.stands();
        let index = self.tables.spaces.index_of(sid)?;
        let space = self.tables.spaces.at(index);
        space.fits();
        Some(space)
    }

    /// Who holds which pieces of swap, those that `ask` found last after the others.
    pub fn holdings(&self) -> &[Held]
        ensures { result.now ≡ self.now.kernel.holdings }
    {
        self.tables.book.holdings()
    }

    /// Who holds which pieces of swap, without those that `ask` found last for an entry that comes yet.
    pub fn holdings_before(&self) -> &[Held]
        ensures { result.now ≡ self.now.before }
    {
        let held = self.tables.book.holdings();
        &held[..held.len().saturating_sub(self.tables.found)]
    }

    /// The frames at which the front hand and the back hand stand.
    pub fn hands(&self) -> (u32, u32)
        ensures front { result.0 ≡ self.now.kernel.place.front }
        ensures back { result.1 ≡ self.now.kernel.place.back }
    {
        (self.tables.front, self.tables.back)
    }

    /// The sizes of the run.
    pub fn params(&self) -> &Params
        ensures { result.now ≡ self.now.params }
    {
        &self.tables.params
    }

    /// The images, that of number 1 first.
    pub fn images(&self) -> &[Named]
        ensures { map image_shown result.now ≡ self.now.images }
    {
        self.tables.images.as_slice()
    }

    /// The numbers of the next process and of the next space.
    pub fn next_numbers(&self) -> (u32, u32)
        ensures process { result.0 ≡ self.now.kernel.next_pid }
        ensures space { result.1 ≡ self.now.kernel.next_sid }
    {
        (self.tables.next_pid, self.tables.next_sid)
    }

    /// The space of the lowest number that shares an image's text; None exactly where none does.
    pub fn sharer(&self, image: u32) -> Option<u32>
        ensures { Lowest (IsSharer self.now.kernel.place image) result }
    {
        self.tables.spaces.sharer(image)
    }

    /// The first page that is due for a fill; None exactly where none is.
    pub fn due(&self) -> Option<Page>
        ensures { result ≡ first_due self.now.kernel.place.due }
    {
        Some(self.tables.fills.front()?.page())
    }

    /// How many pages are due for a fill.
    pub fn due_count(&self) -> usize
        ensures { result ≡ length self.now.kernel.place.due }
    {
        self.tables.fills.len()
    }

    /// The page that is due for a fill at this place, 0 for the first, and its parent's page, where it is a copy of that
    /// one; None where there are not so many.
    pub fn due_at(&self, place: usize) -> Option<(Page, Option<Page>)>
        ensures { result ≡ option_map due_and_parent (slice_get self.now.kernel.place.due place) }
    {
        let fill = self.tables.fills.get(place)?;
        Some((fill.page(), fill.parent()))
    }
}
