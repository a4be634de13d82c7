//! The pages in the cache, in the order in which they are to leave. The one used again last, or never, goes first.
ghost use Rattle.std.specs.Prelude.{◌≡◌, ℕ, ◌+◌, ◌<◌, ◌≤◌, ◌^◌, false, true, IfOk, OnOk};
ghost use Rattle.std.specs.Option.{ForSome};
ghost use Rattle.page_opt.specs.PlaceSet.{capacity, has_place};
ghost use Rattle.page_opt.specs.Held.{in_set, IsWithin, HasPages, Arrives, Takes, Leaves, Puts};

use crate::NoMemory;
use crate::place_set::PlaceSet;
use std::alloc::Global;
use std::collections::BTreeSet;

/// The pages in the cache: those that are used again by the place of their next use, and the others by
/// their numbers.
#[derive(Drop)]
pub(crate) struct Resident {
    awaited: PlaceSet,
    spent: BTreeSet<u32>,
    /// How many frames have been taken.
    used: u32,
}

impl Resident {
    /// An empty cache for so many references.
    pub(crate) fn new(alloc: Global, references: usize) -> Result<Resident, NoMemory>
        requires { references ≤ 4000000 }
        ensures room { IfOk result (λ resident. references ≤ capacity resident.awaited) }
        ensures awaited { IfOk result (λ resident. (k : ℕ) → has_place resident.awaited k ≡ false) }
        ensures spent { IfOk result (λ resident. (q : ℕ) → in_set resident.spent q ≡ false) }
        ensures used { IfOk result (λ resident. resident.used ≡ 0) }
    {
        let awaited = PlaceSet::new(alloc, references)?;
        Ok(Resident {
            awaited,
            spent: BTreeSet::new(alloc),
            used: 0,
        })
    }

    /// Whether the page that is used at a place is in the cache. It is awaited there no longer.
    pub(crate) fn arrive(&mut self, place: u32) -> bool
        requires { place < capacity self.old.awaited }
        ensures { Arrives self.old self.new place result }
    {
        self.awaited.remove(place as usize)
    }

    /// Takes a frame, and answers whether one was free.
    pub(crate) fn take_frame(&mut self, frames: u32) -> bool
        ensures { Takes frames self.old self.new result }
    {
        if self.used >= frames {
            return false;
        }
        self.used += 1;
        true
    }

    /// Takes out the page that is used again last or never, and of those that are never used again the
    /// lowest.
    pub(crate) fn evict(&mut self, refs: &[u32]) -> u32
        requires some { HasPages self.old }
        requires within { IsWithin refs.now self.old }
        ensures { Leaves refs.now self.old self.new result }
    {
        if let Some(page) = self.spent.pop_first() {
            return page;
        }
        let Some(place) = self.awaited.last() else {
            unreachable!()
        };
        self.awaited.remove(place);
        refs[place]
    }

    /// Puts a page in, by the place of its next use.
    pub(crate) fn put(&mut self, page: u32, next: Option<u32>) -> Result<(), NoMemory>
        requires { ForSome next (λ place. place < capacity self.old.awaited) }
        ensures { OnOk result (Puts page next self.old self.new) }
    {
        match next {
            Some(place) => self.awaited.insert(place as usize),
            None => {
                self.spent.insert(page)?;
            }
        }
        Ok(())
    }
}
