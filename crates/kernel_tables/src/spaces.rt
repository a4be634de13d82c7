//! The page places of all spaces, which stand by rising numbers. A page of text must be put in its place in every
//! space that shares it.
ghost use Rattle.std.specs.Prelude.{◌≡◌, ℕ, ◌<◌, ◌≤◌, map, length, Some, [], ◌∷◌, ◌++◌, OnOk, OnErr, IfSome, IfNone, IsTrue, slice_get, option_copied, option_map};
ghost use Rattle.aout_image.specs.Image.{text_pages_of};
ghost use Rattle.vax_pte.specs.Words.{IsInRange, was_filled};
ghost use Rattle.flat_state.specs.Numbers.{IsAbsent, AllBelow};
ghost use Rattle.flat_state.specs.PageNames.{beside};
ghost use Rattle.space_map.specs.Space.{IsNextOfKind};
ghost use Rattle.page_model.specs.Pages.{numbered};
ghost use Rattle.kernel_tables.specs.Rising.{sids_of, AreRising, StandsAt, IsHome, space_named};
ghost use Rattle.kernel_tables.specs.Shown.{entry_in, placed, is_frame, frame_named, changed_named};
ghost use Rattle.kernel_tables.specs.Launches.{valid_named};
ghost use Rattle.kernel_tables.specs.Settled.{image_found};
ghost use Rattle.kernel_tables.specs.Sharing.{first_sharer};
ghost use Rattle.kernel_tables.specs.Gone.{without_space, sharing};
ghost use Rattle.kernel_tables.specs.Sizes.{with_sizes_at};

use space_map::SpaceMap;
use std::alloc::Global;
use std::marker::Model;
use vax_pte::Place;
use vm_facts::{NoMemory, Page};

/// The page places of all spaces, which stand by rising numbers. Contracts see the list.
#[derive(Drop)]
pub struct Spaces {
    maps: Vec<SpaceMap>,
}

impl Model for Spaces {
    ghost use Rattle.std.specs.Prelude.{List};
    ghost use Rattle.space_map.specs.Space.{Places};
    ghost use Rattle.kernel_tables.specs.Rising.{sids_of, AreRising};

    ghost Value = { List Places };

    ghost view = { λ s. s.maps.items };

    ghost invariant = { λ s. AreRising (sids_of s.maps.items) };
}

// The space that a page of data or stack is of.
fn space_of(page: Page) -> Option<u32>
    ensures { result ≡ space_named page }
{
    match page {
        Page::Data { sid, .. } | Page::Stack { sid, .. } => Some(sid),
        Page::Text { .. } => None,
    }
}

// Puts a page in its place, where it is of the space.
fn set_place(space: &mut SpaceMap, page: Page, place: Place)
    requires { IsInRange place }
    ensures { space.new ≡ placed page place space.old }
{
    if space.has(page) {
        space.set_place(page, place);
    }
}

// Puts a page in its place in each space that has it.
fn set_each(maps: &mut Vec<SpaceMap>, page: Page, place: Place)
    requires { IsInRange place }
    ensures { maps.new.items ≡ map (placed page place) maps.old.items }
{
    for space in maps.iter_mut() {
        set_place(space, page, place);
    }
}

// The entry of a page, in the first space that has it.
fn first_entry(maps: &[SpaceMap], page: Page) -> Option<Place>
    ensures { result ≡ entry_in maps.now page }
{
    for space in maps {
        if let Some(place) = space.place(page) {
            return Some(place);
        }
    }
    None
}

// The number of the first space that shares an image's text.
fn first_sharer(maps: &[SpaceMap], image: u32) -> Option<u32>
    ensures { result ≡ first_sharer maps.now image }
{
    for space in maps {
        if space.image() == image {
            return Some(space.sid());
        }
    }
    None
}

// How many pages the text of an image has, by the first space that shares it.
fn text_pages(maps: &[SpaceMap], image: u32) -> Option<u32>
    ensures entries { result ≡ option_map (λ s. length s.text) (sharing maps.now image) }
    ensures whole { result ≡ option_map (λ s. text_pages_of s.facts) (sharing maps.now image) }
{
    for space in maps {
        if space.image() == image {
            return Some(space.text_pages());
        }
    }
    None
}

// Where a space of this number most likely stands: there it stands where no number is wanting before its own, or where it is
// the last.
fn likely_index(maps: &[SpaceMap], sid: u32) -> usize {
    match maps.first() {
        Some(first) => (sid.saturating_sub(first.sid()) as usize).min(maps.len().saturating_sub(1)),
        None => 0,
    }
}

// Whether the space with this number stands there.
fn stands_there(maps: &[SpaceMap], index: usize, sid: u32) -> bool
    ensures { IsTrue result → StandsAt maps.now sid index }
{
    match maps.get(index) {
        Some(space) => space.sid() == sid,
        None => false,
    }
}

// Where the space with this number stands among spaces by rising numbers.
fn index_among(maps: &[SpaceMap], sid: u32) -> Option<usize>
    requires { AreRising (sids_of maps.now) }
    ensures found { IfSome result (StandsAt maps.now sid) }
    ensures absent { IfNone result (IsAbsent sid (sids_of maps.now)) }
{
    maps.binary_search_by_key(&sid, |space| space.sid()).ok()
}

impl Spaces {
    /// No space.
    pub fn new(alloc: Global) -> Spaces
        ensures { result ≡ [] }
    {
        Spaces {
            maps: Vec::new(alloc),
        }
    }

    /// Where the space with this number stands among all; None exactly where there is none.
    pub fn index_of(&self, sid: u32) -> Option<usize>
        ensures found { IfSome result (StandsAt self.now sid) }
        ensures absent { IfNone result (IsAbsent sid (sids_of self.now)) }
    {
        let maps = self.maps.as_slice();
        let likely = likely_index(maps, sid);
        if stands_there(maps, likely, sid) {
            return Some(likely);
        }
        index_among(maps, sid)
    }

    /// The space with this number; None exactly where there is none.
    pub fn find(&self, sid: u32) -> Option<&SpaceMap>
        ensures { option_copied result ≡ numbered (λ s. s.sid) sid self.now }
    {
        let index = self.index_of(sid)?;
        Some(&self.maps[index])
    }

    /// The spaces stand by rising numbers.
    pub fn rise(&self)
        ensures { AreRising (sids_of self.now) }
    {
        let _ = &self.maps;
    }

    /// The space that stands at a place among all.
    pub fn at(&self, index: usize) -> &SpaceMap
        requires { index < length self.now }
        ensures space { slice_get self.now index ≡ Some result.now }
        ensures rising { AreRising (sids_of self.now) }
    {
        &self.maps[index]
    }

    /// Puts a page in its place, where the space that it is of stands there among all.
    pub fn set_place_at(&mut self, index: usize, page: Page, place: Place)
        requires named { IsHome self.old index page }
        requires in_range { IsInRange place }
        ensures { self.new ≡ map (placed page place) self.old }
    {
        set_place(&mut self.maps[index], page, place);
    }

    /// Where the space that a page of data or stack is of stands among all; None for text, and where no space has that
    /// number.
    pub fn home_of(&self, page: Page) -> Option<usize>
        ensures found { IfSome result (λ index. IsHome self.now index page) }
        ensures absent { IfNone result ((sid : ℕ) → space_named page ≡ Some sid → IsAbsent sid (sids_of self.now)) }
    {
        self.index_of(space_of(page)?)
    }

    /// Of the segment that a page is of, the first page from a number on, up to another, that was filled. Its space stands
    /// there among all.
    pub fn next_filled_at(&self, index: usize, page: Page, from: u32, to: u32) -> Option<u32>
        requires { IsHome self.now index page }
        ensures { IsNextOfKind was_filled (λ v. entry_in self.now (beside page v)) from to result }
    {
        self.maps[index].next_filled(page, from, to)
    }

    /// The image of the space with this number; None exactly where there is none.
    pub fn image_of(&self, sid: u32) -> Option<u32>
        ensures { result ≡ image_found self.now sid }
    {
        Some(self.find(sid)?.image())
    }

    /// Puts a page in its place in each space that has it: a page of text in every one that shares its image.
    pub fn set_places(&mut self, page: Page, place: Place)
        requires { IsInRange place }
        ensures { self.new ≡ map (placed page place) self.old }
    {
        match space_of(page) {
            None => set_each(&mut self.maps, page, place),
            Some(sid) => {
                if let Some(index) = self.index_of(sid) {
                    set_place(&mut self.maps[index], page, place);
                }
            }
        }
    }

    /// The entry of a page, in the first space that has it.
    pub fn entry(&self, page: Page) -> Option<Place>
        ensures { result ≡ entry_in self.now page }
    {
        match space_of(page) {
            None => first_entry(&self.maps, page),
            Some(sid) => self.find(sid)?.place(page),
        }
    }

    /// The number of the first space that shares an image's text.
    pub fn sharer(&self, image: u32) -> Option<u32>
        ensures first { result ≡ first_sharer self.now image }
        ensures rising { AreRising (sids_of self.now) }
    {
        first_sharer(&self.maps, image)
    }

    /// How many pages the text of an image has, by the first space that shares it; None exactly where none does.
    pub fn text_pages(&self, image: u32) -> Option<u32>
        ensures entries { result ≡ option_map (λ s. length s.text) (sharing self.now image) }
        ensures whole { result ≡ option_map (λ s. text_pages_of s.facts) (sharing self.now image) }
    {
        text_pages(&self.maps, image)
    }

    /// The frame that the entry of a page names, and whether the page was changed.
    pub fn frame_of(&self, page: Page) -> (u32, bool)
        requires { IsTrue (is_frame (entry_in self.now page)) }
        ensures frame { result.0 ≡ frame_named (entry_in self.now page) }
        ensures changed { result.1 ≡ changed_named (entry_in self.now page) }
    {
        match self.entry(page) {
            Some(Place::Frame { f, changed, .. }) => (f, changed),
            _ => unreachable!(),
        }
    }

    /// Whether the entry of a page says that it is valid.
    pub fn is_valid(&self, page: Page) -> bool
        ensures { result ≡ valid_named (entry_in self.now page) }
    {
        match self.entry(page) {
            Some(Place::Frame { valid, .. }) => valid,
            _ => false,
        }
    }

    /// Whether the entry of a page says that it was changed.
    pub fn is_changed(&self, page: Page) -> bool
        ensures { result ≡ changed_named (entry_in self.now page) }
    {
        match self.entry(page) {
            Some(Place::Frame { changed, .. }) => changed,
            _ => false,
        }
    }

    /// How many pages of data and of stack the space has that stands there.
    pub fn sizes_at(&self, index: usize) -> (u32, u32)
        requires { index < length self.now }
        ensures data_pages { Some result.0 ≡ option_map (λ s. length s.data) (slice_get self.now index) }
        ensures stack_pages { Some result.1 ≡ option_map (λ s. length s.stack) (slice_get self.now index) }
    {
        let space = &self.maps[index];
        (space.data_pages(), space.stack_pages())
    }

    /// The space that stands there has other sizes. Without memory all is as before.
    pub fn resize_at(
        &mut self,
        index: usize,
        data_pages: u32,
        stack_pages: u32,
    ) -> Result<(), NoMemory>
        requires in_range { index < length self.old }
        requires data_fits { data_pages ≤ 4096 }
        requires stack_fits { stack_pages ≤ 512 }
        ensures ok { OnOk result (self.new ≡ with_sizes_at self.old index data_pages stack_pages) }
        ensures err { OnErr result (self.new ≡ self.old) }
    {
        self.maps[index].resize(data_pages, stack_pages)
    }

    /// The space that stands there goes. Answers its image, and how many pages the text of that has.
    pub fn remove_at(&mut self, index: usize) -> (u32, u32)
        requires { index < length self.old }
        ensures gone { (sid : ℕ) → StandsAt self.old sid index → self.new ≡ without_space sid self.old }
        ensures image { Some result.0 ≡ option_map (λ s. s.image) (slice_get self.old index) }
        ensures pages { Some result.1 ≡ option_map (λ s. text_pages_of s.facts) (slice_get self.old index) }
    {
        let space = self.maps.remove(index);
        (space.image(), space.text_pages())
    }

    /// A space of a number above all stands last.
    pub fn push(&mut self, space: SpaceMap) -> Result<(), NoMemory>
        requires above { AllBelow space.sid (sids_of self.old) }
        ensures pushed { OnOk result (self.new ≡ self.old ++ space ∷ []) }
        ensures few { OnOk result (length self.old ≤ space.sid) }
    {
        self.maps.push(space)?;
        Ok(())
    }
}
