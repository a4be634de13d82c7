//! The map of one space: three segments, its number and its image. Data and stack grow and are cut; the text may not
//! change its length.
ghost use Rattle.std.specs.Prelude.{◌≡◌, ◌≤◌, true, false, length, replicate, IfOk, IsOk, OnOk, OnErr, IsSome, is_some, slice_get};
ghost use Rattle.aout_image.specs.Image.{IsSound, text_pages_of};
ghost use Rattle.vax_pte.specs.Words.{IsInRange, was_filled, is_in_frame};
ghost use Rattle.vax_pte.specs.declared.Place.TheVariants.{Zero};
ghost use Rattle.space_map.specs.Tables.{is_sought};
ghost use Rattle.space_map.specs.Space.{first_places, resized, place_in, segment_in, entry_frame, IsNextOfKind, with_place};

use crate::page_table::{PageTable, Sought};
use aout_image::Image;
use std::alloc::Global;
use std::marker::Model;
use vax_pte::Place;
use vm_facts::{NoMemory, Page};

/// The places of a space's pages. Contracts see them in order, for each segment a list.
#[derive(Drop)]
pub struct SpaceMap {
    sid: u32,
    image: u32,
    facts: Image,
    text: PageTable,
    data: PageTable,
    stack: PageTable,
}

impl Model for SpaceMap {
    ghost use Rattle.space_map.specs.Space.{Places};

    ghost Value = { Places };

    ghost use Rattle.space_map.specs.SpaceFields.{map_of, IsSpace};

    ghost view = { map_of };

    ghost invariant = { IsSpace };
}

impl SpaceMap {
    /// The map of a new space of an image. Its pages are to be filled on demand: text and data from the file where that
    /// gives a byte of the page, and the rest with zeros. A segment has at most 4,096 data and 512 stack pages.
    pub fn new(
        alloc: Global,
        sid: u32,
        image: u32,
        facts: Image,
        data_pages: u32,
        stack_pages: u32,
    ) -> Result<SpaceMap, NoMemory>
        requires sound { IsSound facts }
        requires data_fits { data_pages ≤ 4096 }
        requires stack_fits { stack_pages ≤ 512 }
        ensures { IfOk result (λ s. s ≡ record {
          sid = sid;
          image = image;
          facts = facts;
          text = first_places facts true (text_pages_of facts);
          «data» = first_places facts false data_pages;
          stack = replicate stack_pages Zero;
        }) }
    {
        let text = PageTable::of_image(alloc, &facts, true, facts.text_pages())?;
        let data = PageTable::of_image(alloc, &facts, false, data_pages)?;
        let stack = PageTable::zeros(alloc, stack_pages)?;
        Ok(SpaceMap {
            sid,
            image,
            facts,
            text,
            data,
            stack,
        })
    }

    /// The number of the space.
    pub fn sid(&self) -> u32
        ensures { result ≡ self.now.sid }
    {
        self.sid
    }

    /// The number of the image that the space runs.
    pub fn image(&self) -> u32
        ensures { result ≡ self.now.image }
    {
        self.image
    }

    /// What the image's header says.
    pub fn facts(&self) -> &Image
        ensures { result.now ≡ self.now.facts }
    {
        &self.facts
    }

    /// How many text pages there are: those of the image.
    pub fn text_pages(&self) -> u32
        ensures count { result ≡ length self.now.text }
        ensures of_image { result ≡ text_pages_of self.now.facts }
        ensures few { result ≤ 2048 }
    {
        self.text.len()
    }

    /// How many data pages there are.
    pub fn data_pages(&self) -> u32
        ensures count { result ≡ length self.now.«data» }
        ensures few { result ≤ 4096 }
    {
        self.data.len()
    }

    /// How many stack pages there are.
    pub fn stack_pages(&self) -> u32
        ensures count { result ≡ length self.now.stack }
        ensures few { result ≤ 512 }
    {
        self.stack.len()
    }

    /// What is so of each map: its text has as many pages as its image, and no segment has more than it may.
    pub fn fits(&self)
        ensures text { length self.now.text ≡ text_pages_of self.now.facts }
        ensures text_few { length self.now.text ≤ 2048 }
        ensures data_few { length self.now.«data» ≤ 4096 }
        ensures stack_few { length self.now.stack ≤ 512 }
    {
        let _ = &self.sid;
    }

    /// Whether a page is of this space.
    pub fn has(&self, page: Page) -> bool
        ensures { result ≡ is_some (place_in self.now page) }
    {
        match page {
            Page::Data { sid, v } => sid == self.sid && v < self.data.len(),
            Page::Stack { sid, v } => sid == self.sid && v < self.stack.len(),
            Page::Text { image, v } => image == self.image && v < self.text.len(),
        }
    }

    /// Where a page is; `None` exactly where the page isn't of this space.
    #[inline(always)]
    pub fn place(&self, page: Page) -> Option<Place>
        ensures { result ≡ place_in self.now page }
    {
        match page {
            Page::Data { sid, v } if sid == self.sid => self.data.get(v),
            Page::Stack { sid, v } if sid == self.sid => self.stack.get(v),
            Page::Text { image, v } if image == self.image => self.text.get(v),
            _ => None,
        }
    }

    /// Of the segment that a page is of, the first page from a number on, up to another, that was filled: it is in a frame
    /// or on swap. None where none was, or where the page isn't of this space.
    pub fn next_filled(&self, page: Page, from: u32, to: u32) -> Option<u32>
        ensures { IsNextOfKind was_filled (slice_get (segment_in self.now page)) from to result }
    {
        self.next_sought(Sought::Filled, page, from, to)
    }

    /// Of the segment that a page is of, the first page from a number on, up to another, that is in a frame. None where none
    /// is, or where the page isn't of this space.
    pub fn next_in_frame(&self, page: Page, from: u32, to: u32) -> Option<u32>
        ensures { IsNextOfKind is_in_frame (slice_get (segment_in self.now page)) from to result }
    {
        self.next_sought(Sought::InFrame, page, from, to)
    }

    // Of the segment that a page is of, the first page from a number on, up to another, that is sought.
    fn next_sought(&self, sought: Sought, page: Page, from: u32, to: u32) -> Option<u32>
        ensures { IsNextOfKind (is_sought sought) (slice_get (segment_in self.now page)) from to result }
    {
        match page {
            Page::Data { sid, .. } if sid == self.sid => self.data.next_sought(sought, from, to),
            Page::Stack { sid, .. } if sid == self.sid => self.stack.next_sought(sought, from, to),
            Page::Text { image, .. } if image == self.image => {
                self.text.next_sought(sought, from, to)
            }
            _ => None,
        }
    }

    /// The frame of a text page, where it is valid.
    pub fn text_frame(&self, v: u32) -> Option<u32>
        ensures { result ≡ entry_frame (slice_get self.now.text v) }
    {
        self.text.valid_frame(v)
    }

    /// The frame of a data page, where it is valid.
    pub fn data_frame(&self, v: u32) -> Option<u32>
        ensures { result ≡ entry_frame (slice_get self.now.«data» v) }
    {
        self.data.valid_frame(v)
    }

    /// The frame of a stack page, where it is valid.
    pub fn stack_frame(&self, v: u32) -> Option<u32>
        ensures { result ≡ entry_frame (slice_get self.now.stack v) }
    {
        self.stack.valid_frame(v)
    }

    /// Puts a page of this space in its place.
    pub fn set_place(&mut self, page: Page, place: Place)
        requires of_space { IsSome (place_in self.old page) }
        requires in_range { IsInRange place }
        ensures { self.new ≡ with_place self.old page place }
    {
        match page {
            Page::Data { v, .. } => self.data.set(v, place),
            Page::Stack { v, .. } => self.stack.set(v, place),
            Page::Text { v, .. } => self.text.set(v, place),
        }
    }

    /// Cuts or lengthens data and stack to so many pages. Those that are kept stay in place, and those that come to it
    /// are to be filled with zeros. It takes memory only where one of them is lengthened; without it nothing changes.
    pub fn resize(&mut self, data_pages: u32, stack_pages: u32) -> Result<(), NoMemory>
        requires data_fits { data_pages ≤ 4096 }
        requires stack_fits { stack_pages ≤ 512 }
        ensures ok { OnOk result (self.new ≡ record self.old {
          «data» = resized self.old.data data_pages;
          stack = resized self.old.stack stack_pages;
        }) }
        ensures err { OnErr result (self.new ≡ self.old) }
        ensures shrink { data_pages ≤ length self.old.data → stack_pages ≤ length self.old.stack → IsOk result }
    {
        let before = self.data.len();
        self.data.grow(data_pages)?;
        if let Err(refused) = self.stack.grow(stack_pages) {
            self.data.cut(before);
            return Err(refused);
        }
        self.data.cut(data_pages);
        self.stack.cut(stack_pages);
        Ok(())
    }
}
