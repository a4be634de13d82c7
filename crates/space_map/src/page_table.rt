//! The page table of one segment, an entry a page. A word may be stored only if `vax_pte` packs it so for this
//! segment.
ghost use Rattle.std.specs.Prelude.{◌≡◌, ◌<◌, ◌≤◌, ◌^◌, ◌-◌, ◌++◌, [], length, map, take, replicate, slice_get, slice_set, IfOk, IsOk, OnOk, OnErr};
ghost use Rattle.aout_image.specs.Image.{IsSound};
ghost use Rattle.vax_pte.specs.Words.{IsInRange, place_named};
ghost use Rattle.vax_pte.specs.declared.Place.TheVariants.{Zero};
ghost use Rattle.space_map.specs.Space.{first_place, first_places, entry_frame, IsNextOfKind};
ghost use Rattle.space_map.specs.Tables.{is_sought};

use aout_image::Image;
use std::alloc::Global;
use std::marker::Model;
use vax_pte::{Place, Pte, is_in_frame, pack, place_named, valid_frame, was_filled};
use vm_facts::NoMemory;

/// The entries of a segment's pages, packed. Contracts see the places.
#[derive(Drop)]
pub struct PageTable {
    words: Vec<u32>,
    user_write: bool,
}

impl Model for PageTable {
    ghost use Rattle.std.specs.Prelude.{List};
    ghost use Rattle.vax_pte.specs.declared.Place.{Place};

    ghost Value = { List Place };

    ghost use Rattle.space_map.specs.Fields.{places_of, IsTable};

    ghost view = { places_of };

    ghost invariant = { IsTable };
}

// How the page of a new text or data segment is filled.
fn first_place(facts: &Image, text: bool, v: u32) -> Place
    requires { IsSound facts.now }
    ensures { result ≡ first_place facts.now text v }
{
    let pages = if text {
        facts.text_pages()
    } else {
        facts.data_pages()
    };
    if v < pages && facts.file_span(text, v).1 > 0 {
        Place::Image(v)
    } else {
        Place::Zero
    }
}

/// Which pages are sought.
#[derive(Clone, Copy, Drop)]
pub(crate) enum Sought {
    /// Those that were filled.
    Filled,
    /// Those that are in a frame.
    InFrame,
}

// Whether the page whose entry has this word is sought.
fn is_sought(sought: Sought, word: u32) -> bool
    ensures { result ≡ is_sought sought (place_named word) }
{
    match sought {
        Sought::Filled => was_filled(word),
        Sought::InFrame => is_in_frame(word),
    }
}

// The first of the pages with these words, from a number on up to another, that is sought.
fn first_sought(words: &[u32], sought: Sought, from: u32, to: u32) -> Option<u32>
    requires { to ≤ length words.now }
    ensures { IsNextOfKind (is_sought sought) (slice_get (map place_named words.now)) from to result }
{
    for v in from..to {
        if is_sought(sought, words[v as usize]) {
            return Some(v);
        }
    }
    None
}

// A number of pages, but no more than there are.
fn no_more(pages: u32, count: usize) -> u32
    ensures most { result ≤ pages }
    ensures within { result ≤ count }
    ensures all { result < pages → result ≡ count }
{
    if (pages as usize) <= count {
        pages
    } else {
        count as u32
    }
}

impl PageTable {
    /// The table of a writable segment whose pages are filled with zeros.
    pub fn zeros(alloc: Global, pages: u32) -> Result<PageTable, NoMemory>
        ensures { IfOk result (λ t. t ≡ replicate pages Zero) }
    {
        let mut table = PageTable {
            words: Vec::new(alloc),
            user_write: true,
        };
        table.grow(pages)?;
        Ok(table)
    }

    /// The table of an image's text or data, with so many pages.
    pub fn of_image(
        alloc: Global,
        facts: &Image,
        text: bool,
        pages: u32,
    ) -> Result<PageTable, NoMemory>
        requires sound { IsSound facts.now }
        requires few { pages ≤ 4096 }
        ensures { IfOk result (λ t. t ≡ first_places facts.now text pages) }
    {
        let user_write = !text;
        let mut words = Vec::with_capacity(alloc, pages as usize)?;
        for v in 0..pages {
            let place = first_place(facts, text, v);
            words.push_reserved(pack(Pte { user_write, place }));
        }
        Ok(PageTable { words, user_write })
    }

    /// How many pages there are.
    pub fn len(&self) -> u32
        requires { length self.now < 2 ^ 32 }
        ensures { result ≡ length self.now }
    {
        self.words.len() as u32
    }

    /// The place of a page.
    pub fn get(&self, v: u32) -> Option<Place>
        ensures { result ≡ slice_get self.now v }
    {
        let word = *self.words.get(v as usize)?;
        Some(place_named(word))
    }

    /// The frame of a page, where it is valid.
    pub fn valid_frame(&self, v: u32) -> Option<u32>
        ensures { result ≡ entry_frame (slice_get self.now v) }
    {
        let word = *self.words.get(v as usize)?;
        valid_frame(word)
    }

    /// The first page from a number on, up to another, that is sought.
    pub(crate) fn next_sought(&self, sought: Sought, from: u32, to: u32) -> Option<u32>
        ensures { IsNextOfKind (is_sought sought) (slice_get self.now) from to result }
    {
        let words = self.words.as_slice();
        first_sought(words, sought, from, no_more(to, words.len()))
    }

    /// Puts a page in its place.
    pub fn set(&mut self, v: u32, place: Place)
        requires within { v < length self.old }
        requires in_range { IsInRange place }
        ensures { self.new ≡ slice_set self.old v place }
    {
        self.words[v as usize] = pack(Pte {
            user_write: self.user_write,
            place,
        });
    }

    /// Adds pages of zeros, up to so many pages. It takes memory only where there are fewer.
    pub fn grow(&mut self, pages: u32) -> Result<(), NoMemory>
        ensures ok { OnOk result (self.new ≡ self.old ++ replicate (pages - length self.old) Zero) }
        ensures err { OnErr result (self.new ≡ self.old) }
        ensures enough { pages ≤ length self.old → IsOk result }
    {
        if pages as usize <= self.words.len() {
            return Ok(());
        }
        let zeros = pack(Pte {
            user_write: self.user_write,
            place: Place::Zero,
        });
        self.words.resize(pages as usize, zeros)?;
        Ok(())
    }

    /// Drops the last pages beyond so many.
    pub fn cut(&mut self, pages: u32)
        ensures { self.new ≡ take pages self.old }
    {
        self.words.truncate(pages as usize);
    }
}
