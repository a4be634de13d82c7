//! What the table has for one image: sharers, and saved pages. Once the last sharer leaves nothing may stay saved.
ghost use Rattle.std.specs.Prelude.{◌≡◌, ◌+◌, ◌-◌, ◌<◌, ◌^◌};
ghost use Rattle.text_table.specs.Entries.{text_in};
ghost use Rattle.text_table.specs.Texts.{unused_text, is_saved, entered, left, marked};

use crate::page_set::PageSet;

/// How many share a text, and which of its pages are saved on swap.
#[derive(Clone, Copy)]
pub struct Entry {
    sharers: u32,
    saved: PageSet,
}

impl Entry {
    /// A text that nothing shares, with nothing saved.
    pub fn unused() -> Entry
        ensures { text_in result ≡ unused_text }
    {
        Entry {
            sharers: 0,
            saved: PageSet::empty(),
        }
    }

    /// One more shares the text.
    pub fn enter(&mut self)
        requires { (text_in self.old).sharers < 2 ^ 32 - 1 }
        ensures { text_in self.new ≡ entered (text_in self.old) }
    {
        self.sharers += 1;
    }

    /// One less shares the text, and after the last nothing of it is saved. Answers how many still do.
    pub fn leave(&mut self) -> u32
        requires { 0 < (text_in self.old).sharers }
        ensures sharers { result + 1 ≡ (text_in self.old).sharers }
        ensures left { text_in self.new ≡ left (text_in self.old) }
    {
        self.sharers -= 1;
        if self.sharers == 0 {
            self.saved = PageSet::empty();
        }
        self.sharers
    }

    /// How many share the text.
    pub fn sharers(&self) -> u32
        ensures { result ≡ (text_in self.now).sharers }
    {
        self.sharers
    }

    /// Whether page `v` is saved on swap.
    pub fn is_saved(&self, v: u32) -> bool
        requires { v < 2048 }
        ensures { result ≡ is_saved (text_in self.now) v }
    {
        self.saved.contains(v)
    }

    /// Marks page `v` as saved on swap, or not.
    pub fn set_saved(&mut self, v: u32, saved: bool)
        requires { v < 2048 }
        ensures { text_in self.new ≡ marked (text_in self.old) v saved }
    {
        self.saved.set(v, saved);
    }
}
