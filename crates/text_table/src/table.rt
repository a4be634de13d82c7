//! The entries of 16 images, by number. It holds no swap: who lets the last sharer leave must give the text's blocks
//! back.
ghost use Rattle.std.specs.Prelude.{◌≡◌, ◌+◌, ◌-◌, ◌<◌, ◌≤◌, ◌^◌};
ghost use Rattle.text_table.specs.Texts.{IsTextTable, unused_texts, text_numbered, table_with_text, is_saved, entered, left, marked};

use crate::entry::Entry;
use std::marker::Model;

/// The shared texts of 16 images, numbered from 1, with up to 2,048 pages each. Contracts see for each
/// image how many share its text, and for each page whether it is saved.
#[derive(Drop)]
pub struct TextTable {
    entries: [Entry; 16],
}

impl Model for TextTable {
    ghost use Rattle.std.specs.Prelude.{List};
    ghost use Rattle.text_table.specs.Texts.{Text};

    ghost Value = { List Text };

    ghost use Rattle.text_table.specs.Fields.{texts_of};

    ghost view = { texts_of };
}

impl TextTable {
    /// A table in which no text is shared, and nothing is saved.
    pub fn new() -> TextTable
        ensures { result ≡ unused_texts }
    {
        TextTable {
            entries: [Entry::unused(); 16],
        }
    }

    /// One more shares the text of the image.
    pub fn enter(&mut self, image: u32)
        requires from_one { 1 ≤ image }
        requires to_last { image ≤ 16 }
        requires room { (text_numbered self.old image).sharers < 2 ^ 32 - 1 }
        ensures entered { self.new ≡ table_with_text self.old image (entered (text_numbered self.old image)) }
        ensures table { IsTextTable self.old }
    {
        self.entries[place(image)].enter();
    }

    /// One less shares the text of the image. Answers how many still do; after the last of them
    /// nothing of the text is saved.
    pub fn leave(&mut self, image: u32) -> u32
        requires from_one { 1 ≤ image }
        requires to_last { image ≤ 16 }
        requires shared { 0 < (text_numbered self.old image).sharers }
        ensures sharers { result + 1 ≡ (text_numbered self.old image).sharers }
        ensures left { self.new ≡ table_with_text self.old image (left (text_numbered self.old image)) }
    {
        self.entries[place(image)].leave()
    }

    /// How many share the text of the image.
    pub fn sharers(&self, image: u32) -> u32
        requires from_one { 1 ≤ image }
        requires to_last { image ≤ 16 }
        ensures count { result ≡ (text_numbered self.now image).sharers }
        ensures table { IsTextTable self.now }
    {
        self.entries[place(image)].sharers()
    }

    /// Whether page `v` of the image's text is saved on swap.
    pub fn is_saved(&self, image: u32, v: u32) -> bool
        requires from_one { 1 ≤ image }
        requires to_last { image ≤ 16 }
        requires page { v < 2048 }
        ensures { result ≡ is_saved (text_numbered self.now image) v }
    {
        self.entries[place(image)].is_saved(v)
    }

    /// Marks page `v` of the image's text as saved on swap, or not.
    pub fn set_saved(&mut self, image: u32, v: u32, saved: bool)
        requires from_one { 1 ≤ image }
        requires to_last { image ≤ 16 }
        requires page { v < 2048 }
        ensures marked { self.new ≡ table_with_text self.old image (marked (text_numbered self.old image) v saved) }
        ensures table { IsTextTable self.old }
    {
        self.entries[place(image)].set_saved(v, saved);
    }
}

// Where the entry of an image stands.
fn place(image: u32) -> usize
    requires from_one { 1 ≤ image }
    requires to_last { image ≤ 16 }
    ensures at { result ≡ image - 1 }
    ensures within { result < 16 }
{
    image as usize - 1
}
