//! How an image's segments are cut into pages, and which bytes of the file fill each. It is arithmetic on the header;
//! no file is read here.
ghost use Rattle.std.specs.Prelude.{◌≡◌, ◌+◌, ◌-◌, ◌*◌, ◌^◌, ◌<◌, ◌≤◌, ℕ, List, IsTrue, length, min, true, false};
ghost use Rattle.aout_image.specs.Image.{FillsPage, HasPages, IsSound, NeedsNoMore, data_given, image_data_pages, data_start_of, end_of, file_length_of, given_of, has_text_segment, judged_image, is_paged, is_ragged, is_too_large, offset_of, page_at, page_from, pages_for, pages_of, segment_of, starts_outside, text_given, text_offset, text_pages_of};

use crate::{Image, Kind};

const PAGE: u64 = 1024;

fn pages(bytes: u64) -> u64
    requires { bytes < 2 ^ 63 }
    ensures { result ≡ pages_for bytes }
{
    (bytes + (PAGE - 1)) / PAGE
}

impl Image {
    // Where the text begins in the file.
    fn text_offset(&self) -> u64
        ensures { result ≡ text_offset self.now }
    {
        match self.kind {
            Kind::Paged => 1024,
            Kind::Impure | Kind::Shared => 32,
        }
    }

    // The bytes that the file gives to the text segment.
    fn text_given(&self) -> u64
        ensures value { result ≡ text_given self.now }
        ensures small { result < 2 ^ 32 }
    {
        match self.kind {
            Kind::Impure => 0,
            Kind::Shared | Kind::Paged => u64::from(self.text_len),
        }
    }

    // The bytes that the file gives to the data segment.
    fn data_given(&self) -> u64
        ensures value { result ≡ data_given self.now }
        ensures small { result < 2 ^ 33 }
    {
        match self.kind {
            Kind::Impure => u64::from(self.text_len) + u64::from(self.data_len),
            Kind::Shared | Kind::Paged => u64::from(self.data_len),
        }
    }

    // The bytes that the file gives to a segment.
    fn given(&self, text: bool) -> u64
        ensures value { result ≡ given_of text self.now }
        ensures small { result < 2 ^ 33 }
    {
        if text {
            self.text_given()
        } else {
            self.data_given()
        }
    }

    // Where a segment begins in the file.
    fn offset(&self, text: bool) -> u64
        ensures value { result ≡ offset_of text self.now }
        ensures small { result < 2 ^ 33 }
    {
        if text {
            self.text_offset()
        } else {
            self.text_offset() + self.text_given()
        }
    }

    fn text_page_count(&self) -> u64
        ensures value { result ≡ text_pages_of self.now }
        ensures small { result < 2 ^ 23 }
    {
        pages(self.text_given())
    }

    fn data_page_count(&self) -> u64
        ensures { result ≡ image_data_pages self.now }
    {
        pages(self.data_given() + u64::from(self.bss_len))
    }

    pub(crate) fn is_ragged(&self) -> bool
        ensures { result ≡ is_ragged self.now }
    {
        self.kind == Kind::Paged && !(self.text_len % 1024 == 0 && self.data_len % 1024 == 0)
    }

    pub(crate) fn is_too_large(&self) -> bool
        ensures { result ≡ is_too_large self.now }
    {
        self.text_page_count() > 2048 || self.data_page_count() > 4096
    }

    /// The bytes that the file must have: up to the end of its text and data. What follows them is
    /// no part of the image.
    pub fn file_length(&self) -> u64
        ensures value { result ≡ file_length_of self.now }
        ensures enough { NeedsNoMore self.now result }
    {
        self.text_offset() + u64::from(self.text_len) + u64::from(self.data_len)
    }

    pub(crate) fn starts_outside(&self) -> bool
        ensures { result ≡ starts_outside self.now }
    {
        let first = u64::from(self.entry) + 2;
        first >= PAGE * self.text_page_count() + self.data_given()
    }

    /// The pages of the text segment, at most 2,048; an `Impure` image has none.
    pub fn text_pages(&self) -> u32
        requires { IsSound self.now }
        ensures value { result ≡ text_pages_of self.now }
        ensures segment { HasPages self.now true result }
    {
        self.text_page_count() as u32
    }

    /// The pages of the data segment, at most 4,096: data and bss, and for an `Impure` image text
    /// before them.
    pub fn data_pages(&self) -> u32
        requires { IsSound self.now }
        ensures value { result ≡ image_data_pages self.now }
        ensures segment { HasPages self.now false result }
    {
        self.data_page_count() as u32
    }

    /// The address at which the data segment begins: the first page after the text segment, which
    /// is 0 for an `Impure` image.
    pub fn data_start(&self) -> u32
        requires { IsSound self.now }
        ensures { result ≡ data_start_of self.now }
    {
        1024 * self.text_pages()
    }

    /// The bytes of the file that fill page `v` of the text segment, where `text` is true, or else of
    /// the data segment: the offset of the first one and their count, 0 to 1,024. The rest of the
    /// page is zeros: bss, or the end of a segment that is no whole number of pages. Count 0 is a
    /// page of zeros alone. The offset is never 0.
    pub fn file_span(&self, text: bool, v: u32) -> (u64, u32)
        requires sound { IsSound self.now }
        requires has_page { v < pages_of text self.now }
        ensures offset { result.0 ≡ offset_of text self.now + min (1024 * v) (given_of text self.now) }
        ensures count { result.1 ≡ min 1024 (given_of text self.now - 1024 * v) }
        ensures above_header { 0 < result.0 }
        ensures within_page { result.1 ≤ 1024 }
        ensures within_file { result.0 + result.1 ≤ file_length_of self.now }
        ensures fills { FillsPage self.now text v result.0 result.1 }
    {
        let given = self.given(text);
        let before = (PAGE * u64::from(v)).min(given);
        let offset = self.offset(text) + before;
        (offset, (given - before).min(PAGE) as u32)
    }
}
