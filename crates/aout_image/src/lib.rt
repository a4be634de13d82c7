//! The header of an a.out file: what kind of image it is, how large its segments are, where it
//! starts, and which bytes of the file fill which page.
//!
//! The formats are those of a.out(5). A page is a 4.3BSD cluster of two VAX pages, 1,024 bytes.
#![tactic(auto)]

mod header;
mod pages;

pub use crate::header::{read_image, write_image};

/// The three kinds of executable image, by a.out(5).
#[derive(Clone, Copy, Debug, PartialEq, Eq)]
pub enum Kind {
    /// Magic 0407: text and data are one writable data segment from address 0.
    Impure,
    /// Magic 0410: text is apart from data and shared; it stands in the file right after the header.
    Shared,
    /// Magic 0413: as `Shared`, with text and data in whole pages from offset 1,024 of the file.
    Paged,
}

/// What the header of an image says. Sizes are in bytes.
#[derive(Clone, Copy, Debug, PartialEq, Eq)]
pub struct Image {
    pub kind: Kind,
    /// The bytes of text that the file gives.
    pub text_len: u32,
    /// The bytes of data that the file gives, right after the text.
    pub data_len: u32,
    /// The zeros after the data.
    pub bss_len: u32,
    /// The address of the entry mask, two bytes before the first instruction.
    pub entry: u32,
}

/// What a file is.
#[derive(Clone, Copy, Debug, PartialEq, Eq)]
pub enum Judged {
    /// An image.
    Is(Image),
    /// No image, for the first of these reasons that holds:
    ///
    /// 1. The file has fewer than 32 bytes.
    /// 2. The magic is none of 0407, 0410 and 0413.
    /// 3. The kind is `Paged`, and text or data is no multiple of 1,024.
    /// 4. The text segment has more than 2,048 pages, or the data segment more than 4,096.
    /// 5. The file ends before its text and data do.
    /// 6. The first instruction, at `entry` and 2, lies after the bytes that the file gives.
    ///
    /// The limits of 4 and the choice of 6 are this project's profile.
    NotImage(u8),
}
