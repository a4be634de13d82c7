//! The names of pages, and the states that a page can be in.
/// The name of a page of 1,024 bytes, a cluster of two VAX pages (the 4.3BSD book).
#[derive(Clone, Copy, Debug, PartialEq, Eq, Drop)]
pub enum Page {
    /// Page `v` of a space's data segment, from 0 upwards.
    Data { sid: u32, v: u32 },
    /// Page `v` of a space's stack segment: 0 is the highest, and each next one lies below it.
    Stack { sid: u32, v: u32 },
    /// Page `v` of an image's text, which all spaces that share the image have in common.
    Text { image: u32, v: u32 },
}

/// Where the bytes of a page are (the 4.3BSD book's page states, as this project's profile names them).
#[derive(Clone, Copy, Debug, PartialEq, Eq, Drop)]
pub enum PageState {
    /// Never filled: zeros, or a page of the image's file.
    Unfilled,
    /// In this frame, and usable.
    Valid(u32),
    /// In this frame, not usable before it is reclaimed; the frame may be on the free list.
    Invalid(u32),
    /// A read into this frame is in flight.
    Coming(u32),
    /// A write from this frame is in flight.
    Going(u32),
    /// Only on swap.
    OnSwap,
}
