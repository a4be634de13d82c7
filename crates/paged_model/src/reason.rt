//! Why a line can't come, as types. Each reason has its words in `repage_command`.
use vm_facts::{Entry, Page, PageState};

/// Why a line can't come at a state of the paged machine.
#[derive(Debug, Drop)]
pub enum Reason {
    /// No space and no image has this page.
    NoPage(Page),
    /// The page is in this state, in which it can't be moved so.
    InState(Page, PageState),
    /// The page is filled from its image's file, and not with zeros.
    FromFile(Page),
    /// The page is filled with zeros, and not from a file.
    OfZeros(Page),
    /// This page is due first.
    DueFirst(Page),
    /// No copy of the page is due.
    NoCopyDue(Page),
    /// No frame is free.
    NoFrame,
    /// So many frames are free, and more are wanted.
    FewFrames(u32),
    /// As many transfers are in flight as may be.
    FullFlight,
    /// No transfer is in flight.
    NoTransfer,
    /// A transfer has 1 to 16 pages.
    WrongLength,
    /// The page that is wanted isn't among those that are read.
    NotAmong(Page),
    /// The page isn't read from where the one that is wanted is read from.
    ReadElsewhere(Page),
    /// The page is in another chunk of swap, or in another piece of text, than the first of its transfer.
    InOtherChunk(Page),
    /// No space shares the text.
    Unshared(Page),
    /// A quarter of the frames are free.
    EnoughFree,
    /// Text goes out with no process.
    OfText(Page),
    /// The page's frame is free.
    FrameIsFree(Page),
    /// The page needn't be written.
    IsClean(Page),
    /// The page has to be written first.
    IsDirty(Page),
    /// No process holds this space.
    NoHolder(u32),
    /// There is no process of this number.
    NoProcess(u32),
    /// The process holds no space.
    HoldsNone(u32),
    /// The process sleeps, lent its space, or ended.
    CannotStep(u32),
    /// The process borrowed its space.
    Borrowed(u32),
    /// The process is out.
    IsOut(u32),
    /// The process is in.
    IsIn(u32),
    /// A transfer has a page of the space, or of its text.
    Unsettled,
    /// The step of this process is begun, and its next line isn't there yet.
    Begun(u32),
    /// This entry comes here, and not that one.
    Comes(Entry),
    /// More instructions than may be.
    TooMany,
}

/// The first line of a trace that can't come where it stands.
#[derive(Debug, Drop)]
pub struct Misstep {
    /// Its number, from 1 on.
    pub line: u32,
    /// Why it can't.
    pub reason: Reason,
}
