//! A transfer, its parts, and what the ring answers. Its pages are of one segment and rise; their frames may leave it
//! only at its end.
ghost use Rattle.std.specs.Prelude.{◌≡◌, ◌<◌, ◌^◌};
ghost use Rattle.vm_facts.specs.Pages.{is_of_space, is_of_text};
ghost use Rattle.transfer_ring.specs.Counting.{transfer_pages};
ghost use Rattle.transfer_ring.specs.Naming.{is_page_of, reads_of, writes_of, names_page_of};

use frame_state::{Cleaning, Filling};
use vm_facts::Page;

/// Where the bytes of a page are read from.
#[derive(Clone, Copy, Debug, PartialEq, Eq, Drop)]
pub enum Source {
    /// The two blocks of the swap device from this one on.
    Swap(u32),
    /// `count` bytes of the file `id` from `offset` on; the rest of the page is zeros. The offset is
    /// above 0, and `count` is at most 1,024.
    File { id: u32, offset: u64, count: u32 },
}

/// A page that is being read.
pub struct Inbound {
    pub page: Page,
    pub token: Filling,
    pub source: Source,
}

/// A page that is being written, to the two blocks of the swap device from `block` on.
pub struct Outbound {
    pub page: Page,
    pub token: Cleaning,
    pub block: u32,
}

/// A read or a write of 1 to 16 pages, which are those of one segment in rising order.
pub enum Transfer {
    /// `demanded` is the page for which the read was begun.
    Read { demanded: Page, parts: Vec<Inbound> },
    Write { parts: Vec<Outbound> },
}

/// What beginning a transfer answers.
pub enum Begun {
    Ok,
    /// As many transfers as there may be are in flight; this one is handed back.
    RingFull(Transfer),
}

/// What completing the oldest transfer answers.
pub enum Finished {
    /// All pages were moved.
    Done(Transfer),
    /// A page could not be read from its file.
    FileFault(Transfer),
    /// A page could not be read from the swap device.
    SwapReadFault(Transfer),
    /// A page could not be written to the swap device.
    SwapWriteFault(Transfer),
    /// No transfer is in flight.
    Idle,
}

/// Whose a page is: a space's, or an image's.
#[derive(Clone, Copy, Debug, PartialEq, Eq, Drop)]
pub enum Owner {
    Space(u32),
    Image(u32),
}

// Whether the page is in the data or the stack of this space.
fn is_of_space(page: Page, space: u32) -> bool
    ensures { result ≡ is_of_space space page }
{
    match page {
        Page::Data { sid, .. } | Page::Stack { sid, .. } => sid == space,
        Page::Text { .. } => false,
    }
}

// Whether the page is in the text of this image.
fn is_of_text(page: Page, wanted: u32) -> bool
    ensures { result ≡ is_of_text wanted page }
{
    match page {
        Page::Text { image, .. } => image == wanted,
        Page::Data { .. } | Page::Stack { .. } => false,
    }
}

// Whether the page is this owner's.
fn is_page_of(page: Page, owner: Owner) -> bool
    ensures { result ≡ is_page_of owner page }
{
    match owner {
        Owner::Space(space) => is_of_space(page, space),
        Owner::Image(wanted) => is_of_text(page, wanted),
    }
}

// Whether some part's page is this owner's.
fn is_read_of(parts: &[Inbound], owner: Owner) -> bool
    ensures { result ≡ reads_of owner parts.now }
{
    match parts {
        [] => false,
        [first, rest @ ..] => is_page_of(first.page, owner) || is_read_of(rest, owner),
    }
}

// Whether some part's page is this owner's.
fn is_write_of(parts: &[Outbound], owner: Owner) -> bool
    ensures { result ≡ writes_of owner parts.now }
{
    match parts {
        [] => false,
        [first, rest @ ..] => is_page_of(first.page, owner) || is_write_of(rest, owner),
    }
}

impl Transfer {
    /// How many pages it has; no transfer in flight has more than 16.
    pub fn pages(&self) -> u32
        requires { transfer_pages self.now < 2 ^ 32 }
        ensures { result ≡ transfer_pages self.now }
    {
        match self {
            Transfer::Read { parts, .. } => parts.len() as u32,
            Transfer::Write { parts } => parts.len() as u32,
        }
    }

    // Whether it names a page of this owner.
    pub(crate) fn names(&self, owner: Owner) -> bool
        ensures { result ≡ names_page_of owner self.now }
    {
        match self {
            Transfer::Read { parts, .. } => is_read_of(parts, owner),
            Transfer::Write { parts } => is_write_of(parts, owner),
        }
    }
}
