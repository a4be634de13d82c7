//! What serving a page or an access comes to. Each step from a page to an access answers so, and none has a word of its
//! own for it.
use vm_facts::Page;

/// What serving an access comes to; of a page, one of the first three.
#[derive(Clone, Copy, Debug, PartialEq, Eq, Drop)]
pub enum Served {
    /// The page is valid, and the access is allowed.
    Valid,
    /// A read or a write of the page is in flight.
    Asleep(Page),
    /// The page must be filled, and no frame is free.
    NoFrame,
    /// The stack must grow, and its pieces find no place.
    NoSpace,
    /// The access is refused, and ends the process with this signal.
    Signal(u8),
}
