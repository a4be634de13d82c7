//! Why a run stops before its end, and want of memory.
ghost use Rattle.std.specs.Prelude.{◌≡◌};

use std::alloc::{AllocError, AllocFailed};

/// Want of memory: the allocator refused. An operator `?` on what `std` answers then makes it.
#[derive(Clone, Copy, Debug, PartialEq, Eq, Drop)]
pub struct NoMemory;

impl From<AllocError> for NoMemory {
    ghost from_gives = { λ _ e. e ≡ record {} };

    fn from(_e: AllocError) -> NoMemory {
        NoMemory
    }
}

impl<T: Drop> From<AllocFailed<T>> for NoMemory {
    ghost from_gives = { λ _ e. e ≡ record {} };

    fn from(_e: AllocFailed<T>) -> NoMemory {
        NoMemory
    }
}

/// Why a run stops before its end.
#[derive(Clone, Copy, Debug, PartialEq, Eq, Drop)]
pub enum Stop {
    /// The allocator refused.
    NoMemory,
    /// A further entry is needed, and the journal has as many as it may.
    JournalFull,
    /// A page could not be read from a file.
    FileFault,
    /// A page or a u page could not be read from the swap device.
    SwapReadFault,
    /// A page or a u page could not be written to the swap device.
    SwapWriteFault,
}
