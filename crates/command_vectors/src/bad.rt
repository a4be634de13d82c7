//! Why a line of a recorded case can't be taken. Such a line is a fault of the file, not of the program.
use io_edge::NoMemory;
use std::alloc::{AllocError, AllocFailed};
use std::num::ParseIntError;

/// Why a line can't be taken.
#[derive(Clone, Copy, Debug, Drop)]
pub enum Bad {
    /// It isn't one of the lines that a case has.
    Line,
    /// It has a word that is no number.
    Number,
    /// It names a file that isn't there.
    File,
    /// There is no memory for it.
    Memory,
}

impl From<AllocError> for Bad {
    fn from(_: AllocError) -> Bad {
        Bad::Memory
    }
}

impl<T: Drop> From<AllocFailed<T>> for Bad {
    fn from(_: AllocFailed<T>) -> Bad {
        Bad::Memory
    }
}

impl From<NoMemory> for Bad {
    fn from(_: NoMemory) -> Bad {
        Bad::Memory
    }
}

impl From<ParseIntError> for Bad {
    fn from(_: ParseIntError) -> Bad {
        Bad::Number
    }
}
