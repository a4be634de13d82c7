//! What reading a file or an image comes to, and why it wasn't read.
ghost use Rattle.std.specs.Prelude.{◌≡◌};
ghost use Rattle.command_edge.specs.declared.answers.Unread.TheVariants.{FileFault, NoMemory};

use aout_image::Image;
use io_edge::Failed;
use std::alloc::AllocError;

/// Why a file wasn't read.
#[derive(Clone, Copy, Debug, PartialEq, Eq, Drop)]
pub enum Unread {
    /// There is no file of that name.
    Absent,
    /// The file is no image, for this reason, 1 to 6.
    NotImage(u8),
    /// A file failed.
    FileFault,
    /// The allocator refused.
    NoMemory,
}

impl From<Failed> for Unread {
    ghost from_gives = { λ _ e. e ≡ FileFault };

    fn from(_e: Failed) -> Unread {
        Unread::FileFault
    }
}

impl From<AllocError> for Unread {
    ghost from_gives = { λ _ e. e ≡ NoMemory };

    fn from(_e: AllocError) -> Unread {
        Unread::NoMemory
    }
}

/// An image that was found and judged.
#[derive(Clone, Copy, Debug, PartialEq, Eq, Drop)]
pub struct Opened {
    /// What its header says.
    pub image: Image,
    /// The number by which its file is read.
    pub file: u32,
}

// A file's header, and what it says.
#[derive(Drop)]
pub(crate) struct Headed {
    pub(crate) image: Image,
    pub(crate) header: Vec<u8>,
}

/// An image that was read.
#[derive(Drop)]
pub struct Loaded {
    /// What its header says.
    pub image: Image,
    /// Its file, from the header to the end of its text and data.
    pub bytes: Vec<u8>,
}
