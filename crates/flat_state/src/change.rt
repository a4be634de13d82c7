//! What an entry does to processes and spaces, as a type. Pager, flat machine and definitions have it in common.
use vm_facts::Bytes;

/// What an entry does to the processes and their spaces, beside the registers that it leaves (this
/// project's profile).
#[derive(Debug, Drop)]
pub enum Change {
    /// Nothing.
    Keep,
    /// The data and the stack have so many pages, those that are added with zeros.
    Resize { data_pages: u32, stack_pages: u32 },
    /// A child with this pid has a copy of the space.
    Fork { child: u32 },
    /// A child with this pid has the space itself, which the process lends it.
    Lend { child: u32 },
    /// The process has a new space of this image, whose stack page 0 has the bytes of `top`; a space that it
    /// borrowed goes back.
    Exec { image: u32, top: Bytes },
    /// The zombie child with this pid is gone.
    Reap { child: u32 },
    /// The process sleeps until a child of it is a zombie.
    Sleep,
    /// The process ends with a status; a space that it borrowed goes back.
    End { status: u32 },
}
