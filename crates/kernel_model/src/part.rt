//! A part of a move of the clock's hands, as a type: traces name it, and machines make it.
use vm_facts::Page;

/// A part of a move of the clock's hands, alone.
#[derive(Clone, Copy, Debug, PartialEq, Eq, Drop)]
pub enum HandPart {
    /// A valid page is made invalid, and stays in its frame.
    Expires { page: Page },
    /// A write of `n` invalid dirty pages of a segment begins, from `lo` upwards.
    Writes { lo: Page, n: u32 },
    /// The frame of an invalid clean page goes to the tail of the free list, and still holds it.
    Frees { page: Page },
}
