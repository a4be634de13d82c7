//! Where the pages of a segment lie in swap space.
//!
//! A block is 512 bytes, so a page of 1,024 bytes has two. A data or stack segment holds chunks: chunk 0
//! has 32 blocks, each further chunk has twice as many as the one before, and none has more than 1,024.
//! Data grows upwards, so a data page lies as far from the start of its chunk as the walk there goes; the
//! stack grows downwards, so a stack page lies as far from the end. An image's text holds pieces of 1,024
//! blocks and a last one of what is left. The scheme is that of the 4.3BSD book's swap maps; the numbers
//! are this project's profile. No call takes memory.
#![tactic(auto)]

ghost use Rattle.std.specs.Prelude.{◌≡◌, length};
ghost use Rattle.swap_dmap.specs.Chunks.{chunk, pieces, spot, text_spot};

/// The length of chunk 0.
const SMALLEST_CHUNK: u32 = 32;

/// The length of the longest chunks.
const LARGEST_CHUNK: u32 = 1024;

/// The first chunk that is as long as the longest.
const FIRST_LARGEST: u32 = 5;

/// The length of each piece of a text but the last.
pub const TEXT_PIECE: u32 = 1024;

/// The length of chunk `i` in blocks: the smaller of 32 times 2 to the `i`, and 1,024.
pub fn chunk(i: u32) -> u32
    ensures { result ≡ chunk i }
{
    if i < FIRST_LARGEST {
        SMALLEST_CHUNK << i
    } else {
        LARGEST_CHUNK
    }
}

/// How many chunks a data or stack segment of `blocks` blocks holds: the fewest that have as many blocks.
pub fn chunks_for(blocks: u32) -> u32
    ensures { result ≡ length (pieces blocks) }
{
    let mut count = 0;
    let mut rest = blocks;
    while rest > 0 {
        rest = rest.saturating_sub(chunk(count));
        count += 1;
    }
    count
}

/// The chunk in which page `v` of a data or stack segment lies, and the block in it where the page begins:
/// counted from the chunk's start, or where `reversed`, as for the stack, from its end.
pub fn place_of(v: u32, reversed: bool) -> (u32, u32)
    ensures { result ≡ spot v reversed }
{
    let mut index = 0;
    let mut rest = 2 * u64::from(v);
    let mut length = chunk(index);
    while rest >= u64::from(length) {
        rest -= u64::from(length);
        index += 1;
        length = chunk(index);
    }
    let walked = rest as u32;
    (
        index,
        if reversed {
            length - 2 - walked
        } else {
            walked
        },
    )
}

/// The piece in which page `v` of a text lies, and the block in it where the page begins.
pub fn text_place_of(v: u32) -> (u32, u32)
    ensures { result ≡ text_spot v }
{
    let pages = TEXT_PIECE / 2;
    (v / pages, v % pages * 2)
}
