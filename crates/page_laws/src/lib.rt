//! The laws of paging: what each step of `page_model` keeps of ownership, of the bytes of pages and of what is due,
//! and that forcing and serving end, and in how few entries. There is no code here: each law is the clause of a function with an empty body.
//!
//! - `start_stands`: at the start each frame is free, no page is filled, and the hands are a quarter of the frames
//!   apart.
//! - `ownership_kept`: through each entry, change and unit of serving each frame has one owner: the free list, a
//!   transfer or its page; a space that the test calls settled has no page in flight.
//! - `blocks_kept`: each page that needs its two blocks has them, in its own owner's holding; those of different
//!   pages don't meet; text that nobody shares isn't saved, and at most in a free frame.
//! - `memory_kept`: each page's flat bytes stay where its state says, for every swap image and all files, through
//!   fills, reads, writes, the hands and user writes.
//! - `spaces_kept`: the same through growth and break, fork, a new image, and a space and a text that go.
//! - `others_same`: a page that a step leaves alone has the same bytes in its frame and on swap.
//! - `few_transfers`: forcing and serving keep at most 16 transfers in flight, and each has a page.
//! - `forcing_ends`: forcing as a whole comes to a free frame, with nothing in flight after at most one unit more than
//!   there are frames; locked pages stay valid.
//! - `serving_ends`: serving as a whole comes to a valid page; locked pages stay valid.
//! - `serving_units`: the next unit of serving is its entry, and its step is what the entry does.
//! - `entries_added`, `forcing_is_short` and `serving_is_short`: how many entries units add to a journal; of forcing and serving few more
//!   than the number by which the transfers in flight fall.
//! - `swapper_chooses`: whom the swapper brings in or puts out, said of all that it could choose.
//! - `due_kept`: what is due stays unfilled, and what it is copied from stays filled, through each paging entry and each
//!   change of a process.
//! - `putting_out_ends`: a process is out after so many units at most.
//! - `residence_moves`: a process goes in or out alone.
//! - `runs_are_widest`: which neighbours of a page are read or written with it, and that none could be added.
//! - `moves_take_idle_pages`: what a move of the hands frees or writes was invalid, off the free list and not locked.
//! - `moves_write_their_run`: the write that a move begins is the one that `hand_run` names.
//! - `frames_are_left`: when a page leaves its frame, and that what must be written stays in its till it was.
//!
//! Lemmas, by folder of proofs/: Lists, Ownership, Moves, Bytes, Blocks, Due, Ends, Swapper, Runs
//! and Leaving; those of spans are Spanning, Forcing and Serving. What the laws say more than once, by file of specs/: Neighbours,
//! Sweeping, Leaving and Spans; and the longer laws by name: Owners, Memory, Dues and Short.
#![tactic(auto)]

pub mod laws;
mod spans;

pub use laws::{
    blocks_kept, due_kept, few_transfers, forcing_ends, frames_are_left, memory_kept,
    moves_take_idle_pages, moves_write_their_run, others_same, ownership_kept, putting_out_ends,
    residence_moves, runs_are_widest, serving_ends, serving_units, spaces_kept, start_stands,
    swapper_chooses,
};
pub use spans::{entries_added, forcing_is_short, serving_is_short};
