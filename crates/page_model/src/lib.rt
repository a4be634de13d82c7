//! The definitions of paging, over lists, with no process and no instruction in sight.
//!
//! Paging is the 4.3BSD book's, as this project's profile states it: pages with their states, frames, the free list,
//! transfers in flight, a clock with two hands, klustered reads and writes, a text cache and a swapper. Each step is a
//! plain function over a placement, and what its policy decides is written as one too.
//!
//! Definitions, by file of specs/:
//! - Pages, Frames, Placement: pages with their states and marks, frames, and `Placement`, all of them together.
//! - Moves: what a fill, a reclaim, the beginning and the end of a transfer, and a page that goes do to a placement.
//! - Steps: the beginning and the end of a transfer page by page, as the code makes them.
//! - Runs: `run_in`, `run_out` and `run_put`, the pages that one transfer takes.
//! - Hands: `hand_move`, a move of the two hands.
//! - Reading: `read_errand`, `read_entry`, the read of a page with its run.
//! - Serve: `force`, how a frame is forced; `serving`, the table of what there is to do for a page, with its unit and step.
//! - Place: `place_entry` and `place_step`, what each entry of a journal does to a placement.
//! - Swapper, Swapping: `swap_choice` and `put_out_unit`; and what is so of whom the swapper chooses.
//! - Conditions, Dues: what an entry, a change and a fill that is due ask.
//! - Ownership: `OneOwner`, who owns each frame and block, and that a page has the blocks that it needs.
//! - PageBytes, Stored: where the bytes of each page are, and the swap image.
//! - Rank, PuttingOut: how far forcing, serving and putting out are from their end.
//!
//! The laws on all these are the clauses of `page_laws`.
#![tactic(auto)]

pub use swap_book;
