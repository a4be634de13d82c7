//! The core map: what each page frame holds, and the list of the free ones (the 4.3BSD book). To which end of the
//! list a frame is given is policy, and decided by the callers.
//!
//! Frames are numbers from 1. The map owns the token of each frame but of those that are away: taken
//! out for a transfer, or in the hands of a caller. The free list is kept as links by frame number in
//! both directions, so that a frame leaves it wherever it stands. The frames of text pages are found
//! by hash chains, as many as there are frames, so that a chain has one frame on average. Each call
//! takes the same time whatever the number of frames, but that finding a text page, and taking its
//! frame out or off the free list, walks along one chain, and `put_free_places` along the free list.
#![tactic(auto)]

mod frame_list;
mod map;
mod slot;
mod text_index;

pub use map::CoreMap;
pub use slot::{Slot, Whose};
