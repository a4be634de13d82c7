//! What a run did, as a table of counts: over its journal, and over the states to which that leads, entry by entry.
#![tactic(auto)]

mod ends;
mod finish;
mod heads;
mod laws;
mod look;
mod noting;
mod rows;
mod sums;
mod texts;
mod valid;

pub use finish::{Finish, put_finish};
pub use heads::{Head, PagingHead, RunHead};
pub use laws::{counts_agree, ends_are_looked_at};
pub use look::{Flight, Look, look_over};
pub use noting::{Note, What, note_entry};
pub use owner_lines;
pub use sums::{PagingSums, RunSums, Tally, WrittenSums};
pub use texts::stats_text;
