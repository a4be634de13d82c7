//! The stated workload of `vmrun load NUMBER`: two programs, a schedule, and the text of what a run of them did. A
//! number stands for one workload, so two runs of it do the same.
//!
//! A law (laws.rt) says what a load does: its two programs, run by eight processes, count what its number says, whatever the schedule and
//! the frames are.
#![tactic(auto)]

mod counts;
mod laws;
mod load;
mod programs;
mod schedule;
mod text;

pub use counts::{Counts, counts_of};
pub use laws::loads_count;
pub use load::{Load, make_load};
pub use text::load_text;
