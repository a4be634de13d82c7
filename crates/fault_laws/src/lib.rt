//! Laws of page faults, beside the least that any replacement has. There is no code here: each law is the clause of a function with no body.
//!
//! - `demand_paging_brings_least`: no memory brings fewer pages in than the least faults of a plan with as many frames.
//! - `each_page_faults`: a plan has at least as many faults as its references have pages.
//! - `policies_have_least_faults`: no policy has fewer faults than the least of any plan with as many frames.
//! - `more_frames_may_cost_faults`: FIFO has 9 faults on twelve references with three frames, and 10 with four.
//! - `runs_fault_enough`: a run's faults and copies are at least as many as the least faults of its references with as many
//!   frames.
//! - `copies_count`: a run's faults alone may be fewer.
#![tactic(auto)]

mod plans;
mod replacement;
mod runs;

pub use plans::{demand_paging_brings_least, each_page_faults};
pub use replacement::{more_frames_may_cost_faults, policies_have_least_faults};
pub use runs::{copies_count, runs_fault_enough};
