//! Units of paging over a machine: which kernels they lead to, and what is known of a call that stops at one. The calls
//! that serve pages, move the hands and put processes out say what they did in these words. There is no code here: each
//! law is the clause of a function with an empty body.
//!
//! - Made: one unit, and units in order, from a kernel and a swap image to another.
//! - Stops: a call that stops where a unit comes next.
#![tactic(auto)]

mod laws;

pub use laws::{units_follow, units_keep};
pub use machine_state;
