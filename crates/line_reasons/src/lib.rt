//! Why the first bad line of a schedule or of a file of references is bad: its reason, by `bad_line` of `schedule` and of `references`, and
//! a line of text that tells it, by `explain_schedule` and `explain_references`.
#![tactic(auto)]

mod digits;
mod explaining_references;
mod explaining_schedule;
mod lines;
pub mod references;
pub mod schedule;
mod telling;

pub use explaining_references::explain_references;
pub use explaining_schedule::explain_schedule;
