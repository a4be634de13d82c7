//! A line of a process, judged over a machine: what the process does next is made, and compared with the line. Where the line may come it was
//! made so, and else the first reason is told for which it can't.
//!
//! - ready.rt: what keeps a process from a step, before its pages.
//! - making.rt: the machine makes what the process does next, with room for one entry.
//! - telling.rt: what it made in the place of the line.
//! - stepping.rt: all of it.
#![tactic(auto)]

mod making;
mod ready;
mod stepping;
mod telling;

pub use move_judge;
pub use proc_run;
pub use ready::stuck;
pub use stepping::judge_step;
