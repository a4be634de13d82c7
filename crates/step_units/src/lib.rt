//! What a machine makes of each instruction and call of a process, of the lines of a schedule, and of the turns of the closing phase,
//! is next units of a run: the calls of `proc_calls` and the serving of `fault_fill`, joined with the laws of `run_units`. There is no
//! code here: each law is the clause of a function with an empty body.
//!
//! Whatever the devices gave, what the next call asks for, beside that the machine can go on, is so again after each unit and each call
//! (lasting.rt).
#![tactic(auto)]

mod halfway;
mod lasting;
mod laws;
mod lines;

pub use halfway::{marks_find_theirs, marks_go_on};
pub use lasting::{
    callers_are_seen, calls_continue, entries_continue, going_on_adds, lines_continue,
    pages_continue, units_continue,
};
pub use laws::{
    breaks_are_steps, calls_are_steps, ends_are_steps, forks_are_steps, images_are_steps,
    instructions_are_steps, rests_are_made,
};
pub use lines::{lines_are_made, lines_begin, longwords_stay, turns_begin};
pub use proc_calls;
pub use proc_calls::{call_reads, fault_fill};
pub use run_units;
pub use swapper;
