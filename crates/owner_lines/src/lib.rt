//! Who owns what in a machine, as lines of text: its frames, its transfers in flight, its processes, the pages that are
//! due, and the pieces of its swap (this project's profile).
//!
//! The laws of these lines (laws.rt), each the clause of a function with no body:
//! - `frames_are_told`: each frame has one line, which is so of it; the places on the free list are each told once.
//! - `swap_is_told`: the rows of blocks cover the swap area once, each block with its holder.
//! - `owners_are_told`: the whole text, whose numbers are those that the journal's entry of owners says.
//! - `runs_are_told`: so it is at each state of a run.
//! - `machines_are_told`: what is printed of a machine is told of the state at which it stands, registers too.
//! - `entries_are_first`: the entries after which it is told are the first ones of the run.
#![tactic(auto)]

mod due;
mod frames;
mod laws;
mod processes;
mod swap;
mod transfers;
mod words;
mod writing;

pub use frames::carrier;
pub use laws::{
    entries_are_first, frames_are_told, machines_are_told, owners_are_told, runs_are_told,
    swap_is_told,
};
pub use writing::write_owners;
