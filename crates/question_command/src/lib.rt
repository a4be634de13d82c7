//! A question about a run, of `opt`, `curve`, `owners`, `film`, `stats` or `refs`: the schedule and the images that words name are read, the
//! run is made in memory, and the answer is written.
//!
//! The run of `film` and `stats` goes on from entry to entry and is looked at after each. Whether its limit cut a run is found in the same way.
#![tactic(auto)]

mod asking;
mod command;
mod counting;
mod ending;
mod filming;

pub use asking::film_of;
pub use command::{ask_command, explain_limit};
pub use filming::entry_line;
pub use reference_commands;
pub use reference_commands::Question;
