//! What a whole run by the written policy comes to. There is no code here: each law is the clause of a function with no body.
//!
//! - Pages come and go only as they must: `processes_are_ready`, `pages_are_called_for`, `reads_are_small`, `pages_leave_frames`,
//!   `dirty_pages_are_written` and `writes_are_worth_it`.
//! - A run ends: `stretches_are_short`, from a turn or a counted instruction to the next; `idle_turns_are_few`, turns in a row; and
//!   `runs_finish`, inputs that can run, with 64 frames and up, have one finished run.
//! - It takes few entries: `journals_are_short`, of a journal that counts few instructions and children.
#![tactic(auto)]

mod bounds;
mod lengths;
mod pages;

pub use bounds::{idle_turns_are_few, runs_finish, stretches_are_short, writes_are_worth_it};
pub use lengths::journals_are_short;
pub use pages::{
    dirty_pages_are_written, pages_are_called_for, pages_leave_frames, processes_are_ready,
    reads_are_small,
};
