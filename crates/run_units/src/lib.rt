//! Units that a machine makes are next units of a run: what `paging_units` says that a call made, joined with the policy of
//! `run_model` and with the machine along a run of `run_laws`. And what is so at each of the units that were made, and over all of them: their
//! account and their economy, and those of the journal that they make. There is no code here: each law is the clause of a function with an
//! empty body.
//!
//! - laws.rt: one law for each kind of unit.
//! - account.rt: `units_are_accounted`, at each unit frames and blocks have one owner, its process is ready, space is refused rightly,
//!   pages come as they are called for, and leave their frames for a reason, once written. `units_are_economical`: stretches are short, few
//!   turns in a row count nothing, and writes are worth it. `leads_say_image`: the swap image after units is the one that they say.
//!   `lawful_journals`: all of it, from the start of a run, with a lawful journal.
#![tactic(auto)]

mod account;
mod laws;

pub use account::{lawful_journals, leads_say_image, units_are_accounted, units_are_economical};
pub use fault_fill::clock_hands;
pub use laws::{
    accesses_tell_pages, filling_is_next, marks_come, moving_is_next, serving_is_next,
    settling_is_next, steps_are_made, swapping_is_next, units_are_next,
};
