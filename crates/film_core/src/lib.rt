//! A run that goes on from entry to entry: after each it stands at a state of the run, and can be looked at. Between
//! two entries it may be looked at, and nothing of it changed.
#![tactic(auto)]

mod film;
mod going;
mod marks;
mod resting;
mod settling;
mod starting;

pub use film::Film;
pub use vm_core::Started;
