//! A whole run over the paged machine: its start, the lines of its schedule, and its closing phase (this project's
//! profile). No table and no device may be reached but by the machine's calls.
//!
//! The start has a part over a machine (`start`), which begins the first processes and fills their stack pages; `fill_rest` fills whatever is due.
#![tactic(auto)]

mod beginning;
mod closing;
mod events;
mod filling;
mod first_processes;
mod lines;
mod owners;
mod run;
mod running;
mod schedule;
mod starting;

pub use closing::come_in;
pub use events::Went;
pub use filling::fill_rest;
pub use first_processes::{Started, start};
pub use lines::{audit, interrupt, note};
pub use owners::owners_of;
pub use proc_run;
pub use proc_run::run_units;
pub use proc_run::step_units::swapper;
pub use run::Core;
pub use running::{TURN, count_behind, finish};
pub use schedule::{Unfinished, run_schedule};
