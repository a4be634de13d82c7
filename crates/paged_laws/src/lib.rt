//! Laws of the paged machine by any policy. There is no code here: each law is the clause of a function with no body.
//!
//! Definitions, by file of specs/:
//! - Paged: `IsPaged`, what stands at each state.
//! - Led: `led_to`, the state to which a trace leads; `PlacedAt` and `OwnedAt`, what is said of it; `with_others`, other lines and another
//!   limit.
//!
//! - `paged_runs_are_flat`: a trace that is a run of the paged machine is a run of the flat machine, of no more instructions than may be.
//! - `paged_runs_are_owned`: at each state of a paged run each frame and each block has one owner or is free, and the spaces, the
//!   holdings and what is due are those of the flat state.
//! - `paged_machines_stand`: a machine with its bytes that stands at a state of a paged run stands at the next one.
//! - `policy_runs_are_paged`: each journal of the written policy is a run of the paged machine.
//! - `paged_runs_need_no_schedule`: a paged run is one with any schedule, and with each larger limit.
//!
//! Of traces that have lines of parts of moves too (`IsPagedTrace`):
//! - `traces_are_flat`, `traces_are_owned`, `traced_machines_stand`: the same as of paged runs.
//! - `moves_are_told_by_parts`: a line of moves of the hands may be told by the lines of their parts.
#![tactic(auto)]

mod laws;
mod trace_laws;

pub use laws::{
    paged_machines_stand, paged_runs_are_flat, paged_runs_are_owned, paged_runs_need_no_schedule,
    policy_runs_are_paged,
};
pub use trace_laws::{
    moves_are_told_by_parts, traced_machines_stand, traces_are_flat, traces_are_owned,
};
