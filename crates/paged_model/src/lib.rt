//! What a trace with paging lines may say, whatever the policy of its kernel: at each state of the paged machine which line may come, and
//! why another may not.
//!
//! Definitions, by file of specs/:
//! - Reasons: of several reasons the first that holds.
//! - Moves: `zero_reason`, `copy_reason`, `get_reason`, `reclaim_reason`, `hand_reason` and `done_reason`, of the lines that move pages: what
//!   each asks of the placement.
//! - Leaving: `put_reason`, `out_reason` and `in_reason`, of the lines by which processes go out and come in.
//! - Steps: `step_reason`, of the lines of processes: who steps is in with its pages, and does what the flat machine says.
//! - Runs: `unit_reason`, of any unit at a state; `first_misstep`, the first bad line of a trace with its reason; `IsPagedRun`.
//! - Coming: `ZeroComes`, `CopyComes`, `GetComes` and `ReclaimComes`, the conditions of the lines that fill pages, by their names.
//! - Parts: `part_reason`, of the lines that are parts of a move of the hands, which `run` never writes.
//! - Traces: `trace_line_reason`, of any line at a state; `first_trace_misstep` and `IsPagedTrace`, of traces with such lines too.
//!
//! Laws, each a function with no body:
//! - `runs_have_fronts`: the first lines of a paged run are one, and a run goes on from where its front leads.
//! - `parts_come`: no reason is given against a part of a move exactly where its conditions hold.
//! - `entries_are_lines`: a trace of entries alone is judged as these entries are.
//! - `traces_have_fronts`: the first lines of a trace that is a run are one, and it goes on from where its front leads.
#![tactic(auto)]

mod laws;
pub mod line;
pub mod reason;

pub use laws::{entries_are_lines, parts_come, runs_have_fronts, traces_have_fronts};
pub use line::Line;
pub use reason::{Misstep, Reason};
