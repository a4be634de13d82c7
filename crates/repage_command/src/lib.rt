//! The command that judges a trace: whether its lines are a run of the paged machine, by any policy. A trace may have
//! lines of parts of moves of the hands, which `run` never writes, and is read here (trace_reader.rt).
#![tactic(auto)]

mod command;
mod explaining;
mod judging;
mod laws;
mod part_reader;
mod reading;
mod telling;
mod trace;
mod trace_reader;

pub use command::{repage_file, repage_owners};
pub use explaining::explain_repage;
pub use laws::transcripts_are_traces;
pub use trace::Trace;
pub use trace_reader::read_trace;
