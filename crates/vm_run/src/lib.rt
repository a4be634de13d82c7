//! The top call: the words of a command line, the files, the devices and the output in, a status out; the same where all of
//! these are in memory; and what is told beside the line of a fault.
#![tactic(auto)]

mod command;
mod explaining;
mod in_memory;
mod laws;

pub use command::vmrun;
pub use explaining::explain;
pub use in_memory::{InMemory, vmrun_in_memory};
pub use laws::{sound_loads_complete, sound_runs_complete};
