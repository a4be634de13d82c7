//! What is asked of the system: files of the current folder, by name; ranges of an open file; an output. Each call is told by
//! ghost members that may tell or not. `Host` passes the calls on to the system, and tells nothing.
#![tactic(auto)]

mod facts;
mod host;
mod output;
mod system;

pub use facts::FileFacts;
pub use host::Host;
pub use output::SystemOutput;
pub use system::{System, SystemFile};
