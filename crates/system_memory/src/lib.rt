//! A system in memory. It tells what its files hold and what its output took. Calls are to fail by their numbers, and what is said of
//! its files may change under way.
#![tactic(auto)]

mod faults;
mod mem_file;
mod mem_output;
mod mem_system;

pub use faults::Faults;
pub use mem_file::MemFile;
pub use mem_output::MemOutput;
pub use mem_system::MemSystem;
