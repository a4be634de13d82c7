//! What a run reads and writes over the system: the files of the current folder, swap devices that are
//! files of it, and standard output, as thin adapters. Each is a form of a trait of `io_edge`, over the
//! system's calls, and tells what it holds where the system tells.
#![tactic(auto)]

mod checked_swap;
mod dir_files;
mod file_swap;
mod last_line;
mod out_sink;
mod own_file;
mod place;
mod refusal;

pub use checked_swap::CheckedSwap;
pub use dir_files::DirFiles;
pub use file_swap::FileSwap;
pub use io_edge::{Moved, Sink, SwapDev};
pub use out_sink::OutSink;
pub use refusal::Refusal;
