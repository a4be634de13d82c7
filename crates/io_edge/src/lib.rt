//! What a run reads and writes: its files, its swap devices and its output, each as a trait whose
//! contract says what a call moves and what a failed one leaves, with forms in memory.
#![tactic(auto)]

mod count;
mod failures;
pub mod files;
pub mod mem_files;
pub mod mem_sink;
pub mod mem_swap;
mod octets;
pub mod sink;
pub mod swap_dev;
pub mod swap_pair;
mod transfer;

pub use count::raised;
pub use files::Files;
pub use mem_files::{MemFiles, SureFiles};
pub use mem_sink::{MemSink, SureSink};
pub use mem_swap::{MemSwap, SureSwap};
pub use octets::are_octet_files;
pub use sink::Sink;
pub use swap_dev::SwapDev;
pub use swap_pair::SwapPair;
pub use transfer::{put_all, read_range};
pub use vm_facts::NoMemory;

/// What `Files::find` answers for a name.
#[derive(Clone, Copy, PartialEq, Eq, Debug)]
pub enum Found {
    /// There is such a file: the number that `read_at` takes for it, and its length in bytes.
    Is { id: u32, len: u64 },
    /// There is no such file.
    Absent,
    /// It couldn't be told; a count of faults rose.
    Failed,
}

/// How a transfer of bytes ended.
#[derive(Clone, Copy, PartialEq, Eq, Debug)]
pub enum Moved {
    /// All of it was moved.
    Done,
    /// It failed; a count of faults rose.
    Failed,
}

/// A transfer of bytes failed, as the error of a `Result`; a count of faults rose.
#[derive(Clone, Copy, PartialEq, Eq, Debug, Drop)]
pub struct Failed;
