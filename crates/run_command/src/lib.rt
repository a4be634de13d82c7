//! The commands `run` and `load`: a schedule and images that words name, or a workload that a number stands for, are run over two
//! swap devices, and the transcript, or what it counts, is written.
#![tactic(auto)]

mod command;
mod loading;
mod naming;
mod paired;
mod writing;

pub use command::{core_up_to, run_command};
pub use loading::load_command;
pub use naming::name_images;
pub use paired::run_paired;
pub use replay_command;
pub use vm_core;
