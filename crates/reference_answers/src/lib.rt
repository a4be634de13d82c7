//! Questions about references, answered as texts: how few page faults could any replacement have had, how many has LRU
//! at each size of memory, how many have other policies with one number of frames or several, and which are they? Pages are numbered from 1
//! in the order of their first references.
//!
//! The references are a run's, or those of a file, which is read here (reader.rt), and of which the command `policies` asks (command.rt).
#![tactic(auto)]

mod answering;
mod command;
mod lines;
mod numbering;
mod reader;
mod references;
mod sweeping;

pub use answering::{curve_text, optimum_text, policies_text, references_text, sweep_text};
pub use command::{REFERENCES_BYTES, compare_policies, reference_bytes_are_documented};
pub use reader::{read_references, references_are_documented};
pub use references::References;
