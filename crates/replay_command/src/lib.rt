//! The command that judges a transcript: whether its entries are a run of the flat machine over its images.
//!
//! Laws, each the clause of a function with no body, say that what a run writes reads back, is judged to be one, and that `replay` says so:
//! - `runs_are_replayed`: the text of a lawful journal, traced or not, is read as its entries, and none of them is bad.
//! - `texts_are_flat`: of a run the numbers of every lawful journal are within their ranges, so each one's text is that of a run.
//! - `shown_is_flat`: what is shown of a journal without the trace is the same run of the flat machine.
//! - `texts_are_accepted`: the text of a run and a line after it are judged to be a run of the flat machine.
//! - `faults_have_one_line`: the line of a fault that names no file is a last line, which a replay leaves out.
//! - `same_images`: a replay has the images that a run has of the same names.
#![tactic(auto)]

mod acceptance;
mod command;
mod explaining;
mod flat_texts;
mod images;
mod last_line;
mod naming;
mod transcript;

pub use acceptance::{faults_have_one_line, same_images, texts_are_accepted};
pub use command::replay_file;
pub use explaining::explain_transcript;
pub use flat_texts::{runs_are_replayed, shown_is_flat, texts_are_flat};
pub use images::load_images;
pub use last_line::without_fault_line;
pub use naming::{Naming, name_images};
pub use transcript::{TRANSCRIPT_BYTES, read_entries, transcript_bytes_are_documented};
