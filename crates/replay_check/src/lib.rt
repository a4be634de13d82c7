//! The judge of transcripts.
//!
//! It runs images with no frame and no swap, over `flat_machine`, and says whether the entries of a journal are what
//! the processes do, and which pages each of their instructions touches. All rules are those of `flat_model`.
#![tactic(auto)]

mod expecting;
mod replaying;
mod touching;

pub use expecting::{Expected, Misfit, explain};
pub use flat_process::{Flat, are_images, are_numbers};
pub use replaying::{Verdict, instructions_are_documented, replay};
pub use touching::references;
