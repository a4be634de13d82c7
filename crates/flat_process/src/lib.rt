//! A process of the flat machine as code: its space, over plain lists of bytes, the images that it runs, one
//! instruction of it with the pages that it touches, and the replies of its calls. All rules are those of `flat_model`.
#![tactic(auto)]

mod calling;
mod present;
mod process;
mod program;
mod space;

pub use calling::{refused_reply, replied, reply};
pub use process::{Held, Process, with_results};
pub use program::{Flat, Program, are_images, are_numbers, load_all, program_at};
pub use space::FlatSpace;
