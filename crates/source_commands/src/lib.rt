//! The commands that turn sources into images and images into listings; and, for who wrote a bad source, what stands in its first bad line
//! that may not stand there.
//!
//! - source.rt, program_file.rt: `as`. listing.rt, text.rt: `dis`.
//! - explaining.rt: why a source is bad. lines.rt, statements.rt, operands.rt: what is wrong with a line, from its label on to its operands;
//!   mistakes.rt: what a line may have; texts.rt: small questions about a text.
#![tactic(auto)]

mod explaining;
mod laws;
mod lines;
mod listing;
mod mistakes;
mod operands;
mod program_file;
mod source;
mod statements;
mod text;
mod texts;

pub use explaining::explain_source;
pub use laws::programs_are_images;
pub use listing::list_file;
pub use program_file::file_of;
pub use source::{assemble_file, source_bytes_are_documented};
