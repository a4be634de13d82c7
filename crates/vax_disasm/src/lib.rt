//! The disassembler of the VAX subset: `show` gives the text of the instruction that some bytes begin with.
#![tactic(auto)]

mod bytes;
mod disassembly;
mod line;
mod showing;

pub use disassembly::{Shown, show};
