//! The assembler of the VAX subset: `assemble` makes the bytes of a source, and `encode` those of one instruction.
//! `explain` says why a source is bad.
//!
//! What a source may be says `asm_grammar`.
#![tactic(auto)]

mod answers;
mod assembly;
mod code;
mod encoding;
mod labels;
mod program;
mod reasons;

pub use answers::{Assembled, BadLine, Encoded, Program, Reason};
pub use asm_grammar::Label;
pub use assembly::encode;
pub use program::assemble;
pub use reasons::explain;
pub use vm_facts::NoMemory;
