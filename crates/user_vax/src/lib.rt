//! One instruction of a user process: what it is, over any memory.
//!
//! The instructions, their operands and their condition codes are this project's profile of the VAX. The definitions say
//! what an instruction does; `user_step` carries it out.
#![tactic(auto)]

mod laws;
mod operand;
mod reading;
mod refused;
mod stepped;

pub use laws::{first_refusal_decides, missing_bytes_only_stop, writes_are_allowed};
pub use operand::{Evaluated, Place};
pub use reading::{read_byte, read_long, read_number, read_word};
pub use refused::{Refused, SIGBUS, SIGFPE, SIGILL, SIGSEGV, signals_are_numbered};
pub use stepped::Stepped;
