//! What an instruction computes: its operands evaluated, the registers that it leaves, and the numbers that it is to write.
//!
//! Memory is read, and not written.
#![tactic(auto)]

mod byte;
mod calling;
mod computing;
mod effect;
mod evaluating;
mod outcome;
mod plain;
mod pushes;
mod ready;
mod registers;
mod returning;
mod stack;
mod window;

pub use calling::call;
pub use computing::{compute, compute_plain, is_plain};
pub use evaluating::evaluate_all;
pub use outcome::{Outcome, Write};
pub use plain::{execute_in_registers, stays_in_registers};
pub use pushes::Pushes;
pub use ready::Ready;
