//! One instruction of a user process carried out, over any memory.
//!
//! `step` either carries out the whole instruction or changes nothing.
//! `completes` asks whether it would be carried out, of a memory that stays as it is.
#![tactic(auto)]

mod code;
mod commit;
mod completing;
mod decode_cache;
mod decoding;
mod fixed_code;
mod slots;
mod stepping;

pub use completing::completes;
pub use decode_cache::DecodeCache;
pub use fixed_code::FixedCode;
pub use stepping::{step, step_cached, step_fixed, step_unless_call};
