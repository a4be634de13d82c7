//! The flat machine as code: its processes, and what a step of one of them does to all. All rules are those of
//! `flat_model`.
#![tactic(auto)]

mod deed;
mod machine;

pub use deed::Did;
pub use machine::Machine;
