//! Laws of a whole run by the written policy: what stands after each next unit, of a state and of a machine with its
//! bytes. There is no code here: each law is the clause of a function with no body.
#![tactic(auto)]

mod kernel;
mod laws;
mod machine;

pub use kernel::units_are_the_kernels;
pub use laws::{instructions_have_room, lawful_is_flat, runs_end, runs_stand, units_allowed};
pub use machine::{
    images_agree, inputs_fit, machine_units, machines_stand, reads_are_flat, registers_stand,
    residents_stand, sizes_stand,
};
