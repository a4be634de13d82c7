//! What the entries of a journal make of the tables of the kernel: pages that are read, land, are written and go, the
//! moves of the hands, a process that goes out or comes in, and the change of a process; and the journal's room for
//! them. Only `machine_state` may call these steps, once its journal has room.
#![tactic(auto)]

pub mod applying;
pub mod dropping;
pub mod ending;
pub mod giving_up;
pub mod joining;
pub mod landing;
pub mod launching;
pub mod notes;
pub mod parts;
pub mod places;
pub mod reading;
pub mod u_pages;

pub use kernel_tables;
pub use space_map;
