//! The tables of the kernel, and what moves them alone: records of processes, spaces that come, frames that are
//! taken. No journal is known here, and no device is called. The fields stand open, but only `table_steps` and
//! `machine_state` may move them.
#![tactic(auto)]

mod entering;
mod families;
mod fill;
mod forking;
mod named;
mod places;
mod processes;
mod spaces;
mod tables;
mod u_pages;

pub use fill::{DueFill, fill_frame};
pub use named::Named;
pub use proc_table;
pub use processes::record_of;
pub use spaces::Spaces;
pub use tables::{Tables, owner_of};
pub use u_pages::{are_regs, regs_in, u_page};
