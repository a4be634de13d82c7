//! The machine: all tables of the kernel and the journal, and one call for each step that an entry stands for. No
//! other crate moves the tables or appends to the journal. A call makes room first, then moves the tables, and
//! appends the entry last.
#![tactic(auto)]

mod answers;
mod asking;
mod changing;
mod ending;
mod laws;
mod machine;
mod paging;
mod parts;
mod places;
mod starting;
mod swapping;
mod user_memory;

pub use laws::{memory_is_flat, writes_go_on};
pub use machine::Machine;
pub use swap_wants::{Want, image_wants};
pub use table_steps::kernel_tables::Named;
pub use table_steps::notes::or_stop;
pub use user_memory::SpaceMemory;
