//! The process table: the record of each process, found by its pid.
//!
//! The records stand in a slab, whose keys nobody else sees. There is room for 64, taken when the table is
//! made, and each call but `new` takes no memory. A call looks first at the record that was put last, and then at
//! each once at most. The fields of a record are this project's profile of the process structure of the 4.3BSD book.
#![tactic(auto)]

mod process;
mod table;

pub use process::{Life, Proc};
pub use table::{Added, ProcTable};
