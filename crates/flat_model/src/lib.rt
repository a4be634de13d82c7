//! The flat machine: processes with memory of their own, lent only during vfork, where nothing is paged.
//!
//! The flat machine's run over the entries of a journal is what every transcript means. The calls have the meaning
//! that the 4.3BSD book gives them; their numbers, limits and orders of errors are this project's profile.
//!
//! Definitions, by file of specs/:
//! - Instruction: `instruction_in`, the next instruction over the bytes of a space.
//! - Calls: `reply_of`, what a system call comes to.
//! - Step: `flat_step`, the entries, writes and change of a process's next step.
//! - Run: `flat_entry` and `flat_run`, the run of the flat machine that a journal is, or none.
//! - Touched: `touched`, the pages that a process's next instruction reads, tests or writes.
//! - Shown: `shown`, what a space answers of which some pages alone are there.
//! - Asked: `asks` and `held`, the pieces of swap space that a step wants, and who holds which.
//!
//! Two laws with no body: by `runs_go_on` a run of the flat machine goes on by one entry, and `calls_are_documented` has the
//! numbers of the errors and the limits of the calls.
#![tactic(auto)]

mod arguments;
pub mod calls;
mod laws;
mod reading;
mod starting;

pub use arguments::Arguments;
pub use calls::{
    ARGUMENT_LIMIT, DATA_LIMIT, E2BIG, EAGAIN, EBADF, ECHILD, EFAULT, ENOENT, ENOMEM,
    PROCESS_LIMIT, Reply, STRING_LIMIT, SystemCall, WRITE_LIMIT,
};
pub use laws::{calls_are_documented, runs_go_on};
pub use reading::{
    Asked, argument, arguments_at, exit_reply, string_from, three_arguments, write_reply,
};
pub use starting::{start_page, start_regs};
