//! What system calls read, over any memory of a process: the bytes that an argument, a path or a list of arguments
//! stands in, as far as the first that is refused (the 4.3BSD book has the calls; their order and limits are this
//! project's profile). Nothing is done here yet: no entry is made and no device called.
#![tactic(auto)]

mod reading;

pub use reading::{execve_reply, read_by_call};
