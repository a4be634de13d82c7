//! System calls over the paged machine (the 4.3BSD book has their meaning; numbers, limits and the order of errors
//! are this project's profile). A call may not touch the tables: it makes its entry, and others, by the machine's
//! calls.
//!
//! Each call is made by a process whose instruction was carried out, but for its registers: the record still has those
//! from before it, and `regs` are those that it left.
#![tactic(auto)]

mod children;
mod copying;
mod ending;
mod executing;
mod filling;
mod laws;
mod making;
mod replying;
mod sizing;
mod starting;
mod writing;

pub use call_reads;
pub use children::{getpid, wait};
pub use copying::{copy_due, copy_page};
pub use ending::{exit, kill, leave_space};
pub use executing::execve;
pub use fault_fill;
pub use fault_fill::clock_hands;
pub use filling::fill_start;
pub use laws::break_is_flat;
pub use making::{fork, vfork};
pub use replying::{Called, answer_refused, answer_sent};
pub use sizing::brk;
pub use writing::write;
