//! A process runs: one instruction after another, with the calls that it makes and the pages that it waits for, as
//! this project's profile of the run of 4.3BSD has it. Pages are served by `fault_fill` and calls made by
//! `proc_calls`: no table may be touched here.
//!
//! Which pages the next instruction touches, and its call, before the first one that isn't valid, is found by trials (seeking.rt,
//! touching.rt): it is tried again over a memory of which the pages so far alone are shown, and may not be carried out by one.
#![tactic(auto)]

mod advancing;
mod attempting;
mod calling;
mod choosing;
mod finishing;
mod reading;
mod running;
mod seeking;
mod serving;
mod shown;
mod stretch;
mod touched;
mod touching;

pub use advancing::Patience;
pub use attempting::{attempt_cached, completes};
pub use choosing::{can_step, next_turned, ready_regs};
pub use finishing::{Begun, begun_step, begun_steps_are_told, finish_step, pid_of};
pub use running::run;
pub use seeking::{Touches, touched_and_wanted};
pub use step_units;
pub use step_units::run_units;
pub use touched::Touched;
pub use touching::touched_before;
pub use user_step::DecodeCache;
