//! A trace with paging lines, judged: whether it is a run of the paged machine, whatever the policy, and else which is its first line that
//! can't come, and why.
//!
//! - lines.rt: one line, unit by unit.
//! - moves.rt: how many moves of the hands neighbouring lines count.
//! - checking.rt: the whole trace.
//!
//! A unit is judged by what is known of the run beside its machine:
//! - past.rt: that.
//! - locking.rt: the pages that the hands pass over.
//! - noting.rt: units that go into the journal alone: `e`, `t` and `M`.
//! - moving.rt: units that move pages: `Z`, `C`, `G`, `R`, `P` and `D`.
//! - swapping.rt: units by which processes go out and come in: `O` and `I`.
//! - judging.rt: any unit; and a move of the hands, `H`, over pages that are known.
#![tactic(auto)]

mod checking;
mod judging;
mod lines;
mod locking;
mod moves;
mod moving;
mod noting;
mod past;
mod swapping;

pub use checking::{Verdict, repage};
pub use judging::{judge_move, judge_unit};
pub use lines::judge_line;
pub use locking::locked_pages;
pub use moves::has_few_moves;
pub use past::{Past, begun_reason, past_next, turn_out};
pub use step_judge;
pub use vm_core;
