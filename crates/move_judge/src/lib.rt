//! One line of a trace that moves pages, the hands, or whole processes, judged over a machine: it is made where it may come, and else the
//! first reason is told for which it can't, and nothing is done.
//!
//! - reasons.rt: of several reasons the first.
//! - looking.rt: what the machine tells of a page, of frames and of what is due.
//! - filling.rt: lines by which pages take frames, or are taken back: `Z`, `C`, `G` and `R`.
//! - putting.rt: pages that leave their frames: `P`.
//! - ending.rt: the line by which a transfer ends: `D`.
//! - hands.rt: one move of `H`.
//! - idling.rt, parts.rt: pages that are invalid in frames off the free list; the parts of a move, `E`, `W` and `F`.
//! - holding.rt: the process that holds a space, and whether it may go out.
//! - leaving.rt: processes that go out and come in: `O` and `I`.
//! - records.rt: the record of a process.
#![tactic(auto)]

mod ending;
mod filling;
mod hands;
mod holding;
mod idling;
mod leaving;
pub mod looking;
mod parts;
mod putting;
pub mod reasons;
mod records;

pub use ending::judge_done;
pub use filling::{judge_copy, judge_get, judge_reclaim, judge_zero, space_of};
pub use hands::judge_hand;
pub use leaving::{judge_in, judge_out};
pub use parts::judge_part;
pub use putting::judge_put;
pub use records::record_of;
