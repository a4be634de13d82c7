//! The laws of the whole machine with its bytes. There is no code here: each law is the clause of a function with an empty
//! body.
//!
//! - `machine_kept`: all that is so of the kernel between two units is so at the start of a run, after each unit, and after
//!   each list of units.
//! - `pieces_wait`: pieces that were found for a change take nothing from others while they wait.
//! - `paging_may`: each unit that serves a page or forces a frame may be made, and a write by which a process goes out.
//! - `changes_ask`: what a change asks, of the placement and in pieces of swap.
//! - `starts_begin`, `begins_keep`: the first processes of a run begin one by one, and what stands after each.
//! - `start_is_owned`: once the first processes' pieces are found, each frame and each block has one owner.
//! - `registers_kept`, `registers_leave`: the registers of who goes out leave the record, and come back from the u page.
//! - `borrowers_have_lenders`, `writes_follow`: of the flat state: a borrower has one lender, and bytes are written one after
//!   another.
//!
//! Lemmas, by folder of proofs/: Pieces, Sound, Flat, Machine and Stands, of each step by itself; and Kept, the cases of
//! `machine_kept`. The longer laws by name, by file of specs/: Paging, Processes, Beginning and Waiting.
//!
//! Of a part of a move of the hands that comes alone:
//!
//! - `parts_keep_owners`: after a part each frame and each block has one owner, and what is due still waits.
//! - `parts_keep_memory`: a machine with its bytes stands for the same flat states after a part.
//! - `moves_are_parts`: a move of the hands is its parts, and then both hands go on.
#![tactic(auto)]

pub mod laws;
mod parts;
pub mod starts;
pub mod units;

pub use laws::{
    borrowers_have_lenders, changes_ask, paging_may, registers_kept, registers_leave,
    start_is_owned, writes_follow,
};
pub use parts::{moves_are_parts, parts_keep_memory, parts_keep_owners};
pub use starts::{begins_keep, starts_begin};
pub use units::{machine_kept, pieces_wait};
