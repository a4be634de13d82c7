//! The definitions of the whole machine with its bytes, over lists: a placement, holdings, processes, frames and a
//! journal; what each of its steps does to them; and when it stands for a flat state.
//!
//! Definitions, by file of specs/:
//! - Kernel: `Kernel` and its steps: fills, transfers, moves of the hands, user writes, going out and coming in.
//! - ChangeStep: `change_step`, what the end of a process's step does to the machine; `pass_step`, a space that is lent.
//! - UPage: the registers of a process that is out, as its u page has them.
//! - Coupled: `Coupled`, the machine, the files' images and a swap image stand for a flat state.
//! - Sound: `Sound`, one owner of each frame and block, at most 16 transfers, and the hands in place.
//! - Numbers: `Numbered`, no two numbers are one and who lives is a resident; and what is known of a process before its
//!   change.
//! - Stands: what the coupling asks beside it.
//! - Taken, Asks: the pieces of swap that a change wants, and the machine once they are found.
//! - Start: `start_kernel`, the machine at the start of a run; `begin_step`, one first process begins.
//! - Unit: `KernelUnit`, one case for each step of the kernel, and `kernel_after`: what it does to the machine, to the pieces
//!   that wait, to the swap image and to the flat state.
//! - Invariant: `Invariant`, all that is so of the kernel between two units; and `May`, what each unit asks.
//! - SwapRequests: what is asked of swap. Requests: `unit_asks`, what a unit asks of swap and of the files of the images; `image_done`, the
//!   device as it is told once the oldest transfer ended.
//!
//! The laws on all these are the clauses of `kernel_laws`.
//!
//! A part of a move of the clock's hands may come alone too, `HandPart`. Its definitions, by file of specs/:
//! - HandParts: `PartComes`, the conditions of each part by their names; `part_place`, what it does.
//! - HandMoves: `move_parts`, the parts of one move of the written hands.
#![tactic(auto)]

pub mod part;

pub use part::HandPart;
