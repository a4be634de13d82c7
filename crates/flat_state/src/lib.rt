//! The state of the flat machine: processes with memory of their own, with no page and no instruction in sight.
//!
//! Definitions, by file of specs/:
//! - Space: `Space`, a space's segments; `address_in`, what an address of it names; what its bytes answer and become.
//! - Flat: `FlatState`, `Inputs` of a run, `start_state`, and `can_step`.
//! - Change: `apply_change` and `apply_writes`, what the end of a step does to the state.
//! - Writes: `Wrote`, bytes that were written, each where it might be.
//! - Journal: `append`, a journal and one more unit, neighbours of one kind joined.
//! - PageNames: pages of spaces and of images, by name.
//! - Numbers: `IsNumbered`, no process and no space stands twice.
//! - Lenders: `LendsStand`, each space that was lent is with its borrower.
#![tactic(auto)]

pub mod change;
pub mod pages;
pub mod spot;

pub use change::Change;
pub use pages::{beside, is_among, is_same, number_of};
pub use spot::{PAGE, STACK_REACH, STACK_TOP, Spot, locate};
