//! The clock with two hands: pages that weren't used between the hands lose their frames (the 4.3BSD book). It may
//! not touch the tables: a page loses its frame by the machine's calls alone.
//!
//! - looking.rt: the pages at which the hands stand, and the write that the next move begins.
//! - forcing.rt: a frame is forced.
//! - moving.rt: the hands move as a line of the schedule asks.
//! - laws.rt: the units of moving are those of the policy.
#![tactic(auto)]

mod forcing;
mod laws;
mod looking;
mod moving;

pub use forcing::make_room;
pub use kluster_io;
pub use laws::moves_are_asked;
pub use looking::next_write;
pub use moving::move_hands;
pub use paging_units::machine_state;
