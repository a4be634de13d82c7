//! How many page faults have policies of replacement that know nothing of the references to come: first in, first out, and
//! the clock with one hand and with two? A list of references to pages is served by a memory of so many frames, which
//! begins empty. A page comes in when it is referenced and isn't there, and no other.
#![tactic(auto)]

mod page_ring;
mod policies;

pub use policies::{clock_faults, fifo_faults, hands_faults};
pub use vm_facts::NoMemory;
