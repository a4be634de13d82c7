//! What a step of a process did, after its writes and before the rest of the machine changes.
use flat_model::SystemCall;
use flat_state::Change;
use vm_facts::{Bytes, Regs};

/// What a step of a process did, as its entries say.
#[derive(Drop)]
pub enum Did {
    /// Nothing, since no step was to be made.
    Nothing,
    /// One instruction ran.
    Ran,
    /// The stack has so many pages.
    Grew(u32),
    /// The call answered with these registers.
    Replied(SystemCall, Regs),
    /// The call wrote these bytes, and answered with these registers.
    Wrote(SystemCall, Bytes, Regs),
    /// The process waits.
    Slept,
    /// The process ended with this status.
    Ended(u32),
}

/// A step after the writes of its instruction: what it did, the registers that it leaves, and what it does
/// to the processes and their spaces.
#[derive(Drop)]
pub struct Deed {
    pub did: Did,
    pub regs: Regs,
    pub change: Change,
}
