//! Facts that every layer of the machine names: pages and their states, registers, what a memory
//! answers, events of a schedule, entries of the journal, and why a run stops.
#![tactic(auto)]

mod bytes;
mod entry;
mod event;
mod memory;
mod page;
mod params;
mod regs;
mod stop;
mod transfers;

pub use bytes::{Bytes, overwrite};
pub use entry::Entry;
pub use event::Event;
pub use memory::{ByteRead, MayWrite, Memory};
pub use page::{Page, PageState};
pub use params::Params;
pub use regs::Regs;
pub use stop::{NoMemory, Stop};
pub use transfers::MOST_IN_FLIGHT;
