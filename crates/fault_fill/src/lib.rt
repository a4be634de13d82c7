//! Pages that are touched come in: each by its state, until it is usable (the 4.3BSD book). Above the machine, frames
//! are forced here alone. Pages that a caller locks must keep theirs.
#![tactic(auto)]

mod access;
mod calls;
mod pages;
mod served;
mod touch;
mod unit;

pub use access::{Access, access_in};
pub use calls::{serve_page, serve_page_now};
pub use clock_hands;
pub use served::Served;
pub use touch::{serve, serve_now};
