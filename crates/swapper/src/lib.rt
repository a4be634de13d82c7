//! The swapper: whole processes go out where frames are short, and come in again (the 4.3BSD book; whom it chooses is
//! this project's profile). It takes no frame by itself: pages leave, and u pages are moved, by the machine's calls.
#![tactic(auto)]

mod candidates;
mod choosing;
mod largest;
mod putting_out;
mod seats;

pub use choosing::{choose, turn};
pub use putting_out::{seated_page, swap_in, swap_out};
pub use seats::{is_dirty, is_seated};

/// What a turn of the swapper did.
#[derive(Clone, Copy, Debug, PartialEq, Eq, Drop)]
pub enum Turned {
    /// This process came in.
    In(u32),
    /// This process went out.
    Out(u32),
    Nothing,
}
