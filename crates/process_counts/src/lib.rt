//! What a run did, counted over its journal: what each of its processes did; and whose a page is.
#![tactic(auto)]

mod amounts;
mod deeds;
mod tables;

pub use amounts::{Owner, ProcessHead, owner_of};
pub use deeds::{Deeds, deeds_of};
pub use tables::{add_at, count_at};
