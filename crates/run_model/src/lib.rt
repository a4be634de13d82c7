//! A whole run: its state, what each unit does to it, and the written policy: which unit comes next of all.
//!
//! Definitions, by file of specs/:
//! - Snapshot: `Snapshot`, what a run is without the marks of its policy, and `snapshot_after`, what a unit does to it.
//! - State: `State`, the whole of a run, and `start`.
//! - Wanted: `running`, `wanted` and `locked`, the process that runs, the page it waits for and those it keeps.
//! - After: `after`, what a unit does to a state, its snapshot, count and mark; `state_at` and `placed`, the state and the placement of a journal.
//! - Act: `act`, the next unit of a process all of whose touched pages are valid.
//! - Next: `next_unit`, the next unit of a state, or none.
//! - Kinds: `Kind`, what the next unit may be.
//! - Lawful: `Follows`, `Reaches`, `IsLawful` and `IsFinished`.
//! - Swapped: `swapped`, the swap image after a journal; `requests_of`, what its units ask of swap and files; `swap_left`, both.
//!
//! Laws, each a function with no body:
//! - `state_counts`: a state's count and journal are those of its units.
//! - `state_goes_on`: the state of a journal goes on by each unit that the journal gets.
//! - `snapshots_go_on`: the snapshot of a state goes on by itself.
//! - `state_is_flat`: a state's point and holdings are those of the flat machine's run.
//! - `next_is_flat`: a journal of what processes do next is a run of the flat machine.
//! - `wanted_splits`: the locked pages are the touched ones before the wanted one, all valid.
//! - `idle_does_nothing`: a process that can't step touches, asks, does and wants nothing.
//! - `follows_once`, `next_is_one_of`: next units lead one way, and each is of one kind.
//! - `requests_are_noted`: a device that notes each request has noted those of the journal by which it is left.
#![tactic(auto)]

mod laws;
pub mod mark;
pub mod state_laws;

pub use laws::{follows_once, next_is_one_of, requests_are_noted};
pub use mark::Mark;
pub use state_laws::{
    idle_does_nothing, next_is_flat, snapshots_go_on, state_counts, state_goes_on, state_is_flat,
    wanted_splits,
};
