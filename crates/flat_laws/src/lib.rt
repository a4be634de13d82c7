//! Laws of the flat machine. There is no code here: each law is the clause of a function with an empty body.
//!
//! - What comes next: `entries_come` and `entries_are_determined`.
//! - What an instruction touches: `touched_are_few`, `runs_touch_few`, `touched_is_enough`, `spaces_are_whole`.
//! - What stays of processes: `others_keep_their_spaces`, `numbers_are_kept`, `registers_are_longwords`, `asks_agree`.
//! - One process: `one_process_is_determined` by its image, and `runs_as_alone` among others.
#![tactic(auto)]

mod alone;
mod coming;
mod longwords;
mod outcomes;
mod touching;

pub use alone::runs_as_alone;
pub use coming::{
    asks_agree, entries_are_determined, entries_come, numbers_are_kept, others_keep_their_spaces,
    touched_is_enough,
};
pub use longwords::registers_are_longwords;
pub use outcomes::one_process_is_determined;
pub use touching::{runs_touch_few, spaces_are_whole, touched_are_few};
