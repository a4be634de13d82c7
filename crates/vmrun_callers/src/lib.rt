//! Callers of the program's call, each with a theorem that follows from what `vmrun` promises: `headlined`, of which nothing but the headline
//! is promised, so that each body that spoils the headline is refused by that clause alone; `two_runs`, paging is not seen; `run_and_replay`,
//! what `run` wrote `replay` accepts; and `first_run`, README's first run writes just the lines that README shows.
#![tactic(auto)]

mod copying;
mod headline;
mod readme_run;
mod replaying;
mod unseen;
mod words;

pub use headline::{headlined, kept, say};
pub use readme_run::first_run;
pub use replaying::{Replayed, run_and_replay};
pub use unseen::{Call, TwoRuns, two_runs};
