//! Questions about a run that is made in memory: about its references, which `opt`, `curve` and `refs` ask, and about its owners after
//! so many entries, which `owners` asks. What other crates need of a run in memory is here too.
#![tactic(auto)]

mod answering;
mod copying;
mod growing;
mod octets;
mod question;
mod running;

pub use answering::{curve_over, optimum_over, references_over};
pub use growing::GrowingText;
pub use question::Question;
pub use run_command;
pub use run_command::replay_command;
pub use running::{OpenedInMemory, lines_of, open_in_memory, run_owners};
