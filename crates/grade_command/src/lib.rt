//! The command that grades a trace: whether its entries are those that the written policy writes of a run. The trace is compared with a
//! run that goes on, entry by entry (grading.rt), and has one grade (laws.rt).
#![tactic(auto)]

mod command;
mod explaining;
mod grading;
mod judging;
mod laws;
mod same;

pub use command::grade_file;
pub use explaining::explain_grade;
pub use laws::traces_have_one_grade;
