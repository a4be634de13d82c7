//! Tests of the pager over files and devices in memory: that the calls that take memory succeed, and what no clause says. There
//! is no code here but tests.
#![tactic(auto)]

#[cfg(test)]
mod calls;
#[cfg(test)]
mod checks;
#[cfg(test)]
mod machine;
#[cfg(test)]
mod owners;
#[cfg(test)]
mod paging;
