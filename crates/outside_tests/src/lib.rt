//! Tests of the outside: files, swap devices and outputs, in memory and over the system. There is no code here but tests.
#![tactic(auto)]

#[cfg(test)]
mod calls;
#[cfg(test)]
mod checks;
#[cfg(test)]
mod folder;
#[cfg(test)]
mod guards;
#[cfg(test)]
mod memory;
#[cfg(test)]
mod real_files;
#[cfg(test)]
mod system;
#[cfg(test)]
mod told;
