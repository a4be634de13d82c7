//! Tests of the kernel's tables: of frames, pages, processes, swap space, transfers and images. There is no code here but
//! tests.
#![tactic(auto)]

#[cfg(test)]
mod checks;
#[cfg(test)]
mod frames;
#[cfg(test)]
mod images;
#[cfg(test)]
mod processes;
#[cfg(test)]
mod spaces;
#[cfg(test)]
mod swap;
#[cfg(test)]
mod transfers;
