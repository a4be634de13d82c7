//! Tests of what commands read, and of what they tell where they refuse: the words of a command line, files, schedules, sources,
//! references and transcripts. There is no code here but tests.
#![tactic(auto)]

#[cfg(test)]
mod checks;
#[cfg(test)]
mod files;
#[cfg(test)]
mod fixtures;
#[cfg(test)]
mod flat;
#[cfg(test)]
mod schedules;
#[cfg(test)]
mod sources;
#[cfg(test)]
mod traces;
#[cfg(test)]
mod words;
