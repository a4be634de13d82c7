//! Tests of texts and answers: schedules, transcripts and traces that are read, journals that are written, what is answered about
//! references, and loads. There is no code here but tests.
#![tactic(auto)]

#[cfg(test)]
mod checks;
#[cfg(test)]
mod examples;
#[cfg(test)]
mod loads;
#[cfg(test)]
mod parts;
#[cfg(test)]
mod references;
#[cfg(test)]
mod texts;
