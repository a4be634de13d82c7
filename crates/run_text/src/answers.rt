//! What a schedule and a transcript read as: their lines, or the first bad one.
use vm_facts::{Entry, Event};

/// What a schedule reads as.
#[derive(Drop)]
pub enum Schedule {
    /// Its events, one for each line.
    Is(Vec<Event>),
    /// The number of its first bad line, counted from 1.
    BadLine(u32),
}

/// What a transcript reads as.
#[derive(Drop)]
pub enum Transcript {
    /// Its entries, one for each line.
    Is(Vec<Entry>),
    /// The number of its first bad line, counted from 1.
    BadLine(u32),
}
