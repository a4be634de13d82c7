//! A line of a trace with paging lines: an entry, or a part of a move.
use kernel_model::HandPart;
use vm_facts::Entry;

/// A line of a trace with paging lines.
#[derive(Debug, Drop)]
pub enum Line {
    /// One of the kinds that `run` writes.
    RunLine(Entry),
    /// A part of a move of the hands, alone, which `run` never writes.
    Part(HandPart),
}
