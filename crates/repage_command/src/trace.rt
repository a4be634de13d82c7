//! What a trace reads as: its lines, or the first bad one.
use paged_model::Line;

/// What a trace reads as.
#[derive(Drop)]
pub enum Trace {
    /// Its lines.
    Is(Vec<Line>),
    /// The number of its first bad line, counted from 1.
    BadLine(u32),
}
