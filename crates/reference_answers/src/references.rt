//! What a file of references reads as: its references, or its first bad line.
use vm_facts::Page;

/// What the text of a file of references reads as.
#[derive(Debug, Drop)]
pub enum References {
    /// Its references, in their order.
    Are(Vec<Page>),
    /// The number of its first bad line, counted from 1.
    BadLine(u32),
}
