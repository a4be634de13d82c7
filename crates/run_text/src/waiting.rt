//! Instructions of one process that wait for more of them, since they are one line.

/// Instructions of one process that are counted together until an entry of another kind, or of
/// another process, comes. The sum of the counts of any number of entries fits.
#[derive(Drop)]
pub struct Run {
    pub pid: u32,
    pub count: u128,
}
