//! The sizes of a run: frames, blocks, instructions, entries.
/// The sizes of one run (this project's profile gives their ranges).
#[derive(Clone, Copy, Debug, PartialEq, Eq, Drop)]
pub struct Params {
    /// Page frames of 1,024 bytes, 64 to 4,096.
    pub frames: u32,
    /// Blocks of swap, of 512 bytes each, 256 to 131,072.
    pub swap_blocks: u32,
    /// Instructions that may run in all, 1 to 1,000,000.
    pub limit: u32,
    /// Entries that the journal may have, at most 16,777,216.
    pub journal: u32,
}
