//! The least and the most of each number of a command line. A law holds them to the documents.
ghost use Rattle.command_words.specs.Documented.{DocumentedRanges};

/// The fewest page frames of a machine.
pub const LEAST_FRAMES: u32 = 64;

/// The most page frames, of a machine and of a replacement on its references.
pub const MOST_FRAMES: u32 = 4_096;

/// The most frames with which policies are compared on a file of references.
pub const MOST_COMPARED: u32 = 1_000_000;

/// The fewest blocks of swap.
pub const LEAST_SWAP: u32 = 256;

/// The most blocks of swap: as many as a pair of devices may have.
pub const MOST_SWAP: u32 = 131_072;

/// The most instructions of a run.
pub const MOST_LIMIT: u32 = 1_000_000;

/// The most instructions of a run about whose references `opt` and `curve` are asked.
pub const MOST_SHORT_LIMIT: u32 = 100_000;

/// The highest number of a load.
pub const LAST_LOAD: u32 = 9_999;

/// The most entries of a journal.
pub const JOURNAL_ENTRIES: u32 = 16_777_216;

/// The ends of these ranges are the numbers that README, `vmrun --help` and FORMATS have.
pub fn ranges_are_documented()
    ensures { DocumentedRanges }
{}
