//! The most lines, processes, instructions and moves that a schedule may name. A law holds them to the documents.
ghost use Rattle.run_text.specs.Documented.{DocumentedLimits};

/// The most lines of a schedule.
pub const SCHEDULE_LINES: u32 = 65_536;

/// The highest number of a process that a line names.
pub const LAST_PROCESS: u32 = 99_999_999;

/// The most instructions that a process runs by one line.
pub const MOST_TURN: u32 = 1_000_000;

/// The most moves of the hands by one line.
pub const MOST_MOVES: u32 = 8_192;

/// These limits are the numbers that `vmrun --help` and FORMATS have.
pub fn limits_are_documented()
    ensures { DocumentedLimits }
{}
