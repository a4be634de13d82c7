//! A line of a schedule, as a type.
/// One line of a schedule (this project's profile).
#[derive(Clone, Copy, Debug, PartialEq, Eq, Drop)]
pub enum Event {
    /// Process `pid`, if it exists and isn't out, runs at most `count` instructions.
    Dispatch { pid: u32, count: u32 },
    /// The oldest transfer in flight completes, if there is one.
    Interrupt,
    /// The hands of the clock make at most `count` moves.
    Hands { count: u32 },
    /// The swapper takes one turn.
    Swapper,
    /// The numbers of frames and blocks held are noted.
    Audit,
}
