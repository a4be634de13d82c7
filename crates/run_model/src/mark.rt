//! The last mark of a run, by what is still to come of it. The policy's next unit depends on it.
/// The last mark of a run, the beginning of a schedule's line or of a turn of the closing phase, by what is still
/// to come of it (this project's profile).
#[derive(Clone, Copy, Debug, PartialEq, Eq, Drop)]
pub enum Mark {
    /// No mark yet, or one of which nothing is to come.
    Over,
    /// A dispatch: process `pid` runs till `count` instructions more than `since` were counted.
    Dispatch { pid: u32, count: u32, since: u32 },
    /// The oldest transfer in flight completes.
    Interrupt,
    /// The hands of the clock make at most `count` moves.
    Hands { count: u32 },
    /// The swapper brings process `pid` in.
    BringIn { pid: u32 },
    /// The swapper puts process `pid` out.
    PutOut { pid: u32 },
    /// The numbers of frames and blocks held are noted.
    Audit,
    /// A turn of the closing phase: process `pid` runs, when `since` instructions were counted.
    Turn { pid: u32, since: u32 },
}
