//! What may be asked about the references of a run or its owners.
use command_words::FilmSteps;

/// What is asked about a run (this project's profile).
#[derive(Clone, Copy, Debug, PartialEq, Eq, Drop)]
pub enum Question {
    /// The fewest faults on its references that any replacement in so many frames has, 1 to 4,096.
    Optimum(u32),
    /// The faults on its references of least-recently-used replacement in each number of frames.
    Curve,
    /// Who owns what after so many entries of the journal, or where the run is over before.
    Owners(u32),
    /// The same after each of several numbers of entries, from 0 to 16,777,216, at least one apart.
    Film(FilmSteps),
    /// What it did, counted, and how it came to its end.
    Stats,
    /// Whether the limit of instructions cut it, of a run whose references are asked about.
    WasCut,
    /// Its references themselves.
    References,
}
