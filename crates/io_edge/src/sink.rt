//! The trait of an output, written piece after piece. What a failed piece left is told by its contract.
ghost use Rattle.std.specs.Prelude.{◌≡◌, ℕ, ◌≤◌, List, Option};
ghost use Rattle.io_edge.specs.Count.{Counts, OnDone, OnFailed};
ghost use Rattle.io_edge.specs.Written.{Appends, AppendsSome, Extends};

use crate::Moved;

/// Output that is written piece after piece (this project's profile). Failed calls are counted, in a
/// count that never falls. It is kept as a `u64`, which stands still at its last value.
pub trait Sink {
    /// All bytes that were written, in order, where they are told.
    ghost written: { Self → Option (List ℕ) };

    /// How often a `put` has failed.
    ghost faults: { Self → ℕ };

    /// Calls lead from the first state to the second.
    ghost leads: { Self → Self → Type 0 };

    /// Appends the piece. Failed comes only where the count rose, and then a prefix of the piece was
    /// appended.
    fn put(&mut self, bytes: &[u8]) -> Moved
        ensures leads { leads self.old self.new }
        ensures done { OnDone result (Appends (written self.old) bytes.now (written self.new)) }
        ensures failed { OnFailed result (AppendsSome (written self.old) bytes.now (written self.new)) }
        ensures faults { Counts result (faults self.old) (faults self.new) };

    /// No call leads from a state to itself.
    ghost leads_nowhere: { (s : Self) → leads s s };

    /// One row of calls after another is a row of calls.
    ghost leads_through: { (a b c : Self) → leads a b → leads b c → leads a c };

    /// What was written stays, and more may follow it.
    ghost leads_more: { (a b : Self) → leads a b → Extends (written a) (written b) };

    /// The count never falls.
    ghost faults_grow: { (a b : Self) → leads a b → faults a ≤ faults b };
}
