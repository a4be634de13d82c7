//! The files that a run reads: found by name, read by ranges. No call changes a file.
ghost use Rattle.std.specs.Prelude.{◌≡◌, ℕ, ◌<◌, ◌≤◌, List, Option, length};
ghost use Rattle.io_edge.specs.Count.{Counts, OnDone};
ghost use Rattle.io_edge.specs.FileHolding.{NamedFile, AnswersName, CountsFind, HasRange, HoldsRange, Known, IsKnown, StaysKnown, KnownApart};
ghost use Rattle.io_edge.specs.FileRequests.{FileNotes, FileFind, FileRead, after_request};

use crate::{Found, Moved};

/// A store of files that no call changes.
///
/// Faults are counted in two kinds (this project's profile): those met on the way to a file's first
/// bytes, in `find` and in a `read_at` of offset 0, and those of every other `read_at`. A count never
/// falls. It is kept as a `u64`, which stands still at its last value.
pub trait Files {
    /// The names and bytes of all files, in order, where they are told.
    ghost holds: { Self → Option (List NamedFile) };

    /// What has been found out of each name. It stays, so a name that is sought again is found as it was, under the same number
    /// and with the same length, or is absent as it was; and two names have two numbers.
    ghost known: { Self → Known };

    /// What will have been noted, once further requests are made. Code over any files knows it by the clauses of the calls
    /// alone: each call notes its request, also one that fails, and nothing else does.
    ghost notes: { Self → FileNotes };

    /// How often a `find`, or a `read_at` of offset 0, has failed.
    ghost open_faults: { Self → ℕ };

    /// How often a `read_at` of another offset has failed.
    ghost page_faults: { Self → ℕ };

    /// Calls lead from the first state to the second.
    ghost leads: { Self → Self → Type 0 };

    /// Looks for a file by its name. Absent comes only where a told list lacks the name, and Failed
    /// only where `open_faults` rose. Where the list is told, `id` is the first place of the name. A name that was found, or was
    /// absent, is the same at each later call, told or not.
    fn find(&mut self, name: &str) -> Found
        ensures leads { leads self.old self.new }
        ensures holds { holds self.new ≡ holds self.old }
        ensures notes { notes self.new ≡ after_request (FileFind name.now) (notes self.old) }
        ensures answer { AnswersName (holds self.old) name.now result }
        ensures known { IsKnown (known self.new) name.now result }
        ensures open_faults { CountsFind result (open_faults self.old) (open_faults self.new) }
        ensures page_faults { page_faults self.new ≡ page_faults self.old };

    /// Fills the whole buffer from this offset of a found file on, or fails. Where the list isn't told,
    /// a range that the file doesn't have is a fault, and so is a file that became shorter.
    fn read_at(&mut self, id: u32, offset: u64, buf: &mut [u8]) -> Moved
        requires { HasRange (holds self.old) id offset (length buf.old) }
        ensures leads { leads self.old self.new }
        ensures holds { holds self.new ≡ holds self.old }
        ensures notes { notes self.new ≡ after_request (FileRead id offset (length buf.old)) (notes self.old) }
        ensures done { OnDone result (HoldsRange (holds self.old) id offset buf.new) }
        ensures open_faults { offset ≡ 0 → Counts result (open_faults self.old) (open_faults self.new) }
        ensures open_stays { 0 < offset → open_faults self.new ≡ open_faults self.old }
        ensures page_faults { 0 < offset → Counts result (page_faults self.old) (page_faults self.new) }
        ensures page_stays { offset ≡ 0 → page_faults self.new ≡ page_faults self.old };

    /// No call leads from a state to itself.
    ghost leads_nowhere: { (f : Self) → leads f f };

    /// One row of calls after another is a row of calls.
    ghost leads_through: { (a b c : Self) → leads a b → leads b c → leads a c };

    /// No call changes the files.
    ghost leads_same: { (a b : Self) → leads a b → holds b ≡ holds a };

    /// What is known of a name stays.
    ghost known_stays: { (a b : Self) → leads a b → StaysKnown (known a) (known b) };

    /// Two names have two numbers.
    ghost known_apart: { (f : Self) → KnownApart (known f) };

    /// The first count never falls.
    ghost open_grows: { (a b : Self) → leads a b → open_faults a ≤ open_faults b };

    /// The second count never falls.
    ghost page_grows: { (a b : Self) → leads a b → page_faults a ≤ page_faults b };
}
