//! What is noted of an entry: its kind, and the looks before and after it.
ghost use Rattle.std.specs.Prelude.{◌≡◌};
ghost use Rattle.run_stats.specs.Notes.{what_of, note_by};

use crate::look::Look;
use vm_facts::Entry;

/// The kind of an entry, as far as pages are counted by it (this project's profile).
#[derive(Clone, Copy, Debug, PartialEq, Eq, Drop)]
pub enum What {
    /// A page was filled with zeros.
    Filled,
    /// A read of so many pages began.
    Begun(u32),
    /// A child's page was filled from its parent's.
    Copied,
    /// A page was found in its frame.
    Reclaimed,
    /// The hands made so many moves.
    Moved(u32),
    /// The oldest transfer ended.
    Ended,
    /// A process went out or came in.
    Swapped,
    /// Another one.
    Other,
}

/// What is noted of an entry: its kind, and what was looked at before it and after it (this project's profile).
#[derive(Debug, PartialEq, Eq, Drop)]
pub struct Note {
    pub what: What,
    pub before: Look,
    pub after: Look,
}

fn kind_of(entry: &Entry) -> What
    ensures { result ≡ what_of entry.now }
{
    match entry {
        Entry::Zero { .. } => What::Filled,
        Entry::Get { n, .. } => What::Begun(*n),
        Entry::Copy { .. } => What::Copied,
        Entry::Reclaim { .. } => What::Reclaimed,
        Entry::Hands { count } => What::Moved(*count),
        Entry::Done => What::Ended,
        Entry::SwapOut { .. } | Entry::SwapIn { .. } => What::Swapped,
        _ => What::Other,
    }
}

/// What is noted of an entry.
pub fn note_entry(before: Look, entry: &Entry, after: Look) -> Note
    ensures { result ≡ note_by before entry.now after }
{
    Note {
        what: kind_of(entry),
        before,
        after,
    }
}
