//! What a run did, counted over its journal: the numbers that a load tells.
ghost use Rattle.std.specs.Prelude.{◌≡◌, if◌then◌else◌};
ghost use Rattle.flat_state.specs.Journal.{counted};
ghost use Rattle.flat_laws.specs.Others.{is_refusal};
ghost use Rattle.flat_laws.specs.Visible.{is_end};
ghost use Rattle.process_counts.specs.Counts.{output_length};
ghost use Rattle.load_maker.specs.Counts.{is_granted_fork, counts_of};

use vm_facts::Entry;

/// What a run did, counted over its journal (this project's profile).
#[derive(Clone, Copy, Debug, PartialEq, Eq, Drop)]
pub struct Counts {
    /// The instructions, system calls among them.
    pub instructions: u128,
    /// The processes made in all: the first ones, and one for each fork and vfork that was granted.
    pub processes: u128,
    /// The processes that ended.
    pub ended: u128,
    /// The calls and growths for which swap had no place.
    pub refused: u128,
    /// The bytes that processes wrote.
    pub bytes_out: u128,
}

// The instructions that an entry counts.
fn counted(entry: &Entry) -> u32
    ensures { result ≡ counted entry.now }
{
    match entry {
        Entry::Ran { count, .. } => *count,
        Entry::Call { .. } | Entry::Ended { .. } => 1,
        _ => 0,
    }
}

// Whether an entry is a fork or a vfork that was granted.
fn is_granted_fork(entry: &Entry) -> bool
    ensures { result ≡ is_granted_fork entry.now }
{
    match entry {
        Entry::Call { number, carry, .. } => (*number == 2 || *number == 66) && !*carry,
        _ => false,
    }
}

fn is_end(entry: &Entry) -> bool
    ensures { result ≡ is_end entry.now }
{
    matches!(entry, Entry::Ended { .. })
}

fn is_refusal(entry: &Entry) -> bool
    ensures { result ≡ is_refusal entry.now }
{
    matches!(entry, Entry::Refused { .. })
}

// How many bytes an entry says were written.
fn output_length(entry: &Entry) -> usize
    ensures { result ≡ output_length entry.now }
{
    match entry {
        Entry::Out { bytes, .. } => bytes.as_slice().len(),
        _ => 0,
    }
}

// One for an entry that counts.
fn one_if(counts: bool) -> u128
    ensures { result ≡ (if counts then 1 else 0) }
{
    if counts { 1 } else { 0 }
}

/// The counts of a journal, of a run that began with `first` processes. They are exact for each journal: no sum can
/// leave its range.
pub fn counts_of(first: u32, journal: &[Entry]) -> Counts
    ensures { result ≡ counts_of first journal.now }
{
    let mut counts = Counts {
        instructions: 0,
        processes: u128::from(first),
        ended: 0,
        refused: 0,
        bytes_out: 0,
    };
    for entry in journal {
        counts.instructions += u128::from(counted(entry));
        counts.processes += one_if(is_granted_fork(entry));
        counts.ended += one_if(is_end(entry));
        counts.refused += one_if(is_refusal(entry));
        counts.bytes_out += output_length(entry) as u128;
    }
    counts
}
