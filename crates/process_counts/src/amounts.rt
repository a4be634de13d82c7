//! What one entry adds to each count of a process.
ghost use Rattle.std.specs.Prelude.{◌≡◌};
ghost use Rattle.process_counts.specs.Counts.{instructions, output_length, calls, growths, refusals, waits, times_out, times_in, process_of, page_owner};

use vm_facts::{Entry, Page};

/// What is counted of a process.
#[derive(Clone, Copy, Debug, PartialEq, Eq, Drop)]
pub enum ProcessHead {
    /// The instructions, system calls among them.
    Instructions,
    /// The bytes that it wrote.
    BytesOut,
    /// The replies to its system calls.
    Calls,
    /// How often its stack grew.
    Growths,
    /// How often swap had no place for what it asked.
    Refusals,
    /// How often it waited for a child.
    Waits,
    /// How often it was put out.
    TimesOut,
    /// How often it was brought in.
    TimesIn,
}

/// Whose pages: those of the data and the stack of a space, or those of the text of an image.
#[derive(Clone, Copy, Debug, PartialEq, Eq, Drop)]
pub enum Owner {
    /// The space of this number.
    Space(u32),
    /// The image of this number.
    Image(u32),
}

// The instructions that an entry counts.
pub(crate) fn instructions(entry: &Entry) -> u64
    ensures { result ≡ instructions entry.now }
{
    match entry {
        Entry::Ran { count, .. } => u64::from(*count),
        Entry::Call { .. } => 1,
        Entry::Ended { .. } => 1,
        _ => 0,
    }
}

// The bytes that a process wrote.
pub(crate) fn output_length(entry: &Entry) -> u64
    ensures { result ≡ output_length entry.now }
{
    match entry {
        Entry::Out { bytes, .. } => bytes.as_slice().len() as u64,
        _ => 0,
    }
}

// A reply to a system call.
pub(crate) fn calls(entry: &Entry) -> u64
    ensures { result ≡ calls entry.now }
{
    match entry {
        Entry::Call { .. } => 1,
        _ => 0,
    }
}

// A growth of a stack.
pub(crate) fn growths(entry: &Entry) -> u64
    ensures { result ≡ growths entry.now }
{
    match entry {
        Entry::Grew { .. } => 1,
        _ => 0,
    }
}

// A refusal of swap space.
pub(crate) fn refusals(entry: &Entry) -> u64
    ensures { result ≡ refusals entry.now }
{
    match entry {
        Entry::Refused { .. } => 1,
        _ => 0,
    }
}

// A wait for a child.
pub(crate) fn waits(entry: &Entry) -> u64
    ensures { result ≡ waits entry.now }
{
    match entry {
        Entry::Sleeps { .. } => 1,
        _ => 0,
    }
}

// A process goes out.
pub(crate) fn times_out(entry: &Entry) -> u64
    ensures { result ≡ times_out entry.now }
{
    match entry {
        Entry::SwapOut { .. } => 1,
        _ => 0,
    }
}

// A process comes in.
pub(crate) fn times_in(entry: &Entry) -> u64
    ensures { result ≡ times_in entry.now }
{
    match entry {
        Entry::SwapIn { .. } => 1,
        _ => 0,
    }
}

// The number of the process that an entry is of; 0 where it is of none, since no process has that number.
pub(crate) fn process_of(entry: &Entry) -> u32
    ensures { result ≡ process_of entry.now }
{
    match entry {
        Entry::Turn { pid }
        | Entry::Ran { pid, .. }
        | Entry::Out { pid, .. }
        | Entry::Grew { pid, .. }
        | Entry::Call { pid, .. }
        | Entry::Refused { pid }
        | Entry::Sleeps { pid }
        | Entry::Ended { pid, .. }
        | Entry::SwapOut { pid }
        | Entry::SwapIn { pid } => *pid,
        _ => 0,
    }
}

/// Whose a page is.
pub fn owner_of(page: Page) -> Owner
    ensures { result ≡ page_owner page }
{
    match page {
        Page::Data { sid, .. } | Page::Stack { sid, .. } => Owner::Space(sid),
        Page::Text { image, .. } => Owner::Image(image),
    }
}
