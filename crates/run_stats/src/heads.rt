//! What is counted of paging and of the whole run, and what one noted entry adds to each.
ghost use Rattle.std.specs.Prelude.{◌≡◌};
ghost use Rattle.run_stats.specs.Amounts.{filled_with_zeros, copied_from_parent, reclaimed, file_read, file_pages, swap_read, swap_pages, hand_moves, made_invalid, freed_clean, hand_writes, reclaimed_between, file_transfer, swap_transfer_in, swap_transfer_out, swap_requests, paging_amount, run_amount};

use crate::look::{Flight, Look};
use crate::noting::{Note, What};
use process_counts::Owner;

/// What is counted of the pages that come while a process runs (this project's profile).
#[derive(Clone, Copy, Debug, PartialEq, Eq, Drop)]
pub enum PagingHead {
    /// Pages that are filled with zeros.
    ZeroFills,
    /// Reads from a file that begin.
    FileReads,
    /// Their pages.
    FilePages,
    /// Reads from swap that begin.
    SwapReads,
    /// Their pages.
    SwapPages,
    /// Pages found in the frames that still hold them.
    Reclaims,
    /// Pages of a child that are filled from its parent's.
    Copies,
}

/// What is counted of the whole run (this project's profile).
#[derive(Clone, Copy, Debug, PartialEq, Eq, Drop)]
pub enum RunHead {
    /// The moves of the hands.
    HandMoves,
    /// Pages that the hands make invalid.
    MadeInvalid,
    /// Clean pages whose frames the hands free.
    FreedClean,
    /// Pages that the hands begin to write.
    HandWrites,
    /// Pages found between the hands, in frames that aren't free.
    ReclaimedBetween,
    /// Reads from files that ended.
    FileTransfers,
    /// Reads from swap that ended.
    SwapTransfersIn,
    /// Writes to swap that ended.
    SwapTransfersOut,
    /// Pages that were read from swap or written to it, u pages too.
    SwapRequests,
}

/// A head of the table (this project's profile).
#[derive(Clone, Copy, Debug, PartialEq, Eq, Drop)]
pub enum Head {
    /// While the process of this number runs; 0 for while none does.
    OfRunner(u32, PagingHead),
    /// Pages of this owner that were written to swap.
    WrittenOf(Owner),
    /// Of the whole run.
    OfRun(RunHead),
}

fn filled_with_zeros(what: What) -> u64
    ensures { result ≡ filled_with_zeros what }
{
    match what {
        What::Filled => 1,
        _ => 0,
    }
}

fn copied_from_parent(what: What) -> u64
    ensures { result ≡ copied_from_parent what }
{
    match what {
        What::Copied => 1,
        _ => 0,
    }
}

fn reclaimed(what: What) -> u64
    ensures { result ≡ reclaimed what }
{
    match what {
        What::Reclaimed => 1,
        _ => 0,
    }
}

fn file_read(what: What, newest: Flight) -> u64
    ensures { result ≡ file_read what newest }
{
    match (what, newest) {
        (What::Begun(_), Flight::OfFile(_)) => 1,
        _ => 0,
    }
}

fn file_pages(what: What, newest: Flight) -> u64
    ensures { result ≡ file_pages what newest }
{
    match (what, newest) {
        (What::Begun(n), Flight::OfFile(_)) => u64::from(n),
        _ => 0,
    }
}

fn swap_read(what: What, newest: Flight) -> u64
    ensures { result ≡ swap_read what newest }
{
    match (what, newest) {
        (What::Begun(_), Flight::OfSwap(_)) => 1,
        _ => 0,
    }
}

fn swap_pages(what: What, newest: Flight) -> u64
    ensures { result ≡ swap_pages what newest }
{
    match (what, newest) {
        (What::Begun(n), Flight::OfSwap(_)) => u64::from(n),
        _ => 0,
    }
}

fn hand_moves(what: What) -> u64
    ensures { result ≡ hand_moves what }
{
    match what {
        What::Moved(count) => u64::from(count),
        _ => 0,
    }
}

fn made_invalid(what: What, before: &Look, after: &Look) -> u64
    ensures { result ≡ made_invalid what before.now after.now }
{
    match what {
        What::Moved(_) => u64::from(before.valid.saturating_sub(after.valid)),
        _ => 0,
    }
}

fn freed_clean(what: What, before: &Look, after: &Look) -> u64
    ensures { result ≡ freed_clean what before.now after.now }
{
    match what {
        What::Moved(_) => u64::from(after.free.saturating_sub(before.free)),
        _ => 0,
    }
}

fn hand_writes(what: What, before: &Look, after: &Look) -> u64
    ensures { result ≡ hand_writes what before.now after.now }
{
    match what {
        What::Moved(_) => u64::from(after.moving.saturating_sub(before.moving)),
        _ => 0,
    }
}

fn reclaimed_between(what: What, before: &Look, after: &Look) -> u64
    ensures { result ≡ reclaimed_between what before.now after.now }
{
    match what {
        What::Reclaimed => { if before.free == after.free { 1 } else { 0 } }
        _ => 0,
    }
}

fn file_transfer(what: What, oldest: Flight) -> u64
    ensures { result ≡ file_transfer what oldest }
{
    match (what, oldest) {
        (What::Ended, Flight::OfFile(_)) => 1,
        _ => 0,
    }
}

fn swap_transfer_in(what: What, oldest: Flight) -> u64
    ensures { result ≡ swap_transfer_in what oldest }
{
    match (what, oldest) {
        (What::Ended, Flight::OfSwap(_)) => 1,
        _ => 0,
    }
}

fn swap_transfer_out(what: What, oldest: Flight) -> u64
    ensures { result ≡ swap_transfer_out what oldest }
{
    match (what, oldest) {
        (What::Ended, Flight::ToSwap(_, _)) => 1,
        _ => 0,
    }
}

fn swap_requests(what: What, oldest: Flight) -> u64
    ensures { result ≡ swap_requests what oldest }
{
    match (what, oldest) {
        (What::Ended, Flight::OfSwap(pages)) => pages,
        (What::Ended, Flight::ToSwap(_, pages)) => pages,
        (What::Swapped, _) => 1,
        _ => 0,
    }
}

pub(crate) fn paging_amount(head: PagingHead, note: &Note) -> u64
    ensures { result ≡ paging_amount head note.now }
{
    match head {
        PagingHead::ZeroFills => filled_with_zeros(note.what),
        PagingHead::FileReads => file_read(note.what, note.after.newest),
        PagingHead::FilePages => file_pages(note.what, note.after.newest),
        PagingHead::SwapReads => swap_read(note.what, note.after.newest),
        PagingHead::SwapPages => swap_pages(note.what, note.after.newest),
        PagingHead::Reclaims => reclaimed(note.what),
        PagingHead::Copies => copied_from_parent(note.what),
    }
}

pub(crate) fn run_amount(head: RunHead, note: &Note) -> u64
    ensures { result ≡ run_amount head note.now }
{
    match head {
        RunHead::HandMoves => hand_moves(note.what),
        RunHead::MadeInvalid => made_invalid(note.what, &note.before, &note.after),
        RunHead::FreedClean => freed_clean(note.what, &note.before, &note.after),
        RunHead::HandWrites => hand_writes(note.what, &note.before, &note.after),
        RunHead::ReclaimedBetween => reclaimed_between(note.what, &note.before, &note.after),
        RunHead::FileTransfers => file_transfer(note.what, note.before.oldest),
        RunHead::SwapTransfersIn => swap_transfer_in(note.what, note.before.oldest),
        RunHead::SwapTransfersOut => swap_transfer_out(note.what, note.before.oldest),
        RunHead::SwapRequests => swap_requests(note.what, note.before.oldest),
    }
}
