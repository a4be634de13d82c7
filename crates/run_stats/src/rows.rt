//! The rows of the table, and the words at each count.
ghost use Rattle.std.specs.Prelude.{◌≡◌, ◌++◌, OnOk};
ghost use Rattle.run_stats.specs.Rows.{plain_row, row, ended_row, process_words, process_heads, paging_words, paging_heads, run_words, run_heads};

use crate::heads::{PagingHead, RunHead};
use itoa::Buffer;
use process_counts::ProcessHead;
use std::alloc::AllocError;
use vm_facts::Entry;

static PROCESS_HEADS: [ProcessHead; 8] = [
    ProcessHead::Instructions,
    ProcessHead::BytesOut,
    ProcessHead::Calls,
    ProcessHead::Growths,
    ProcessHead::Refusals,
    ProcessHead::Waits,
    ProcessHead::TimesOut,
    ProcessHead::TimesIn,
];

static PAGING_HEADS: [PagingHead; 7] = [
    PagingHead::ZeroFills,
    PagingHead::FileReads,
    PagingHead::FilePages,
    PagingHead::SwapReads,
    PagingHead::SwapPages,
    PagingHead::Reclaims,
    PagingHead::Copies,
];

static RUN_HEADS: [RunHead; 9] = [
    RunHead::HandMoves,
    RunHead::MadeInvalid,
    RunHead::FreedClean,
    RunHead::HandWrites,
    RunHead::ReclaimedBetween,
    RunHead::FileTransfers,
    RunHead::SwapTransfersIn,
    RunHead::SwapTransfersOut,
    RunHead::SwapRequests,
];

#[tactic(auto, unfolding(crate::specs::Rows::process_heads))]
pub(crate) fn process_heads() -> &'static [ProcessHead]
    ensures { result.now ≡ process_heads }
{
    &PROCESS_HEADS
}

#[tactic(auto, unfolding(crate::specs::Rows::paging_heads))]
pub(crate) fn paging_heads() -> &'static [PagingHead]
    ensures { result.now ≡ paging_heads }
{
    &PAGING_HEADS
}

#[tactic(auto, unfolding(crate::specs::Rows::run_heads))]
pub(crate) fn run_heads() -> &'static [RunHead]
    ensures { result.now ≡ run_heads }
{
    &RUN_HEADS
}

pub(crate) fn process_words(head: ProcessHead) -> &'static [u8]
    ensures { result.now ≡ process_words head }
{
    match head {
        ProcessHead::Instructions => b" instructions ",
        ProcessHead::BytesOut => b" bytes-written ",
        ProcessHead::Calls => b" calls ",
        ProcessHead::Growths => b" growths ",
        ProcessHead::Refusals => b" refusals ",
        ProcessHead::Waits => b" waits ",
        ProcessHead::TimesOut => b" put-out ",
        ProcessHead::TimesIn => b" brought-in ",
    }
}

pub(crate) fn paging_words(head: PagingHead) -> &'static [u8]
    ensures { result.now ≡ paging_words head }
{
    match head {
        PagingHead::ZeroFills => b" zero-fills ",
        PagingHead::FileReads => b" file-reads ",
        PagingHead::FilePages => b" file-pages ",
        PagingHead::SwapReads => b" swap-reads ",
        PagingHead::SwapPages => b" swap-pages ",
        PagingHead::Reclaims => b" reclaims ",
        PagingHead::Copies => b" copies ",
    }
}

pub(crate) fn run_words(head: RunHead) -> &'static [u8]
    ensures { result.now ≡ run_words head }
{
    match head {
        RunHead::HandMoves => b"hands moves ",
        RunHead::MadeInvalid => b"hands made-invalid ",
        RunHead::FreedClean => b"hands freed-clean ",
        RunHead::HandWrites => b"hands pages-written ",
        RunHead::ReclaimedBetween => b"hands reclaimed-between ",
        RunHead::FileTransfers => b"devices file-reads ",
        RunHead::SwapTransfersIn => b"devices swap-reads ",
        RunHead::SwapTransfersOut => b"devices swap-writes ",
        RunHead::SwapRequests => b"devices swap-requests ",
    }
}

/// Puts words and a count.
pub(crate) fn put_plain(text: &mut Vec<u8>, words: &[u8], count: u128) -> Result<(), AllocError>
    ensures { OnOk result (text.new.items ≡ text.old.items ++ plain_row words.now count) }
{
    let mut digits = Buffer::new();
    text.extend_from_slice(words)?;
    text.extend_from_slice(digits.format(count).as_bytes())?;
    text.push(b'\n')?;
    Ok(())
}

/// Puts whose count it is, the head, and the count.
pub(crate) fn put_row(
    text: &mut Vec<u8>,
    kind: &[u8],
    number: u32,
    head: &[u8],
    count: u128,
) -> Result<(), AllocError>
    ensures { OnOk result (text.new.items ≡ text.old.items ++ row kind.now number head.now count) }
{
    let mut digits = Buffer::new();
    text.extend_from_slice(kind)?;
    text.extend_from_slice(digits.format(number).as_bytes())?;
    put_plain(text, head, count)
}

/// Puts how a process ended, where this entry says it.
pub(crate) fn put_ended(text: &mut Vec<u8>, pid: u32, entry: &Entry) -> Result<(), AllocError>
    ensures { OnOk result (text.new.items ≡ text.old.items ++ ended_row pid entry.now) }
{
    match entry {
        Entry::Ended { pid: own, status } => {
            if *own == pid {
                put_row(text, b"process ", pid, b" ended ", u128::from(*status))
            } else {
                Ok(())
            }
        }
        _ => Ok(()),
    }
}
