//! Whether a journal's numbers fit their ranges, so that its text can be read back.
ghost use Rattle.std.specs.Prelude.{◌++◌};
ghost use Rattle.vm_facts.specs.declared.entry.Entry.TheVariants.{Out};
ghost use Rattle.run_text.specs.Transcript.{page_numbers, AllBelow, HasNumbers, HaveNumbers};

use crate::line::bit_of;
use vm_facts::{Entry, Page};

fn are_bytes(bytes: &[u8])
    ensures { AllBelow 256 bytes.now }
{}

fn are_numbers(numbers: &[u32])
    ensures { AllBelow 4294967296 numbers.now }
{}

// Of a page, and of the numbers after it.
fn page_has_numbers(page: &Page, behind: &[u32])
    ensures { AllBelow 4294967296 (page_numbers page.now ++ behind.now) }
{
    are_numbers(behind);
    match page {
        Page::Data { sid, v } => are_numbers(&[*sid, *v]),
        Page::Stack { sid, v } => are_numbers(&[*sid, *v]),
        Page::Text { image, v } => are_numbers(&[*image, *v]),
    }
}

// Of bytes that a process wrote.
fn out_has_numbers(pid: u32, bytes: &[u8])
    ensures { HasNumbers (Out pid bytes.now) }
{
    are_numbers(&[pid]);
    are_bytes(bytes);
}

fn has_numbers(e: &Entry)
    ensures { HasNumbers e.now }
{
    match e {
        Entry::Event { line } => are_numbers(&[*line]),
        Entry::Turn { pid } => are_numbers(&[*pid]),
        Entry::Ran { pid, count } => are_numbers(&[*pid, *count]),
        Entry::Out { pid, bytes } => out_has_numbers(*pid, bytes.as_slice()),
        Entry::Grew { pid, pages } => are_numbers(&[*pid, *pages]),
        Entry::Call {
            pid,
            number,
            carry,
            r0,
            r1,
        } => are_numbers(&[*pid, *number, bit_of(*carry), *r0, *r1]),
        Entry::Refused { pid } => are_numbers(&[*pid]),
        Entry::Sleeps { pid } => are_numbers(&[*pid]),
        Entry::Ended { pid, status } => are_numbers(&[*pid, *status]),
        Entry::Zero { page } => page_has_numbers(page, &[]),
        Entry::Get { page, lo, n } => page_has_numbers(page, &[*lo, *n]),
        Entry::Copy { page } => page_has_numbers(page, &[]),
        Entry::Reclaim { page } => page_has_numbers(page, &[]),
        Entry::Hands { count } => are_numbers(&[*count]),
        Entry::Put { lo, n } => page_has_numbers(lo, &[*n]),
        Entry::Done => are_numbers(&[]),
        Entry::SwapOut { pid } => are_numbers(&[*pid]),
        Entry::SwapIn { pid } => are_numbers(&[*pid]),
        Entry::Owners {
            free,
            used,
            moving,
            held,
        } => are_numbers(&[*free, *used, *moving, *held]),
    }
}

/// The numbers of a journal have 32 bits, and what its processes wrote are bytes. It moves nothing, and says so of entries
/// that are at hand.
#[tactic(auto, using(crate::proofs::Numbered::numbers_more))]
pub fn have_numbers(entries: &[Entry])
    ensures { HaveNumbers entries.now }
{
    for e in entries {
        has_numbers(e);
    }
}
