//! Compares what a machine made with the line that was to come. Only the journal's last entry is looked at.
ghost use Rattle.std.specs.Prelude.{◌≡◌, ◌-◌, length, slice_get, Some, IfOk};
ghost use Rattle.vm_facts.specs.declared.entry.Entry.{Entry as AnyEntry};
ghost use Rattle.vm_facts.specs.declared.entry.Entry.TheVariants as entries;
ghost use Rattle.proc_run.specs.StepUnitsRests.{is_done};
ghost use Rattle.paged_model.specs.declared.reason.Reason.TheVariants as reasons;
ghost use Rattle.paged_model.specs.Reasons.{unless};
ghost use Rattle.paged_model.specs.Steps.{is_same, other_act};

use move_judge::reasons::unless;
use paged_model::Reason;
use std::alloc::Global;
use vm_facts::{Bytes, Entry, NoMemory};

// Bytes that went out, again.
fn copied_out(alloc: Global, pid: u32, bytes: &Bytes) -> Result<Entry, NoMemory>
    ensures { IfOk result (λ copy. copy ≡ entries.Out pid bytes.now) }
{
    match Vec::from_slice(alloc, bytes.as_slice()) {
        Ok(copy) => Ok(Entry::Out {
            pid,
            bytes: Bytes::from_vec(copy),
        }),
        Err(_) => Err(NoMemory),
    }
}

// The same entry again.
fn copy_of(alloc: Global, e: &Entry) -> Result<Entry, NoMemory>
    ensures { IfOk result (λ copy. copy ≡ e.now) }
{
    match e {
        Entry::Event { line } => Ok(Entry::Event { line: *line }),
        Entry::Turn { pid } => Ok(Entry::Turn { pid: *pid }),
        Entry::Ran { pid, count } => Ok(Entry::Ran {
            pid: *pid,
            count: *count,
        }),
        Entry::Out { pid, bytes } => copied_out(alloc, *pid, bytes),
        Entry::Grew { pid, pages } => Ok(Entry::Grew {
            pid: *pid,
            pages: *pages,
        }),
        Entry::Call {
            pid,
            number,
            carry,
            r0,
            r1,
        } => Ok(Entry::Call {
            pid: *pid,
            number: *number,
            carry: *carry,
            r0: *r0,
            r1: *r1,
        }),
        Entry::Refused { pid } => Ok(Entry::Refused { pid: *pid }),
        Entry::Sleeps { pid } => Ok(Entry::Sleeps { pid: *pid }),
        Entry::Ended { pid, status } => Ok(Entry::Ended {
            pid: *pid,
            status: *status,
        }),
        Entry::Zero { page } => Ok(Entry::Zero { page: *page }),
        Entry::Get { page, lo, n } => Ok(Entry::Get {
            page: *page,
            lo: *lo,
            n: *n,
        }),
        Entry::Copy { page } => Ok(Entry::Copy { page: *page }),
        Entry::Reclaim { page } => Ok(Entry::Reclaim { page: *page }),
        Entry::Hands { count } => Ok(Entry::Hands { count: *count }),
        Entry::Put { lo, n } => Ok(Entry::Put { lo: *lo, n: *n }),
        Entry::Done => Ok(Entry::Done),
        Entry::SwapOut { pid } => Ok(Entry::SwapOut { pid: *pid }),
        Entry::SwapIn { pid } => Ok(Entry::SwapIn { pid: *pid }),
        Entry::Owners {
            free,
            used,
            moving,
            held,
        } => Ok(Entry::Owners {
            free: *free,
            used: *used,
            moving: *moving,
            held: *held,
        }),
    }
}

// Whether the two are the same entry of a process.
fn is_same(made: &Entry, e: &Entry) -> bool
    ensures { result ≡ is_same made.now e.now }
{
    match made {
        Entry::Ran { pid, count } => match e {
            Entry::Ran { pid: p, count: n } => *pid == *p && *count == *n,
            _ => false,
        },
        Entry::Out { pid, bytes } => match e {
            Entry::Out {
                pid: p,
                bytes: others,
            } => *pid == *p && bytes.as_slice() == others.as_slice(),
            _ => false,
        },
        Entry::Grew { pid, pages } => match e {
            Entry::Grew { pid: p, pages: n } => *pid == *p && *pages == *n,
            _ => false,
        },
        Entry::Call {
            pid,
            number,
            carry,
            r0,
            r1,
        } => match e {
            Entry::Call {
                pid: p,
                number: n,
                carry: c,
                r0: s0,
                r1: s1,
            } => *pid == *p && *number == *n && *carry == *c && *r0 == *s0 && *r1 == *s1,
            _ => false,
        },
        Entry::Refused { pid } => match e {
            Entry::Refused { pid: p } => *pid == *p,
            _ => false,
        },
        Entry::Sleeps { pid } => match e {
            Entry::Sleeps { pid: p } => *pid == *p,
            _ => false,
        },
        Entry::Ended { pid, status } => match e {
            Entry::Ended { pid: p, status: n } => *pid == *p && *status == *n,
            _ => false,
        },
        _ => false,
    }
}

fn is_done(e: &Entry) -> bool
    ensures { result ≡ is_done e.now }
{
    matches!(e, Entry::Done)
}

// This entry, unless the other is the same.
fn comes(alloc: Global, made: &Entry, e: &Entry) -> Result<Option<Reason>, NoMemory>
    ensures { IfOk result (λ reason. reason ≡ unless (is_same made.now e.now) (reasons.Comes made.now)) }
{
    let again = copy_of(alloc, made)?;
    Ok(unless(is_same(made, e), Reason::Comes(again)))
}

// Why a process that did this can't do that in its place.
fn other_act(alloc: Global, _pid: u32, made: &Entry, e: &Entry) -> Result<Option<Reason>, NoMemory>
    ensures { IfOk result (λ reason. reason ≡ other_act _pid e.now (Some made.now)) }
{
    if is_done(made) {
        Ok(Some(Reason::Unsettled))
    } else {
        comes(alloc, made, e)
    }
}

/// Why a process that did the last thing of a journal can't do this in its place.
pub fn told_by(
    alloc: Global,
    journal: &[Entry],
    pid: u32,
    e: &Entry,
) -> Result<Option<Reason>, NoMemory>
    ensures { (made : AnyEntry) → slice_get journal.now (length journal.now - 1) ≡ Some made
        → IfOk result (λ reason. reason ≡ other_act pid e.now (Some made)) }
{
    match journal.last() {
        Some(made) => other_act(alloc, pid, made, e),
        None => Ok(None),
    }
}
