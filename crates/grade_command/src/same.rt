//! Whether two entries are one, compared by their numbers and bytes.
ghost use Rattle.std.specs.Prelude.{◌≡◌, ◌↔◌, true};
ghost use Rattle.grade_command.specs.Same.{is_one_entry};

use vm_facts::Entry;

// Whether the second is the same entry as the first, compared by its numbers and bytes.
fn is_one_entry(entry: &Entry, other: &Entry) -> bool
    ensures { result ≡ is_one_entry entry.now other.now }
{
    match entry {
        Entry::Event { line } => match other {
            Entry::Event { line: n } => *line == *n,
            _ => false,
        },
        Entry::Turn { pid } => match other {
            Entry::Turn { pid: p } => *pid == *p,
            _ => false,
        },
        Entry::Ran { pid, count } => match other {
            Entry::Ran { pid: p, count: n } => *pid == *p && *count == *n,
            _ => false,
        },
        Entry::Out { pid, bytes } => match other {
            Entry::Out {
                pid: p,
                bytes: others,
            } => *pid == *p && bytes.as_slice() == others.as_slice(),
            _ => false,
        },
        Entry::Grew { pid, pages } => match other {
            Entry::Grew { pid: p, pages: n } => *pid == *p && *pages == *n,
            _ => false,
        },
        Entry::Call {
            pid,
            number,
            carry,
            r0,
            r1,
        } => match other {
            Entry::Call {
                pid: p,
                number: n,
                carry: c,
                r0: s0,
                r1: s1,
            } => { *pid == *p && *number == *n && *carry == *c && *r0 == *s0 && *r1 == *s1 }
            _ => false,
        },
        Entry::Refused { pid } => match other {
            Entry::Refused { pid: p } => *pid == *p,
            _ => false,
        },
        Entry::Sleeps { pid } => match other {
            Entry::Sleeps { pid: p } => *pid == *p,
            _ => false,
        },
        Entry::Ended { pid, status } => match other {
            Entry::Ended { pid: p, status: n } => *pid == *p && *status == *n,
            _ => false,
        },
        Entry::Zero { page } => match other {
            Entry::Zero { page: q } => flat_state::is_same(*page, *q),
            _ => false,
        },
        Entry::Get { page, lo, n } => match other {
            Entry::Get {
                page: q,
                lo: l,
                n: m,
            } => flat_state::is_same(*page, *q) && *lo == *l && *n == *m,
            _ => false,
        },
        Entry::Copy { page } => match other {
            Entry::Copy { page: q } => flat_state::is_same(*page, *q),
            _ => false,
        },
        Entry::Reclaim { page } => match other {
            Entry::Reclaim { page: q } => flat_state::is_same(*page, *q),
            _ => false,
        },
        Entry::Hands { count } => match other {
            Entry::Hands { count: n } => *count == *n,
            _ => false,
        },
        Entry::Put { lo, n } => match other {
            Entry::Put { lo: q, n: m } => flat_state::is_same(*lo, *q) && *n == *m,
            _ => false,
        },
        Entry::Done => matches!(other, Entry::Done),
        Entry::SwapOut { pid } => match other {
            Entry::SwapOut { pid: p } => *pid == *p,
            _ => false,
        },
        Entry::SwapIn { pid } => match other {
            Entry::SwapIn { pid: p } => *pid == *p,
            _ => false,
        },
        Entry::Owners {
            free,
            used,
            moving,
            held,
        } => match other {
            Entry::Owners {
                free: f,
                used: u,
                moving: m,
                held: h,
            } => { *free == *f && *used == *u && *moving == *m && *held == *h }
            _ => false,
        },
    }
}

/// Whether the two are one entry.
pub(crate) fn is_same(entry: &Entry, other: &Entry) -> bool
    ensures { (result ≡ true) ↔ (entry.now ≡ other.now) }
{
    is_one_entry(entry, other)
}
