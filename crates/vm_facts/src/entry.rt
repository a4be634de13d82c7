//! An entry of the journal, as a type: a line of a transcript, with paging lines or without.
use crate::bytes::Bytes;
use crate::page::Page;

/// One entry of the journal, which is one line of the whole transcript (this project's profile).
/// The entries from `Zero` on are the paging entries, which the plain transcript leaves out.
#[derive(Debug, Drop)]
pub enum Entry {
    /// Line `line` of the schedule begins, counted from 1.
    Event {
        line: u32,
    },
    /// A turn of the closing phase for process `pid` begins.
    Turn {
        pid: u32,
    },
    /// The process ran `count` instructions, at least 1, that have no entry of their own.
    Ran {
        pid: u32,
        count: u32,
    },
    /// The process wrote these bytes, at least one; the `Call` of that write follows.
    Out {
        pid: u32,
        bytes: Bytes,
    },
    /// The stack of the process now has `pages` pages.
    Grew {
        pid: u32,
        pages: u32,
    },
    /// The reply of system call `number` to the process: the carry, R0 and R1 after it.
    Call {
        pid: u32,
        number: u32,
        carry: bool,
        r0: u32,
        r1: u32,
    },
    /// The swap pieces that the next entry's call or growth wants find no place.
    Refused {
        pid: u32,
    },
    /// The process waits: it has children, and none is a zombie.
    Sleeps {
        pid: u32,
    },
    /// The process ended: a signal's number, or 256 times the low byte of its exit code.
    Ended {
        pid: u32,
        status: u32,
    },
    /// The page, which is zero fill or a new stack page 0, takes a free frame.
    Zero {
        page: Page,
    },
    /// `page` is demanded: a read of the `n` pages from `lo` on of its segment begins, `n` at least 1.
    Get {
        page: Page,
        lo: u32,
        n: u32,
    },
    /// A child's page is filled from its parent's page of that name.
    Copy {
        page: Page,
    },
    /// The page, which a frame still holds, is usable again.
    Reclaim {
        page: Page,
    },
    /// The hands of the clock made `count` moves, at least 1.
    Hands {
        count: u32,
    },
    /// Swapping out: `n` dirty pages from `lo` on begin a write, or one clean page is freed.
    Put {
        lo: Page,
        n: u32,
    },
    /// The oldest transfer in flight completes.
    Done,
    /// The u page of the process is written, and it is out.
    SwapOut {
        pid: u32,
    },
    /// The u page of the process is read, and it is in.
    SwapIn {
        pid: u32,
    },
    /// Frames free, in use off the free list, and in transfers; swap blocks held.
    Owners {
        free: u32,
        used: u32,
        moving: u32,
        held: u32,
    },
}
