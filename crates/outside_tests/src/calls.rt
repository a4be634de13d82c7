//! Tables of calls: what is asked of a device or an output that is known by its contract alone, and what it answers.
use io_edge::{Moved, Sink, SwapDev};
use std::process::Abort;

/// A call of a device, for the page that begins at a block. All bytes of a page that is written are alike.
#[derive(Clone, Copy, Debug)]
pub enum Call {
    Write(u32, u8),
    Read(u32),
    /// Three pages that lie together, the first from the block on, each with its byte.
    WriteThree(u32, [u8; 3]),
}

/// What such a call answers.
#[derive(Clone, Copy, Debug, PartialEq)]
pub enum Answer {
    /// The page was written.
    Written,
    /// So many pages were written, from the first on.
    Pages(u32),
    /// The page was read, and all its bytes are this one.
    Filled(u8),
    /// The page was read, and its bytes aren't alike.
    Mixed,
    /// The call failed.
    Failed,
    /// The device has no page that begins there.
    Outside,
}

// Writes a page of a device.
fn written<D: SwapDev>(device: &mut D, block: u32, byte: u8) -> Answer {
    let blocks = device.blocks();
    if block % 2 != 0 || blocks < 2 || block > blocks - 2 {
        return Answer::Outside;
    }
    match device.write(block, &[byte; 1024]) {
        Moved::Done => Answer::Written,
        Moved::Failed => Answer::Failed,
    }
}

// Writes three pages of a device that lie together.
fn three_written<D: SwapDev>(device: &mut D, block: u32, bytes: [u8; 3]) -> Answer {
    let blocks = device.blocks();
    if block % 2 != 0 || blocks < 6 || block > blocks - 6 {
        return Answer::Outside;
    }
    let [first, second, third] = bytes;
    match device.write_some(block, &[[first; 1024], [second; 1024], [third; 1024]]) {
        Some(count) => Answer::Pages(count),
        None => Answer::Failed,
    }
}

// What a page holds that was read.
fn content(page: &[u8; 1024]) -> Answer {
    let [first, ..] = *page;
    if *page == [first; 1024] {
        return Answer::Filled(first);
    }
    Answer::Mixed
}

// Reads a page of a device.
fn read<D: SwapDev>(device: &mut D, block: u32) -> Answer {
    let blocks = device.blocks();
    if block % 2 != 0 || blocks < 2 || block > blocks - 2 {
        return Answer::Outside;
    }
    let mut page = [9; 1024];
    match device.read(block, &mut page) {
        Moved::Done => content(&page),
        Moved::Failed => Answer::Failed,
    }
}

// Makes a call.
fn make<D: SwapDev>(device: &mut D, call: Call) -> Answer {
    match call {
        Call::Write(block, byte) => written(device, block, byte),
        Call::Read(block) => read(device, block),
        Call::WriteThree(block, bytes) => three_written(device, block, bytes),
    }
}

/// Checks what a device answers to each of these calls, one after the other.
pub fn answers<D: SwapDev>(rt: &impl Abort, device: &mut D, calls: &[(Call, Answer)]) {
    for (call, wanted) in calls {
        assert_eq!(rt; make(device, *call), *wanted, "{call:?}");
    }
}

/// Checks how each of these pieces is put, one after the other.
pub fn puts<S: Sink>(rt: &impl Abort, sink: &mut S, pieces: &[(&[u8], Moved)]) {
    for (piece, wanted) in pieces {
        assert_eq!(rt; sink.put(piece), *wanted, "{piece:?}");
    }
}
