//! Transfers that are given up at the end of a machine: the tokens of their frames are spent. No device may be called
//! here.
use transfer_ring::{Inbound, Outbound, Transfer, TransferRing};

// The frames of pages that were being read end.
fn end_reads(mut parts: Vec<Inbound>) {
    while let Some(part) = parts.pop() {
        let Inbound {
            page: _,
            token,
            source: _,
        } = part;
        token.failed().retire();
    }
    parts.destroy_empty();
}

// The frames of pages that were being written end.
fn end_writes(mut parts: Vec<Outbound>) {
    while let Some(part) = parts.pop() {
        let Outbound {
            page: _,
            token,
            block: _,
        } = part;
        token.failed().release().retire();
    }
    parts.destroy_empty();
}

/// The frames of a transfer end.
pub fn end_transfer(transfer: Transfer) {
    match transfer {
        Transfer::Read { demanded: _, parts } => end_reads(parts),
        Transfer::Write { parts } => end_writes(parts),
    }
}

/// The frames of all transfers end.
pub fn end_ring(mut ring: TransferRing) {
    while let Some(transfer) = ring.abandon() {
        end_transfer(transfer);
    }
    ring.close();
}
