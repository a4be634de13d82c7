//! Checksums of the pages that a run leaves on swap. Pages of zeros are left out.
use io_edge::{Moved, SwapDev};
use std::alloc::{AllocError, Global};

// The checksum register after one more bit.
fn next_bit(sum: u32) -> u32 {
    if sum & 1 == 1 {
        sum >> 1 ^ 0xedb8_8320
    } else {
        sum >> 1
    }
}

// The checksum register after one more byte.
fn next_byte(sum: u32, byte: u8) -> u32 {
    let mut sum = sum ^ u32::from(byte);
    for _ in 0..8 {
        sum = next_bit(sum);
    }
    sum
}

// The CRC-32 of IEEE 802.3 of these bytes.
fn crc32(bytes: &[u8]) -> u32 {
    let mut sum = u32::MAX;
    for byte in bytes {
        sum = next_byte(sum, *byte);
    }
    !sum
}

// Puts a line of this page of the device, where it has one and not all of it is zeros.
fn put_page<D: SwapDev>(
    alloc: Global,
    text: &mut String,
    swap: &mut D,
    device: u32,
    page: u32,
) -> Result<(), AllocError> {
    if page >= swap.blocks() / 2 {
        return Ok(());
    }
    let block = 2 * page;
    let mut bytes = [0u8; 1024];
    if swap.read(block, &mut bytes) == Moved::Failed {
        return text.push_str("a page that can't be read\n");
    }
    if bytes.iter().all(|byte| *byte == 0) {
        return Ok(());
    }
    let sum = crc32(&bytes);
    let line = format!(in alloc; "page {device} {block} {sum:x}\n")?;
    text.push_str(line.as_str())
}

/// Puts a line of each page of the device that isn't all zeros: the device, its first block, its checksum.
pub fn put_pages<D: SwapDev>(
    alloc: Global,
    text: &mut String,
    swap: &mut D,
    device: u32,
) -> Result<(), AllocError> {
    for page in 0..swap.blocks() / 2 {
        put_page(alloc, text, swap, device, page)?;
    }
    Ok(())
}
