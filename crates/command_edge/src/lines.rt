//! The line that tells a fault, built with no memory taken. So want of memory can be told too.
ghost use Rattle.std.specs.Prelude.{◌≡◌, ◌≤◌, ◌++◌, IfOk, IfErr, OnOk, codes, decimal};
ghost use Rattle.command_edge.specs.Ending.{bytes_of, absent_line, not_image_line, numbered_line, short_device_line, so_far_line};

use itoa::Buffer;
use std::alloc::{AllocError, Global};

/// The line of want of memory.
pub const NO_MEMORY: &[u8; 17] = b"vmrun: no memory\n";

/// A line about a fault.
#[derive(Drop)]
pub enum Line {
    /// It is the same for each fault of its kind.
    Fixed(&'static [u8]),
    /// It was made, of a name or a number.
    Made(Vec<u8>),
}

impl Line {
    /// Its bytes.
    pub fn as_slice(&self) -> &[u8]
        ensures { result.now ≡ bytes_of self.now }
    {
        match self {
            Line::Fixed(line) => line,
            Line::Made(line) => line.as_slice(),
        }
    }
}

/// Puts a number in decimal.
pub fn put_number(line: &mut Vec<u8>, number: u32) -> Result<(), AllocError>
    ensures { OnOk result (line.new.items ≡ line.old.items ++ decimal number) }
{
    let mut buffer = Buffer::new();
    line.extend_from_slice(buffer.format(number).as_bytes())
}

/// The line about a name that no file has.
pub fn absent_line(alloc: Global, name: &str) -> Result<Vec<u8>, AllocError>
    ensures { IfOk result (λ line. line.items ≡ absent_line name.now) }
{
    let mut line = Vec::from_slice(alloc, b"vmrun: absent ")?;
    line.extend_from_slice(name.as_bytes())?;
    line.push(b'\n')?;
    Ok(line)
}

/// The line about a file that is no image, and why.
pub fn not_image_line(alloc: Global, name: &str, reason: u8) -> Result<Vec<u8>, AllocError>
    ensures { IfOk result (λ line. line.items ≡ not_image_line name.now reason) }
{
    let mut line = Vec::from_slice(alloc, b"vmrun: not an image: ")?;
    line.extend_from_slice(name.as_bytes())?;
    line.extend_from_slice(b" reason ")?;
    put_number(&mut line, reason as u32)?;
    line.push(b'\n')?;
    Ok(line)
}

/// The line of these words and a number.
pub fn numbered_line(alloc: Global, words: &[u8], number: u32) -> Result<Vec<u8>, AllocError>
    ensures { IfOk result (λ line. line.items ≡ numbered_line words.now number) }
{
    let mut line = Vec::from_slice(alloc, words)?;
    put_number(&mut line, number)?;
    line.push(b'\n')?;
    Ok(line)
}

/// The line about a swap device that has fewer blocks than are needed.
pub fn short_device_line(
    alloc: Global,
    device: u32,
    blocks: u32,
    needed: u32,
) -> Result<Vec<u8>, AllocError>
    ensures { IfOk result (λ line. line.items ≡ short_device_line device blocks needed) }
{
    let mut line = Vec::from_slice(alloc, b"vmrun: swap device ")?;
    put_number(&mut line, device)?;
    line.extend_from_slice(b" has ")?;
    put_number(&mut line, blocks)?;
    line.extend_from_slice(b" blocks, ")?;
    put_number(&mut line, needed)?;
    line.extend_from_slice(b" needed\n")?;
    Ok(line)
}

/// The line about a trace that has the first entries of a run, so many.
pub fn so_far_line(alloc: Global, entries: u32) -> Result<Vec<u8>, AllocError>
    ensures { IfOk result (λ line. line.items ≡ so_far_line entries) }
{
    let mut line = Vec::from_slice(alloc, b"as written so far: ")?;
    put_number(&mut line, entries)?;
    line.extend_from_slice(b" entries\n")?;
    Ok(line)
}

/// The line about a swap device that could not be read. Those of devices 0 and 1 need no memory.
pub fn swap_read_line(alloc: Global, device: u32) -> Result<Line, AllocError>
    ensures line { IfOk result (λ line. bytes_of line ≡ numbered_line (codes "vmrun: swap read fault on device ") device) }
    ensures lost { IfErr result (λ _. 2 ≤ device) }
{
    match device {
        0 => Ok(Line::Fixed(b"vmrun: swap read fault on device 0\n")),
        1 => Ok(Line::Fixed(b"vmrun: swap read fault on device 1\n")),
        _ => {
            let line = numbered_line(alloc, b"vmrun: swap read fault on device ", device)?;
            Ok(Line::Made(line))
        }
    }
}

/// The line about a swap device that could not be written. Those of devices 0 and 1 need no memory.
pub fn swap_write_line(alloc: Global, device: u32) -> Result<Line, AllocError>
    ensures line { IfOk result (λ line. bytes_of line ≡ numbered_line (codes "vmrun: swap write fault on device ") device) }
    ensures lost { IfErr result (λ _. 2 ≤ device) }
{
    match device {
        0 => Ok(Line::Fixed(b"vmrun: swap write fault on device 0\n")),
        1 => Ok(Line::Fixed(b"vmrun: swap write fault on device 1\n")),
        _ => {
            let line = numbered_line(alloc, b"vmrun: swap write fault on device ", device)?;
            Ok(Line::Made(line))
        }
    }
}
