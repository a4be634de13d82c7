//! A file in memory that is open.
ghost use Rattle.std.specs.Prelude.{◌≡◌, ◌+◌, ◌-◌, ◌≤◌, ◌<◌, ◌^◌, ◌++◌, List, ℕ, Some, IfOk, OnOk, OnErr, length, replicate, take, drop};
ghost use Rattle.io_edge.specs.FileHolding.{file_range};
ghost use Rattle.system_calls.specs.Bytes.{filled_to, written_over};

use crate::Faults;
use std::alloc::Allocator;
use std::io;
use std::io::ErrorKind;
use system_calls::{FileFacts, SystemFile};

/// An open file in memory. Each open of a file has bytes of its own.
#[derive(Drop)]
pub struct MemFile<'m> {
    bytes: Vec<u8>,
    facts: FileFacts,
    is_locked: bool,
    faults: &'m Faults,
}

// The file doesn't end this far out.
const MOST_BYTES: u64 = 0x1_0000_0000;

// Fills the buffer from this offset of these bytes on.
fn copy_range(bytes: &[u8], offset: u64, buf: &mut [u8]) -> io::Result<()>
    ensures { OnOk result (buf.new ≡ file_range bytes.now offset (length buf.new)) }
{
    let start = offset as usize;
    if start > bytes.len() || buf.len() > bytes.len() - start {
        return Err(io::Error::from(ErrorKind::UnexpectedEof));
    }
    let end = start + buf.len();
    buf.copy_from_slice(&bytes[start..end]);
    Ok(())
}

// Fills up with zeros to this length.
fn grow(bytes: &mut Vec<u8>, len: usize) -> io::Result<()>
    ensures done { OnOk result (bytes.new.items ≡ filled_to len bytes.old.items) }
    ensures failed { OnErr result (bytes.new.items ≡ bytes.old.items) }
{
    if bytes.len() < len && bytes.resize(len, 0).is_err() {
        return Err(io::Error::from(ErrorKind::OutOfMemory));
    }
    Ok(())
}

// Puts a piece over bytes that reach as far.
fn put_over(bytes: &mut [u8], offset: usize, piece: &[u8])
    requires { offset + length piece.now ≤ length bytes.old }
    ensures { bytes.new ≡ take offset bytes.old ++ piece.now ++ drop (offset + length piece.now) bytes.old }
{
    let end = offset + piece.len();
    bytes[offset..end].copy_from_slice(piece);
}

// Writes a piece over bytes from this offset on; zeros fill what lies between.
#[tactic(auto, using(crate::proofs::Ranges::over_grown))]
fn write_piece(bytes: &mut Vec<u8>, offset: usize, piece: &[u8]) -> io::Result<()>
    requires { offset + length piece.now < 2 ^ 60 }
    ensures done { OnOk result (bytes.new.items ≡ written_over bytes.old.items offset piece.now) }
    ensures failed { OnErr result (bytes.new.items ≡ bytes.old.items) }
{
    grow(bytes, offset + piece.len())?;
    put_over(bytes.as_mut_slice(), offset, piece);
    Ok(())
}

// Bytes in memory of their own.
pub(crate) fn copied<A: Allocator>(alloc: A, bytes: &[u8]) -> io::Result<Vec<u8, A>>
    ensures { IfOk result (λ copy. copy.items ≡ bytes.now) }
{
    let mut copy = Vec::new(alloc);
    match copy.extend_from_slice(bytes) {
        Ok(()) => Ok(copy),
        Err(_) => Err(io::Error::from(ErrorKind::OutOfMemory)),
    }
}

impl<'m> MemFile<'m> {
    // An open file of these bytes, which somebody else has locked or hasn't.
    pub(crate) fn new(
        bytes: Vec<u8>,
        facts: FileFacts,
        is_locked: bool,
        faults: &'m Faults,
    ) -> MemFile<'m>
        ensures { ⟦<MemFile<'m> as SystemFile>⟧.bytes result ≡ Some bytes.items }
    {
        MemFile {
            bytes,
            facts,
            is_locked,
            faults,
        }
    }

    // Counts a call, which fails where somebody else has the file.
    fn lock(&self) -> io::Result<()> {
        self.faults.next()?;
        if self.is_locked {
            return Err(io::Error::from(ErrorKind::ResourceBusy));
        }
        Ok(())
    }
}

impl SystemFile for MemFile<'_> {
    ghost bytes = { λ f. Some f.bytes.items };

    fn facts(&self) -> io::Result<FileFacts> {
        self.faults.next()?;
        let mut facts = self.facts;
        facts.len = self.bytes.len() as u64;
        facts.modified = self.faults.time();
        Ok(facts)
    }

    fn read_range(&self, offset: u64, buf: &mut [u8]) -> io::Result<()> {
        self.faults.next()?;
        copy_range(self.bytes.as_slice(), offset, buf)
    }

    // A call that is to fail writes the first half.
    fn write_range(&mut self, offset: u64, piece: &[u8]) -> io::Result<()> {
        if offset > MOST_BYTES || piece.len() as u64 > MOST_BYTES {
            return Err(io::Error::from(ErrorKind::FileTooLarge));
        }
        match self.faults.next() {
            Ok(()) => write_piece(&mut self.bytes, offset as usize, piece),
            Err(error) => {
                let half = piece.len() / 2;
                write_piece(&mut self.bytes, offset as usize, &piece[..half])?;
                Err(error)
            }
        }
    }

    fn empty(&mut self) -> io::Result<()> {
        self.faults.next()?;
        self.bytes.clear();
        Ok(())
    }

    fn read_start<A: Allocator>(&mut self, alloc: A, most: u64) -> io::Result<Vec<u8, A>> {
        self.faults.next()?;
        let count = self.bytes.len().min(most as usize);
        copied(alloc, &self.bytes[..count])
    }

    fn lock_alone(&self) -> io::Result<()> {
        self.lock()
    }

    fn lock_shared(&self) -> io::Result<()> {
        self.lock()
    }

    fn keep_private(&self) -> io::Result<()> {
        self.faults.next()
    }
}
