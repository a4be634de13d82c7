//! An output in memory, which takes little at a time.
ghost use Rattle.std.specs.Prelude.{◌≡◌, ◌≤◌, Some, length, take};

use crate::Faults;
use std::io;
use std::io::ErrorKind;
use system_calls::SystemOutput;

/// An output in memory. It keeps what it took.
#[derive(Drop)]
pub struct MemOutput<'m> {
    /// What it took.
    pub taken: Vec<u8>,
    most: usize,
    faults: &'m Faults,
}

impl<'m> MemOutput<'m> {
    /// An empty output that takes so many bytes at a time, at most.
    pub fn new(taken: Vec<u8>, most: usize, faults: &'m Faults) -> MemOutput<'m>
        ensures { ⟦<MemOutput<'m> as SystemOutput>⟧.taken result ≡ Some taken.items }
    {
        MemOutput {
            taken,
            most,
            faults,
        }
    }
}

impl SystemOutput for MemOutput<'_> {
    ghost taken = { λ o. Some o.taken.items };

    fn write_some(&mut self, bytes: &[u8]) -> io::Result<usize> {
        self.faults.next()?;
        let count = self.most.min(bytes.len());
        match self.taken.extend_from_slice(&bytes[..count]) {
            Ok(()) => Ok(count),
            Err(_) => Err(io::Error::from(ErrorKind::OutOfMemory)),
        }
    }
}
