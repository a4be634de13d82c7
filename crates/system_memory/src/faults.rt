//! Which calls of a system in memory fail, and when its files change.
use std::cell::Cell;
use std::io;
use std::io::ErrorKind;

/// The calls of a system in memory, counted from 1 on: which of them are to fail, and from which on another time is said of the last
/// change of each file.
#[derive(Drop)]
pub struct Faults {
    fail: Vec<u64>,
    changed_from: u64,
    calls: Cell<u64>,
}

impl Faults {
    /// These calls are to fail, and from this one on each file was changed; 0 is no call.
    pub fn new(fail: Vec<u64>, changed_from: u64) -> Faults {
        Faults {
            fail,
            changed_from,
            calls: Cell::new(0),
        }
    }

    /// How many calls were made.
    pub fn calls(&self) -> u64 {
        self.calls.get()
    }

    // Counts one more call, and fails where it is to.
    pub(crate) fn next(&self) -> io::Result<()> {
        let call = self.calls.get().saturating_add(1);
        self.calls.set(call);
        if self.fail.contains(&call) {
            return Err(io::Error::new(ErrorKind::Other, "is to fail"));
        }
        Ok(())
    }

    // The time of the last change, as it is said now.
    pub(crate) fn time(&self) -> (i64, i64) {
        if self.changed_from > 0 && self.calls.get() >= self.changed_from {
            (1, 0)
        } else {
            (0, 0)
        }
    }
}
