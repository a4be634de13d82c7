//! The trait of an output of the system: it takes bytes, as many as it chooses.
ghost use Rattle.std.specs.Prelude.{◌≡◌, ◌≤◌, ℕ, List, Option, IfOk, OnErr, length, take};
ghost use Rattle.io_edge.specs.Written.{Appends};

use std::io;

/// An output of the system.
pub trait SystemOutput {
    /// The bytes that it took, in their order, where they are told.
    ghost taken: { Self → Option (List ℕ) };

    /// Hands these bytes over. It takes a first part of them, and says how many; or it fails, and takes none.
    fn write_some(&mut self, bytes: &[u8]) -> io::Result<usize>
        ensures within { IfOk result (λ count. count ≤ length bytes.now) }
        ensures taken { IfOk result (λ count. Appends (taken self.old) (take count bytes.now) (taken self.new)) }
        ensures refused { OnErr result (taken self.new ≡ taken self.old) };
}
