//! Bytes that an entry of the journal owns.
ghost use Rattle.std.specs.Prelude.{◌≡◌, ◌+◌, ◌≤◌, ℕ, List, length};
ghost use Rattle.vm_facts.specs.Lists.{overwritten};

use std::marker::Model;

/// Bytes that an entry of the journal owns. Contracts see the list of them.
#[derive(Debug, Drop)]
pub struct Bytes {
    items: Vec<u8>,
}

impl Model for Bytes {
    ghost Value = { List ℕ };

    ghost view = { λ b. b.items.items };
}

impl Bytes {
    /// Takes a vector's bytes over, with no memory taken.
    pub fn from_vec(items: Vec<u8>) -> Bytes
        ensures { result ≡ items.items }
    {
        Bytes { items }
    }

    /// Lends the bytes.
    pub fn as_slice(&self) -> &[u8]
        ensures { result.now ≡ self.now }
    {
        self.items.as_slice()
    }
}

/// Writes bytes over those that stand from a place on.
#[inline(always)]
pub fn overwrite(bytes: &mut [u8], at: usize, with: &[u8])
    requires { at + length with.now ≤ length bytes.old }
    ensures { bytes.new ≡ overwritten bytes.old at with.now }
{
    bytes[at..at + with.len()].copy_from_slice(with);
}
