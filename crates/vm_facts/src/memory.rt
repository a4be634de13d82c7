//! The memory of one process, as an instruction meets it, as a trait. A byte may be there, missing or refused.
ghost use Rattle.std.specs.Prelude.{◌≡◌, ℕ, ◌*◌, true, false, List, [], ◌∷◌, ◌++◌, length};
ghost use Rattle.vm_facts.specs.Ahead.{AreAhead, MayAhead, MayBelow};
ghost use Rattle.vm_facts.specs.Answers.{Answers, ByteWrite, written, writes_from, writes_down};

/// What a read of one byte answers.
#[derive(Clone, Copy, Debug, PartialEq, Eq, Drop)]
pub enum ByteRead {
    /// The byte.
    Is(u8),
    /// The byte's page has to be brought in first.
    Miss,
    /// Below the stack's lowest page, and near enough to grow the stack.
    Below,
    /// In no segment.
    Outside,
}

/// Whether one byte may be written.
#[derive(Clone, Copy, Debug, PartialEq, Eq, Drop)]
pub enum MayWrite {
    /// It may.
    May,
    /// The byte's page has to be brought in first.
    Miss,
    /// Below the stack's lowest page, and near enough to grow the stack.
    Below,
    /// In the text, which isn't writable.
    Text,
    /// In no segment.
    Outside,
}

/// The memory of one process, as an instruction meets it. Its meaning is what it answers for each
/// address; and `wrote`, 'these writes lead from the first memory to the second', by which code
/// that is generic in its memory tells its caller what became of all that lies behind it.
pub trait Memory {
    ghost answers: { Self → Answers };

    ghost wrote: { Self → List ByteWrite → Self → Type 0 };

    /// The byte at an address.
    fn read(&self, address: u32) -> ByteRead
        ensures { result ≡ (answers self.now).read address };

    /// Whether the byte at an address may be written.
    fn may_write(&self, address: u32) -> MayWrite
        ensures { result ≡ (answers self.now).may_write address };

    /// Writes the byte at an address.
    fn write(&mut self, address: u32, byte: u8)
        requires { (answers self.old).may_write address ≡ MayWrite.May }
        ensures { wrote self.old (record { address = address; byte = byte } ∷ []) self.new };

    /// Bytes that lie together from an address on, so that they are read at once. How many is the memory's choice: none
    /// says nothing of the byte at the address.
    fn ahead(&self, address: u32) -> &[u8]
        ensures { AreAhead (answers self.now) address result.now }
    {
        &[]
    }

    /// So many bytes from an address on may be written. How many it tells is the memory's choice: 0 says nothing of the
    /// byte at the address.
    fn writable_ahead(&self, address: u32) -> u32
        ensures { MayAhead (answers self.now) address result }
    {
        0
    }

    /// Writes bytes that lie together from an address on, where the memory does so at once. The answer is whether it did:
    /// where it didn't, each byte is to be tested and written by itself.
    fn put(&mut self, address: u32, bytes: &[u8]) -> bool
        ensures may { result ≡ true → MayAhead (answers self.old) address (length bytes.now) }
        ensures done { result ≡ true → wrote self.old (writes_from address bytes.now) self.new }
        ensures left { result ≡ false → self.new ≡ self.old }
    {
        false
    }

    /// Writes longwords downwards from an address, where the memory does so at once. The answer is whether it did: where it
    /// didn't, each longword is to be tested and written by itself.
    fn put_down(&mut self, address: u32, longwords: &[u32]) -> bool
        ensures may { result ≡ true → MayBelow (answers self.old) address (4 * length longwords.now) }
        ensures done { result ≡ true → wrote self.old (writes_down address longwords.now) self.new }
        ensures left { result ≡ false → self.new ≡ self.old }
    {
        false
    }

    /// No write leads from a memory to itself.
    ghost wrote_none: { (m : Self) → wrote m [] m };

    /// Writes after writes lead from the first to the last.
    ghost wrote_more: { (a b c : Self) (xs ys : List ByteWrite) → wrote a xs b → wrote b ys c → wrote a (xs ++ ys) c };

    /// Where writes led, a byte that was written is answered, and all else as before.
    ghost wrote_answers: { (a b : Self) (xs : List ByteWrite) → wrote a xs b → answers b ≡ written (answers a) xs };
}
