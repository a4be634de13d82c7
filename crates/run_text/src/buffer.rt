//! Bytes that wait to be written, kept with no memory taken. After a failed write nothing waits any more.
ghost use Rattle.std.specs.Prelude.{◌≡◌, ℕ, ◌+◌, ◌≤◌, List, [], ◌++◌, length, take, OnOk, OnErr};
ghost use Rattle.io_edge.specs.Transfer.{CountsErr};
ghost use Rattle.io_edge.specs.Written.{Appends, AppendsSome};
ghost use Rattle.run_text.specs.Buffered.{Puts};

use io_edge::{Failed, Sink, put_all};
use std::marker::Model;

// Bytes that wait to be written to a sink, at most 4,096, kept with no memory taken. Contracts see
// the list of them.
#[derive(Drop)]
pub(crate) struct OutputBuffer {
    bytes: [u8; 4096],
    len: usize,
}

impl Model for OutputBuffer {
    ghost Value = { List ℕ };

    ghost view = { λ b. take b.len b.bytes };

    ghost invariant = { λ b. b.len ≤ 4096 };
}

impl OutputBuffer {
    // A buffer in which nothing waits.
    pub(crate) fn new() -> OutputBuffer
        ensures { result ≡ [] }
    {
        OutputBuffer {
            bytes: [0; 4096],
            len: 0,
        }
    }

    // How many more bytes may wait.
    fn room(&self) -> usize
        ensures { result + length self.now ≡ 4096 }
    {
        4096 - self.len
    }

    // Lets these bytes wait.
    fn keep(&mut self, piece: &[u8])
        requires { length self.old + length piece.now ≤ 4096 }
        ensures { self.new ≡ self.old ++ piece.now }
    {
        let end = self.len + piece.len();
        self.bytes[self.len..end].copy_from_slice(piece);
        self.len = end;
    }

    // Writes the waiting bytes. Afterwards nothing waits, also where the sink failed.
    pub(crate) fn flush<S: Sink>(&mut self, sink: &mut S) -> Result<(), Failed>
        ensures leads { S.leads sink.old sink.new }
        ensures done { OnOk result (Appends (S.written sink.old) self.old (S.written sink.new)) }
        ensures failed { OnErr result (AppendsSome (S.written sink.old) self.old (S.written sink.new)) }
        ensures faults { CountsErr result (S.faults sink.old) (S.faults sink.new) }
        ensures empty { self.new ≡ [] }
    {
        let len = self.len;
        self.len = 0;
        if len == 0 {
            return Ok(());
        }
        put_all(sink, &self.bytes[..len])
    }

    // Puts the piece after the waiting bytes, and writes where not all can wait.
    pub(crate) fn put<S: Sink>(&mut self, sink: &mut S, piece: &[u8]) -> Result<(), Failed>
        ensures leads { S.leads sink.old sink.new }
        ensures puts { Puts result (S.written sink.old) self.old piece.now (S.written sink.new) self.new }
        ensures faults { CountsErr result (S.faults sink.old) (S.faults sink.new) }
    {
        if piece.len() <= self.room() {
            self.keep(piece);
            return Ok(());
        }
        self.flush(sink)?;
        self.put_large(sink, piece)
    }

    // Puts the piece where nothing waits: it waits, or is written where it's too long for that.
    fn put_large<S: Sink>(&mut self, sink: &mut S, piece: &[u8]) -> Result<(), Failed>
        requires { self.old ≡ [] }
        ensures leads { S.leads sink.old sink.new }
        ensures puts { Puts result (S.written sink.old) [] piece.now (S.written sink.new) self.new }
        ensures faults { CountsErr result (S.faults sink.old) (S.faults sink.new) }
    {
        if piece.len() <= self.room() {
            self.keep(piece);
            return Ok(());
        }
        put_all(sink, piece)
    }
}
