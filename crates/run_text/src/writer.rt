//! A sink with a buffer before it. What waits must be flushed at the end.
ghost use Rattle.run_text.specs.Writing.{IsNewWriter, PutsText, Flushes};

use crate::buffer::OutputBuffer;
use io_edge::{Failed, Sink};

/// A sink, and the bytes that wait to be written to it: at most 4,096, kept with no memory taken. A text that is put goes on
/// after what waits. Where the sink fails it has a prefix of all this, and nothing waits.
#[derive(Drop)]
pub struct Writer<'a, S> {
    sink: &'a mut S,
    buffer: OutputBuffer,
}

impl<'a, S: Sink> Writer<'a, S> {
    /// A writer to this sink, in which nothing waits.
    pub fn new(sink: &'a mut S) -> Writer<'a, S>
        ensures { IsNewWriter sink.entry result }
    {
        Writer {
            sink,
            buffer: OutputBuffer::new(),
        }
    }

    /// Puts a text after what waits, and writes where not all can wait.
    pub fn put(&mut self, text: &[u8]) -> Result<(), Failed>
        ensures { PutsText S.Sink result text.now self.old self.new }
    {
        self.buffer.put(self.sink, text)
    }

    /// Writes what waits. Afterwards nothing waits, also where the sink failed.
    pub fn flush(&mut self) -> Result<(), Failed>
        ensures { Flushes S.Sink result self.old self.new }
    {
        self.buffer.flush(self.sink)
    }
}
