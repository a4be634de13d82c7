//! Writes what a command made, or the line of its fault, and answers the status. An output that fails has a status of
//! its own.
ghost use Rattle.command_edge.specs.Ending.{ending_of, ending_text, status_of};
ghost use Rattle.command_edge.specs.Command.{Writes, WritesSome};

use crate::fault::Fault;
use crate::lines::NO_MEMORY;
use io_edge::{Moved, Sink};
use std::alloc::Global;

// Writes a text by one call, and answers the status.
fn write_all<S: Sink>(sink: &mut S, text: &[u8], status: u8) -> u8
    ensures writes { Writes (S.written sink.old) (S.written sink.new) (S.faults sink.old) (S.faults sink.new) text.now status result }
    ensures leads { S.leads sink.old sink.new }
{
    match sink.put(text) {
        Moved::Done => status,
        Moved::Failed => 8,
    }
}

/// Writes what a command made, or the line of its fault, and answers the status: 0, that of the fault, or
/// 8 where the output failed. Where that line finds no memory, that is the fault.
pub fn write_ending<S: Sink>(alloc: Global, sink: &mut S, made: Result<Vec<u8>, Fault<'_>>) -> u8
    ensures writes { WritesSome (S.written sink.old) (S.written sink.new) (S.faults sink.old) (S.faults sink.new) (ending_of made.entry) result }
    ensures leads { S.leads sink.old sink.new }
{
    match made {
        Ok(output) => write_all(sink, output.as_slice(), 0),
        Err(fault) => match fault.line(alloc) {
            Ok(line) => write_all(sink, line.as_slice(), fault.status()),
            Err(_) => write_all(sink, NO_MEMORY, 9),
        },
    }
}
