//! Writes a run that ended, and its status. Nothing of a run is written before it has ended.
ghost use Rattle.std.specs.Prelude.{◌++◌};
ghost use Rattle.run_text.specs.Text.{text_of};
ghost use Rattle.run_text.specs.Transcript.{HaveNumbers};
ghost use Rattle.command_edge.specs.Command.{Writes};
ghost use Rattle.run_command.specs.Ends.{WritesRun};

use command_edge::{Fault, NO_MEMORY};
use io_edge::{Moved, Sink};
use run_text::{have_numbers, write_text};
use std::alloc::Global;
use vm_facts::Entry;

// Writes a journal's text and a line, and answers the status.
fn write_as<S: Sink>(sink: &mut S, traced: bool, journal: &[Entry], line: &[u8], status: u8) -> u8
    ensures writes { Writes (S.written sink.old) (S.written sink.new) (S.faults sink.old) (S.faults sink.new)
        (text_of traced journal.now ++ line.now) status result }
    ensures leads { S.leads sink.old sink.new }
{
    match write_text(sink, traced, journal, line) {
        Moved::Done => status,
        Moved::Failed => 8,
    }
}

/// Writes a run, and answers its status. Where the line of its fault finds no memory, that is how it ends; writing itself
/// takes none.
pub(crate) fn write_run<S: Sink>(
    alloc: Global,
    sink: &mut S,
    traced: bool,
    journal: &[Entry],
    ending: Result<(), Fault<'_>>,
) -> u8
    ensures numbers { HaveNumbers journal.now }
    ensures writes { WritesRun traced journal.now ending.entry (S.written sink.old) (S.written sink.new) (S.faults sink.old) (S.faults sink.new) result }
    ensures leads { S.leads sink.old sink.new }
{
    have_numbers(journal);
    match ending {
        Ok(()) => write_as(sink, traced, journal, b"", 0),
        Err(fault) => match fault.line(alloc) {
            Ok(line) => write_as(sink, traced, journal, line.as_slice(), fault.status()),
            Err(_) => write_as(sink, traced, journal, NO_MEMORY, 9),
        },
    }
}
